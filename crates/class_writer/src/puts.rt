ghost use Rattle.std.specs.Prelude.{◌≡◌, ◌++◌, ◌∷◌, ◌<◌, OnOk};
ghost use Rattle.class_form.specs.Layout.{u2, u4, u8};

use std::alloc::AllocError;

#[tactic(auto, unfolding(class_form::specs::Layout::u2))]
pub(crate) fn put_u2(out: &mut Vec<u8>, n: u16) -> Result<(), AllocError>
    ensures spelled { OnOk result (out.new.items ≡ out.old.items ++ u2 n) }
    ensures in_range { OnOk result (n < 65536) }
{
    out.extend_from_slice(&n.to_be_bytes())
}

#[tactic(auto, unfolding(class_form::specs::Layout::u4))]
pub(crate) fn put_u4(out: &mut Vec<u8>, n: u32) -> Result<(), AllocError>
    ensures { OnOk result (out.new.items ≡ out.old.items ++ u4 n) }
{
    out.extend_from_slice(&n.to_be_bytes())
}

#[tactic(auto, unfolding(class_form::specs::Layout::u8))]
pub(crate) fn put_u8(out: &mut Vec<u8>, n: u64) -> Result<(), AllocError>
    ensures { OnOk result (out.new.items ≡ out.old.items ++ u8 n) }
{
    out.extend_from_slice(&n.to_be_bytes())
}

// A count of two bytes.
pub(crate) fn put_count(out: &mut Vec<u8>, count: usize) -> Result<(), AllocError>
    requires { count < 65536 }
    ensures { OnOk result (out.new.items ≡ out.old.items ++ u2 count) }
{
    put_u2(out, count as u16)
}

// A length of four bytes.
pub(crate) fn put_length(out: &mut Vec<u8>, length: u64) -> Result<(), AllocError>
    requires { length < 4294967296 }
    ensures { OnOk result (out.new.items ≡ out.old.items ++ u4 length) }
{
    put_u4(out, length as u32)
}

// A tag, and an index.
pub(crate) fn put_index(out: &mut Vec<u8>, tag: u8, index: u16) -> Result<(), AllocError>
    ensures { OnOk result (out.new.items ≡ out.old.items ++ tag ∷ u2 index) }
{
    out.push(tag)?;
    put_u2(out, index)
}

// A tag, and two indices.
pub(crate) fn put_indices(
    out: &mut Vec<u8>,
    tag: u8,
    first: u16,
    second: u16,
) -> Result<(), AllocError>
    ensures { OnOk result (out.new.items ≡ out.old.items ++ tag ∷ u2 first ++ u2 second) }
{
    out.push(tag)?;
    put_u2(out, first)?;
    put_u2(out, second)
}

// A tag, and four bytes.
pub(crate) fn put_tagged_u4(out: &mut Vec<u8>, tag: u8, n: u32) -> Result<(), AllocError>
    ensures { OnOk result (out.new.items ≡ out.old.items ++ tag ∷ u4 n) }
{
    out.push(tag)?;
    put_u4(out, n)
}

// A tag, and eight bytes.
pub(crate) fn put_tagged_u8(out: &mut Vec<u8>, tag: u8, n: u64) -> Result<(), AllocError>
    ensures { OnOk result (out.new.items ≡ out.old.items ++ tag ∷ u8 n) }
{
    out.push(tag)?;
    put_u8(out, n)
}
