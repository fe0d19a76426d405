ghost use Rattle.std.specs.Prelude.{◌≡◌, ◌++◌, ◌∷◌, ◌<◌, OnOk, IsTrue, length};
ghost use Rattle.std.specs.List.{list_all, All};
ghost use Rattle.class_form.specs.WellFormed.{text_fits};
ghost use Rattle.class_form.specs.Layout.{constant_bytes, pool_bytes, NumberInRange, u2};
ghost use Rattle.class_writer.specs.Written.{code_name};

use crate::puts::{put_count, put_index, put_indices, put_tagged_u4, put_tagged_u8};
use class_form::{Const, is_code_text};
use std::alloc::AllocError;

/// The constants behind their count (JVM specification, second edition, 4.4).
#[tactic(auto, unfolding(class_form::specs::Layout::pool_bytes))]
pub(crate) fn put_pool(out: &mut Vec<u8>, constants: &[Const]) -> Result<(), AllocError>
    requires count { length constants.now < 65536 }
    requires texts { IsTrue (list_all text_fits constants.now) }
    ensures spelled { OnOk result (out.new.items ≡ out.old.items ++ pool_bytes constants.now) }
    ensures numbers { OnOk result (All NumberInRange constants.now) }
{
    put_count(out, constants.len())?;
    for constant in constants {
        put_constant(out, constant)?;
    }
    Ok(())
}

// A constant by its tag.
#[tactic(auto, unfolding(class_form::specs::Layout::constant_bytes))]
fn put_constant(out: &mut Vec<u8>, constant: &Const) -> Result<(), AllocError>
    requires { IsTrue (text_fits constant.now) }
    ensures spelled { OnOk result (out.new.items ≡ out.old.items ++ constant_bytes constant.now) }
    ensures numbers { OnOk result (NumberInRange constant.now) }
{
    match constant {
        Const::Unused => Ok(()),
        Const::Utf8(text) => put_text(out, text.bytes()),
        Const::Integer(n) => put_tagged_u4(out, 3, n.cast_unsigned()),
        Const::Float(bits) => put_tagged_u4(out, 4, *bits),
        Const::Long(n) => put_tagged_u8(out, 5, n.cast_unsigned()),
        Const::Double(bits) => put_tagged_u8(out, 6, *bits),
        Const::Class(name) => put_index(out, 7, *name),
        Const::Text(text) => put_index(out, 8, *text),
        Const::Fieldref(class, name) => put_indices(out, 9, *class, *name),
        Const::Methodref(class, name) => put_indices(out, 10, *class, *name),
        Const::InterfaceMethodref(class, name) => put_indices(out, 11, *class, *name),
        Const::NameAndType(name, descriptor) => put_indices(out, 12, *name, *descriptor),
    }
}

fn put_text(out: &mut Vec<u8>, text: &[u8]) -> Result<(), AllocError>
    requires { length text.now < 65536 }
    ensures { OnOk result (out.new.items ≡ out.old.items ++ 1 ∷ u2 (length text.now) ++ text.now) }
{
    out.push(1)?;
    put_count(out, text.len())?;
    out.extend_from_slice(text)
}

/// The index of the first text `Code`, or the count of the constants.
pub(crate) fn code_name(constants: &[Const]) -> u16
    requires { length constants.now < 65536 }
    ensures { result ≡ code_name constants.now }
{
    let mut index = 0;
    for constant in constants {
        if is_code_text(constant) {
            return index;
        }
        index += 1;
    }
    index
}
