ghost use Rattle.std.specs.Prelude.{◌≡◌, ◌++◌, ◌<◌, IfOk, OnOk, flat_map, length};
ghost use Rattle.std.specs.List.{All};
ghost use Rattle.class_form.specs.WellFormed.{WellFormed};
ghost use Rattle.class_form.specs.Layout.{Encodes, head_bytes, declared_bytes, u2, NumberInRange, MemberInRange};
ghost use Rattle.class_writer.specs.Written.{written};

use crate::members::{put_attributes, put_members};
use crate::pool::{code_name, put_pool};
use crate::puts::{put_count, put_u2, put_u4};
use class_form::ClassFile;
use std::alloc::{AllocError, Global};

/// The bytes of a well-formed class file, with the code of each member as the first of its attributes.
pub fn write_class(alloc: Global, file: &ClassFile) -> Result<Vec<u8>, AllocError>
    requires { WellFormed file.now }
    // The bytes are the class file by the standard.
    ensures encodes { IfOk result (λ bytes. Encodes file.now bytes.items) }
    // Which of its encodings they are.
    ensures exact { IfOk result (λ bytes. bytes.items ≡ written file.now) }
{
    all_bytes(alloc, file)
}

#[tactic(auto, unfolding(class_form::specs::Layout::class_file_bytes))]
fn all_bytes(alloc: Global, file: &ClassFile) -> Result<Vec<u8>, AllocError>
    requires { WellFormed file.now }
    ensures exact { IfOk result (λ bytes. bytes.items ≡ written file.now) }
    ensures constants { OnOk result (All NumberInRange file.now.constants) }
    ensures fields { OnOk result (All MemberInRange file.now.fields) }
    ensures methods { OnOk result (All MemberInRange file.now.methods) }
    ensures flags { OnOk result (file.now.flags < 65536) }
{
    let name = code_name(file.constants.as_slice());
    let mut out = Vec::new(alloc);
    put_head(&mut out)?;
    put_pool(&mut out, file.constants.as_slice())?;
    put_declared(&mut out, file)?;
    put_members(&mut out, file.fields.as_slice(), name)?;
    put_members(&mut out, file.methods.as_slice(), name)?;
    put_attributes(&mut out, file.attributes.as_slice())?;
    Ok(out)
}

// The magic number, and the minor and the major version (JVM specification, second edition, 4.1).
#[tactic(auto, unfolding(class_form::specs::Layout::head_bytes))]
fn put_head(out: &mut Vec<u8>) -> Result<(), AllocError>
    ensures { OnOk result (out.new.items ≡ out.old.items ++ head_bytes) }
{
    put_u4(out, 0xcafe_babe)?;
    put_u2(out, 0)?;
    put_u2(out, 48)
}

// The access flags, this class, the super class and the interfaces.
#[tactic(auto, unfolding(class_form::specs::Layout::declared_bytes))]
fn put_declared(out: &mut Vec<u8>, file: &ClassFile) -> Result<(), AllocError>
    requires { length file.now.interfaces < 65536 }
    ensures spelled { OnOk result (out.new.items ≡ out.old.items ++ declared_bytes file.now) }
    ensures flags { OnOk result (file.now.flags < 65536) }
{
    put_u2(out, file.flags)?;
    put_u2(out, file.this_class)?;
    put_u2(out, file.super_class)?;
    put_count(out, file.interfaces.len())?;
    put_indices(out, file.interfaces.as_slice())
}

fn put_indices(out: &mut Vec<u8>, indices: &[u16]) -> Result<(), AllocError>
    ensures { OnOk result (out.new.items ≡ out.old.items ++ flat_map u2 indices.now) }
{
    for index in indices {
        put_u2(out, *index)?;
    }
    Ok(())
}
