ghost use Rattle.std.specs.Prelude.{◌≡◌, ◌<◌, List, length, IfOk, IfSome, option_and_then};
ghost use Rattle.std.specs.Option.{option_map};
ghost use Rattle.jp_store.specs.declared.heap.Thing.{Thing as Made};
ghost use Rattle.jp_store.specs.declared.value.Value.{Value as Cell};
ghost use Rattle.jvm_table.specs.Constants.{method_in, interface_method_in, member_named};
ghost use Rattle.jvm_load.specs.Fields.{found_at, IsAmongFirst};
ghost use Rattle.jvm_step.specs.Names.{named};
ghost use Rattle.jvm_link.specs.Links.{class_named, field_named, IsConstant, IsWithin, signed, static_of, special_of};

use crate::find::{find_special, find_static};
use class_form::{ClassFile, class_name};
use jp_store::ClassAt;
use jvm_load::{FieldPlace, Program, Signature, read_signature};
use jvm_step::{MemberName, field_name, interface_method_name, method_name};
use std::alloc::{AllocError, Global};

/// What a constant names: a class, a field that is or isn't static, and of a method its descriptor and what static and
/// special calls find.
#[derive(Drop)]
pub(crate) struct Constant {
    pub(crate) class: Option<ClassAt>,
    pub(crate) field: Option<FieldPlace>,
    pub(crate) static_field: Option<FieldPlace>,
    pub(crate) signature: Option<Signature>,
    pub(crate) interface_signature: Option<Signature>,
    pub(crate) static_method: Option<(u32, u32)>,
    pub(crate) special_method: Option<(u32, u32)>,
}

fn class_of(program: &Program, file: &ClassFile, index: u16) -> Option<ClassAt>
    ensures class { result ≡ class_named program.now file.now index }
    ensures within { IfSome result (IsAmongFirst (length program.now)) }
{
    program.class_at(class_name(file, index)?)
}

fn field_of(
    program: &Program,
    file: &ClassFile,
    wants_static: bool,
    index: u16,
) -> Option<FieldPlace>
    ensures field { option_map found_at result
        ≡ field_named wants_static program.now file.now index }
    ensures within { IfSome result (λ place. place.class < length program.now) }
{
    let field = field_name(file, index)?;
    program.field_of(wants_static, field.class, field.name, field.descriptor)
}

// What the descriptor of a method says.
fn signature_of(alloc: Global, member: Option<MemberName>) -> Result<Option<Signature>, AllocError>
    ensures { IfOk result (λ signature. signature ≡ option_and_then signed (option_map named member.entry)) }
{
    match member {
        Some(member) => read_signature(alloc, member.descriptor),
        None => Ok(None),
    }
}

fn static_method_of(program: &Program, file: &ClassFile, index: u16) -> Option<(u32, u32)>
    ensures { (heap : List Made) (args : List Cell) → result ≡ option_and_then (static_of program.now heap args) (member_named method_in file.now index) }
{
    let member = method_name(file, index)?;
    find_static(program, &member)
}

fn special_method_of(program: &Program, file: &ClassFile, index: u16) -> Option<(u32, u32)>
    ensures { (heap : List Made) (args : List Cell) → result ≡ option_and_then (special_of program.now file.now heap args) (member_named method_in file.now index) }
{
    let member = method_name(file, index)?;
    find_special(program, file, &member)
}

// What the constant at an index of a file names. The error is want of memory.
pub(crate) fn constant_at(
    alloc: Global,
    program: &Program,
    file: &ClassFile,
    index: u16,
) -> Result<Constant, AllocError>
    ensures constant { IfOk result (IsConstant program.now file.now index) }
    ensures within { IfOk result (IsWithin (length program.now)) }
{
    let signature = signature_of(alloc, method_name(file, index))?;
    let interface_signature = signature_of(alloc, interface_method_name(file, index))?;
    Ok(Constant {
        class: class_of(program, file, index),
        field: field_of(program, file, false, index),
        static_field: field_of(program, file, true, index),
        signature,
        interface_signature,
        static_method: static_method_of(program, file, index),
        special_method: special_method_of(program, file, index),
    })
}
