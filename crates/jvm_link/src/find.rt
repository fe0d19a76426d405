ghost use Rattle.std.specs.Prelude.{◌≡◌, List, option_and_then};
ghost use Rattle.jp_store.specs.declared.heap.Thing.{Thing as Made};
ghost use Rattle.jp_store.specs.declared.value.Value.{Value as Cell};
ghost use Rattle.jvm_table.specs.Act as table;
ghost use Rattle.jvm_table.specs.Act.{StaticMethod, Constructor, MethodAbove};
ghost use Rattle.jvm_step.specs.Names.{named};
ghost use Rattle.jvm_step.specs.Turn as turn;

use class_form::{ClassFile, class_name};
use jvm_load::Program;
use jvm_step::MemberName;

// The method that is found upwards from the named class.
pub(crate) fn find_static(program: &Program, member: &MemberName) -> Option<(u32, u32)>
    ensures { (heap : List Made) (args : List Cell) → result ≡ turn.found_by program.now heap (StaticMethod (named member.now)) args }
{
    program.find_method(program.class(member.class)?, member.name, member.descriptor)
}

// The named class's own method.
fn find_constructor(program: &Program, member: &MemberName) -> Option<(u32, u32)>
    ensures { (heap : List Made) (args : List Cell) → result ≡ turn.found_by program.now heap (Constructor (named member.now)) args }
{
    let class = program.class(member.class)?;
    let method = program.own_method(class, member.name, member.descriptor)?;
    Some((class, method))
}

// The method that is found upwards from the super class of a class.
fn find_above(program: &Program, class: &[u8], member: &MemberName) -> Option<(u32, u32)>
    ensures { (heap : List Made) (args : List Cell) → result ≡ turn.found_by program.now heap (MethodAbove class.now member.now.name.now member.now.descriptor.now) args }
{
    let above = program.superclass(program.class(class)?)?;
    program.find_method(above, member.name, member.descriptor)
}

// The constructor of the named class, or the method above the class whose code this is.
pub(crate) fn find_special(
    program: &Program,
    file: &ClassFile,
    member: &MemberName,
) -> Option<(u32, u32)>
    ensures { (heap : List Made) (args : List Cell) → result
        ≡ option_and_then (λ target. turn.found_by program.now heap target args) (table.special_target file.now (named member.now)) }
{
    if member.name == b"<init>".as_slice() {
        find_constructor(program, member)
    } else {
        find_above(program, class_name(file, file.this_class)?, member)
    }
}
