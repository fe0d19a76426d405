ghost use Rattle.std.specs.Prelude.{◌≡◌, ◌∷◌};
ghost use Rattle.jp_store.specs.declared.value.Value.TheVariants.{Ref};
ghost use Rattle.jp_store.specs.declared.value.Value.{Value as Cell};
ghost use Rattle.std.specs.Prelude.{List};
ghost use Rattle.jvm_table.specs.Act.{VirtualMethod};
ghost use Rattle.jvm_step.specs.Turn as turn;
ghost use Rattle.jp_store.specs.declared.heap.Thing.{Thing as Made};

use jp_store::{ClassAt, Heap, Thing};
use jvm_load::Program;
use jvm_step::MemberName;

// The class of an object, if it is one that has a file.
fn class_of(heap: &Heap, number: usize) -> Option<u32>
    ensures { (args : List Cell) → result ≡ turn.receiver_class heap.now (Ref number ∷ args) }
{
    match heap.thing(number)? {
        Thing::Object(ClassAt::Listed(class), _) => Some(*class),
        _ => None,
    }
}

// The method that is found upwards from an object's class.
pub(crate) fn find_virtual(
    program: &Program,
    heap: &Heap,
    number: usize,
    member: &MemberName,
) -> Option<(u32, u32)>
    ensures { (args : List Cell) → result ≡ turn.found_by program.now heap.now (VirtualMethod member.now.name.now member.now.descriptor.now) (Ref number ∷ args) }
{
    let class = class_of(heap, number)?;
    if class as usize >= program.files().len() {
        return None;
    }
    program.find_method(class, member.name, member.descriptor)
}
