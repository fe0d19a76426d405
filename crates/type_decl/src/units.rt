ghost use Rattle.std.specs.Prelude.{◌≡◌, true, IfOk, IsTrue};
ghost use Rattle.std.specs.List.{list_all};
ghost use Rattle.type_decl.specs.Limits.{decl_fits, unit_fits};
ghost use Rattle.type_decl.specs.Checking.{with_class, ChecksDecls, Checks};

use crate::classes::check_decl;
use decl_heads::heads_of;
use iface_codec::Iface;
use jp_ast::{Decl, SourceUnit};
use jp_meaning::{TypedClass, TypedUnit};
use sqlite_items::Items;
use std::alloc::{AllocError, Global};
use type_heads::{First, TypeErr};

/// The resolved tree of a unit that breaks no rule of types, or else its first fault: the first place, and there the least
/// rule. `others` are the heads of the classes beside the unit's own and the language's that it may name. The unit is within
/// its limits: each declaration has at most 8,000 members, and each member at most 8 parameters, 8 aliases and 200 slots.
pub fn check(alloc: Global, unit: &SourceUnit, others: Items<Iface>) -> Result<TypedUnit, TypeErr>
    requires fits { IsTrue (unit_fits unit.now) }
    ensures { Checks unit.now others result }
{
    let mut first = First::none();
    let decls = unit.decls.as_slice();
    let heads = heads_of(alloc, decls, others)?;
    let classes = check_decls(alloc, heads, decls, &mut first)?;
    if let Some(fault) = first.fault {
        return Err(TypeErr::Fault(fault));
    }
    match classes {
        Some(classes) => Ok(TypedUnit { classes }),
        None => unreachable!(),
    }
}

/// The resolved declarations, where none has a fault, and the first fault so far, which takes in those of their nodes.
fn check_decls(
    alloc: Global,
    heads: Items<Iface>,
    decls: &[Decl],
    first: &mut First,
) -> Result<Option<Items<TypedClass>>, AllocError>
    requires { list_all decl_fits decls.now ≡ true }
    ensures { IfOk result (λ done. ChecksDecls heads decls.now first.old.fault first.new.fault done) }
{
    let mut heads = heads;
    let mut done = Some(Items::new(alloc));
    for at in 0..decls.len() {
        let one = check_decl(alloc, heads, &decls[..at], &decls[at], first)?;
        heads = one.heads;
        done = with_class(done, one.class)?;
    }
    Ok(done)
}

/// The resolved declarations so far and one more, where none has a fault.
fn with_class(
    done: Option<Items<TypedClass>>,
    class: Option<TypedClass>,
) -> Result<Option<Items<TypedClass>>, AllocError>
    ensures { IfOk result (λ more. more ≡ with_class done class) }
{
    let Some(mut done) = done else {
        return Ok(None);
    };
    let Some(class) = class else {
        return Ok(None);
    };
    done.push(class)?;
    Ok(Some(done))
}
