//! Tables of what is below what and of guards on shapes, with the answers that the definitions give by hand.

ghost use Rattle.std.specs.Prelude.{◌<◌, ◌^◌, IsTrue};
ghost use Rattle.jp_pred.specs.Truth.{longest, row_length};

use super::*;
use sqlite_items::{Boxed, Items};
use std::alloc::{AllocError, Global};
use std::cmp::Ordering;
use std::test::Fail;

fn name(alloc: Global, text: &str) -> Result<Name, AllocError> {
    Name::from_bytes(alloc, text.as_bytes())
}

fn names(alloc: Global, texts: &[&str]) -> Result<Items<Name>, AllocError> {
    let mut all = Items::new(alloc);
    for text in texts {
        all.push(name(alloc, text)?)?;
    }
    Ok(all)
}

fn interface(alloc: Global, text: &str, above: &[&str]) -> Result<SeenClass, AllocError> {
    Ok(SeenClass {
        name: name(alloc, text)?,
        is_interface: true,
        is_abstract: true,
        is_final: false,
        superclass: None,
        interfaces: names(alloc, above)?,
        fields: Items::new(alloc),
    })
}

fn class(
    alloc: Global,
    text: &str,
    superclass: &str,
    above: &[&str],
) -> Result<SeenClass, AllocError> {
    Ok(SeenClass {
        name: name(alloc, text)?,
        is_interface: false,
        is_abstract: false,
        is_final: false,
        superclass: Some(name(alloc, superclass)?),
        interfaces: names(alloc, above)?,
        fields: Items::new(alloc),
    })
}

/// Interfaces I and J, a class A of I, and B, which extends A and is of J.
fn small(alloc: Global) -> Result<Hier, AllocError> {
    let mut classes = Items::new(alloc);
    classes.push(interface(alloc, "I", &[])?)?;
    classes.push(interface(alloc, "J", &["I"])?)?;
    classes.push(class(alloc, "A", "Object", &["I"])?)?;
    classes.push(class(alloc, "B", "A", &["J"])?)?;
    Ok(Hier { classes })
}

/// Thirty layers of two interfaces each, of which each extends both of the next layer, and a class on one of the last.
fn layers(alloc: Global) -> Result<Hier, AllocError> {
    let mut classes = Items::new(alloc);
    for layer in 0..30u8 {
        for side in [b'L', b'R'] {
            let mut above = Items::new(alloc);
            if layer < 29 {
                above.push(Name::from_bytes(alloc, &[b'L', layer + 1])?)?;
                above.push(Name::from_bytes(alloc, &[b'R', layer + 1])?)?;
            }
            classes.push(SeenClass {
                name: Name::from_bytes(alloc, &[side, layer])?,
                is_interface: true,
                is_abstract: true,
                is_final: false,
                superclass: None,
                interfaces: above,
                fields: Items::new(alloc),
            })?;
        }
    }
    Ok(Hier { classes })
}

#[test]
fn the_small_table_of_below(rt: HostRuntime) -> Result<(), Fail> {
    let alloc = rt.alloc();
    let hier = small(alloc)?;
    let rows = [
        ("B", "A", true),
        ("B", "I", true),
        ("B", "J", true),
        ("A", "J", false),
        ("A", "B", false),
        ("I", "I", true),
        ("I", "Object", true),
        ("J", "I", true),
        ("Object", "A", false),
        ("Other", "A", false),
        ("Other", "Object", true),
    ];
    if !has_no_cycle(&hier) {
        return Err(Fail::from("a cycle"));
    }
    for (lower, upper, want) in rows {
        assert_eq!(rt;
            below(&hier, &name(alloc, lower)?, &name(alloc, upper)?),
            want
        );
    }
    Ok(())
}

#[test]
fn layered_interfaces_take_no_time(rt: HostRuntime) -> Result<(), Fail> {
    let alloc = rt.alloc();
    let hier = layers(alloc)?;
    if !has_no_cycle(&hier) {
        return Err(Fail::from("a cycle"));
    }
    let first = Name::from_bytes(alloc, b"L\x00")?;
    assert!(rt; below(&hier, &first, &Name::from_bytes(alloc, b"R\x1d")?));
    assert!(rt; !below(&hier, &first, &Name::from_bytes(alloc, b"R\x1e")?));
    assert!(rt; !below(&hier, &first, &Name::from_bytes(alloc, b"R\x00")?));
    Ok(())
}

#[test]
fn a_cycle_is_found(rt: HostRuntime) -> Result<(), Fail> {
    let alloc = rt.alloc();
    let mut classes = Items::new(alloc);
    classes.push(class(alloc, "A", "B", &[])?)?;
    classes.push(class(alloc, "B", "C", &[])?)?;
    classes.push(class(alloc, "C", "A", &[])?)?;
    assert!(rt; !has_no_cycle(&Hier { classes }));
    Ok(())
}

/// Whether no row of the guard is long, which `holds` needs.
fn is_short(guard: &Guard) -> bool
    ensures { IsTrue result → longest guard.now < 2 ^ 32 }
{
    match guard {
        Guard::True | Guard::False => true,
        Guard::And(left, right) | Guard::Or(left, right) => is_short(left.get())
            && is_short(right.get()),
        Guard::Not(inner) => is_short(inner.get()),
        Guard::Atom(atom) => is_short_atom(atom),
    }
}

fn is_short_atom(atom: &Atom) -> bool
    ensures { IsTrue result → row_length atom.now < 2 ^ 32 }
{
    match atom {
        Atom::Is(..) => true,
        Atom::Row(row) => row.terms.len() < 100,
    }
}

fn holds_here(hier: &Hier, guard: &Guard, shape: &Shape) -> Option<bool> {
    if has_no_cycle(hier) && is_short(guard) {
        Some(holds(hier, guard, shape))
    } else {
        None
    }
}

fn root(alloc: Global, root: u8) -> Path {
    Path {
        root,
        steps: Items::new(alloc),
    }
}

/// The field of that name of class E, of the first parameter.
fn field(alloc: Global, field: &str) -> Result<Path, AllocError> {
    let mut steps = Items::new(alloc);
    steps.push(PathStep {
        class: name(alloc, "E")?,
        field: name(alloc, field)?,
    })?;
    Ok(Path { root: 1, steps })
}

fn is(alloc: Global, path: Path, class: &str) -> Result<Guard, AllocError> {
    Ok(Guard::Atom(Atom::Is(path, Ty::Class(name(alloc, class)?))))
}

fn row(alloc: Global, terms: &[(i64, &str)], bound: i64) -> Result<Guard, AllocError> {
    let mut all = Items::new(alloc);
    for (coefficient, path) in terms {
        all.push(Term {
            coefficient: *coefficient,
            path: field(alloc, path)?,
        })?;
    }
    Ok(Guard::Atom(Atom::Row(Row { terms: all, bound })))
}

/// An argument of that kind, with these fields.
fn shape(alloc: Global, kind: Kind, fields: &[(&str, i32)]) -> Result<Shape, AllocError> {
    let mut refs = Items::new(alloc);
    refs.push((root(alloc, 1), kind))?;
    let mut ints = Items::new(alloc);
    for (path, value) in fields {
        ints.push((field(alloc, path)?, *value))?;
    }
    Ok(Shape { refs, ints })
}

/// Whether an argument of that kind is of both classes.
fn is_of_both(alloc: Global, kind: Kind, classes: [&str; 2]) -> Result<Option<bool>, AllocError> {
    let first = Boxed::new(alloc, is(alloc, root(alloc, 1), classes[0])?)?;
    let second = Boxed::new(alloc, is(alloc, root(alloc, 1), classes[1])?)?;
    let shape = shape(alloc, kind, &[])?;
    Ok(holds_here(&small(alloc)?, &Guard::And(first, second), &shape))
}

/// The truth of the row on an argument with these fields, and that of its negation.
fn row_and_negation(
    alloc: Global,
    fields: &[(&str, i32)],
    terms: &[(i64, &str)],
    bound: i64,
) -> Result<[Option<bool>; 2], AllocError> {
    let hier = small(alloc)?;
    let shape = shape(alloc, Kind::Null, fields)?;
    let guard = row(alloc, terms, bound)?;
    let holds = holds_here(&hier, &guard, &shape);
    let negation = Guard::Not(Boxed::new(alloc, guard)?);
    Ok([holds, holds_here(&hier, &negation, &shape)])
}

#[test]
fn an_unlisted_class_may_be_of_two_interfaces(rt: HostRuntime) -> Result<(), Fail> {
    let alloc = rt.alloc();
    let kind = Kind::Fresh {
        superclass: name(alloc, "Object")?,
        interfaces: names(alloc, &["I", "J"])?,
    };
    assert_eq!(rt; is_of_both(alloc, kind, ["I", "J"])?, Some(true));
    Ok(())
}

#[test]
fn null_and_arrays_are_of_no_class(rt: HostRuntime) -> Result<(), Fail> {
    let alloc = rt.alloc();
    assert_eq!(rt;
        is_of_both(alloc, Kind::Null, ["Object", "Object"])?,
        Some(false)
    );
    assert_eq!(rt;
        is_of_both(alloc, Kind::Array, ["Object", "Object"])?,
        Some(false)
    );
    Ok(())
}

#[test]
fn sums_do_not_wrap_and_an_undefined_path_is_false(rt: HostRuntime) -> Result<(), Fail> {
    let alloc = rt.alloc();
    let yes = [Some(true), Some(false)];
    let no = [Some(false), Some(true)];
    let large = [("a", i32::MAX), ("b", i32::MAX), ("a", 0)];
    let both = [(1, "a"), (1, "b")];
    assert_eq!(rt;
        row_and_negation(alloc, &large, &[(-1, "a"), (-1, "b")], -1)?,
        yes
    );
    assert_eq!(rt; row_and_negation(alloc, &large, &both, 4_294_967_294)?, yes);
    assert_eq!(rt; row_and_negation(alloc, &large, &both, 4_294_967_293)?, no);
    assert_eq!(rt; row_and_negation(alloc, &[("a", 0)], &both, i64::MAX)?, no);
    Ok(())
}

#[test]
fn paths_have_their_order(rt: HostRuntime) -> Result<(), Fail> {
    let alloc = rt.alloc();
    let first = field(alloc, "a")?;
    let second = field(alloc, "b")?;
    assert_eq!(rt; second.cmp(&first), Ordering::Greater);
    assert_eq!(rt; root(alloc, 1).cmp(&first), Ordering::Less);
    assert_eq!(rt; root(alloc, 2).cmp(&first), Ordering::Greater);
    assert!(rt; first == first);
    Ok(())
}

#[test]
fn a_copy_of_a_name_is_the_same(rt: HostRuntime) -> Result<(), Fail> {
    let alloc = rt.alloc();
    let add = name(alloc, "Add")?;
    assert!(rt; add.copy(alloc)? == add);
    assert_ne!(rt; What::Terms, What::Steps);
    Ok(())
}
