use crate::type_guard;
use iface_codec::{Iface, IfaceField};
use jp_ast::{GuardExpr, GuardKind, PathText, Place, Summand, sign};
use jp_pred::{Name, Ty};
use sqlite_items::{Boxed, Items};
use std::alloc::{AllocError, Global};
use std::test::Fail;
use type_heads::TypeErr;
use type_rules::{GuardScope, TypeFault, Variable};

/// A node of a guard that is written behind its parts. A list of them is a guard, and each stands in the column of its
/// position in the list, from 1 on, with its path.
#[derive(Clone, Copy)]
enum Part<'a> {
    Truth,
    Not,
    And,
    Or,
    /// `path@class`
    Is(&'a [&'a str], &'a str),
    /// `path@class as name`
    IsAs(&'a [&'a str], &'a str, &'a str),
    As(&'a [&'a str], &'a str),
    Null(&'a [&'a str]),
    Flag(&'a [&'a str]),
    /// `path < number`
    Less(&'a [&'a str], u32),
}

use Part::{And, As, Flag, Is, IsAs, Less, Not, Null, Or, Truth};

fn name(alloc: Global, text: &str) -> Result<Name, AllocError> {
    Name::from_bytes(alloc, text.as_bytes())
}

fn path(alloc: Global, place: Place, words: &[&str]) -> Result<PathText, AllocError> {
    let mut root = name(alloc, "")?;
    let mut steps = Items::new(alloc);
    for (i, word) in words.iter().enumerate() {
        if i == 0 {
            root = name(alloc, word)?;
        } else {
            steps.push(name(alloc, word)?)?;
        }
    }
    Ok(PathText { place, root, steps })
}

fn summand(place: Place, number: Option<u32>, path: Option<PathText>) -> Summand {
    let factor = match number {
        Some(number) => Some((number, false)),
        None => None,
    };
    Summand {
        place,
        negative: false,
        factor,
        path,
    }
}

fn less(alloc: Global, place: Place, words: &[&str], number: u32) -> Result<GuardKind, AllocError> {
    let mut left = Items::new(alloc);
    left.push(summand(place, None, Some(path(alloc, place, words)?)))?;
    let mut right = Items::new(alloc);
    right.push(summand(place, Some(number), None))?;
    Ok(GuardKind::Compare {
        left,
        sign: sign::LESS,
        right,
    })
}

fn atom(alloc: Global, place: Place, part: Part<'_>) -> Result<GuardKind, AllocError> {
    Ok(match part {
        Part::Is(words, class) => GuardKind::Is {
            path: path(alloc, place, words)?,
            class: name(alloc, class)?,
            alias: None,
        },
        Part::IsAs(words, class, text) => GuardKind::Is {
            path: path(alloc, place, words)?,
            class: name(alloc, class)?,
            alias: Some(name(alloc, text)?),
        },
        Part::As(words, text) => GuardKind::Alias {
            path: path(alloc, place, words)?,
            name: name(alloc, text)?,
        },
        Part::Null(words) => GuardKind::NullTest {
            path: path(alloc, place, words)?,
            equal: true,
        },
        Part::Flag(words) => GuardKind::Flag(path(alloc, place, words)?),
        Part::Less(words, number) => less(alloc, place, words, number)?,
        _ => GuardKind::Truth(true),
    })
}

/// The last of the parts.
fn last(alloc: Global, parts: &mut Items<GuardExpr>) -> Result<Boxed<GuardExpr>, AllocError> {
    match parts.pop() {
        Some(part) => Boxed::new(alloc, part),
        None => Boxed::new(alloc, blank()),
    }
}

fn blank() -> GuardExpr {
    GuardExpr {
        place: Place { line: 1, col: 0 },
        kind: GuardKind::Truth(true),
    }
}

fn kind(
    alloc: Global,
    place: Place,
    part: Part<'_>,
    parts: &mut Items<GuardExpr>,
) -> Result<GuardKind, AllocError> {
    Ok(match part {
        Part::Not => GuardKind::Not(last(alloc, parts)?),
        Part::And => {
            let right = last(alloc, parts)?;
            let left = last(alloc, parts)?;
            GuardKind::And(left, right)
        }
        Part::Or => {
            let right = last(alloc, parts)?;
            let left = last(alloc, parts)?;
            GuardKind::Or(left, right)
        }
        _ => atom(alloc, place, part)?,
    })
}

/// The guard that the list says.
fn guard(alloc: Global, list: &[Part<'_>]) -> Result<GuardExpr, AllocError> {
    let mut parts = Items::new(alloc);
    let mut col = 0u32;
    for part in list {
        col = col.saturating_add(1);
        let place = Place { line: 1, col };
        let kind = kind(alloc, place, *part, &mut parts)?;
        parts.push(GuardExpr { place, kind })?;
    }
    Ok(parts.pop().unwrap_or(blank()))
}

/// A class with these fields; one whose name begins with `I` is an interface.
fn class(
    alloc: Global,
    text: &str,
    superclass: &str,
    fields: &[(&str, Ty)],
) -> Result<Iface, AllocError> {
    let mut all = Items::new(alloc);
    for (field, ty) in fields {
        all.push(IfaceField {
            name: name(alloc, field)?,
            ty: copy(alloc, ty)?,
            is_private: *field == "p",
            is_static: false,
        })?;
    }
    let is_interface = text.as_bytes().first() == Some(&b'I');
    Ok(Iface {
        name: name(alloc, text)?,
        is_abstract: is_interface,
        is_final: false,
        is_interface,
        superclass: Some(name(alloc, superclass)?),
        interfaces: Items::new(alloc),
        fields: all,
        constructors: Items::new(alloc),
        methods: Items::new(alloc),
    })
}

fn copy(alloc: Global, ty: &Ty) -> Result<Ty, AllocError> {
    type_heads::copy_ty(alloc, ty)
}

/// A body of class `A`, with parameters `A e, int n, boolean t`, beside `class P { P l; private int p; }`,
/// `class Q extends P { int v; }`, and an interface `I`.
fn scope(alloc: Global) -> Result<GuardScope, AllocError> {
    let p = Ty::Class(name(alloc, "P")?);
    let mut heads = Items::new(alloc);
    heads.push(class(alloc, "A", "Object", &[])?)?;
    heads.push(class(alloc, "P", "Object", &[("l", p), ("p", Ty::Int)])?)?;
    heads.push(class(alloc, "Q", "P", &[("v", Ty::Int)])?)?;
    heads.push(class(alloc, "I", "Object", &[])?)?;
    let mut params = Items::new(alloc);
    for (text, ty) in [
        ("e", Ty::Class(name(alloc, "P")?)),
        ("n", Ty::Int),
        ("t", Ty::Boolean),
    ] {
        let name = name(alloc, text)?;
        params.push(Variable { name, ty })?;
    }
    Ok(GuardScope {
        heads,
        class: name(alloc, "A")?,
        params,
        aliases: Items::new(alloc),
        tests: Items::new(alloc),
        is_outermost: true,
    })
}

/// The column and the rule of the first fault, or 0 and 0; and how many aliases and tests stand behind the guard.
fn outcome(alloc: Global, list: &[Part<'_>]) -> Result<(u32, u8, usize, usize), AllocError> {
    let mut scope = scope(alloc)?;
    if scope.params.len() > 255 {
        return Ok((0, 99, 0, 0));
    }
    let (col, rule) = match type_guard(alloc, &mut scope, &guard(alloc, list)?) {
        Ok(_) => (0, 0),
        Err(TypeErr::Fault(TypeFault { place, rule })) => (place.col, rule),
        Err(TypeErr::OutOfMemory) => return Err(AllocError),
    };
    Ok((col, rule, scope.aliases.len(), scope.tests.len()))
}

/// Each row is a guard, the column and the rule of its first fault, and the aliases and tests behind it.
type Row<'a> = (&'a [Part<'a>], (u32, u8, usize, usize));

fn holds(alloc: Global, rows: &[Row<'_>]) -> Result<usize, AllocError> {
    for (i, (list, want)) in rows.iter().enumerate() {
        if outcome(alloc, list)? != *want {
            return Ok(i);
        }
    }
    Ok(rows.len())
}

const ATOMS: [Row<'static>; 14] = [
    (&[Truth], (0, 0, 0, 0)),
    (&[Flag(&["t"])], (0, 0, 0, 0)),
    (&[Flag(&["n"])], (1, 19, 0, 0)),
    (&[Flag(&["y"])], (1, 13, 0, 0)),
    (&[Flag(&["e", "y"])], (1, 14, 0, 0)),
    (&[Less(&["e", "p"], 1)], (1, 14, 0, 0)),
    (&[Less(&["n"], 1)], (0, 0, 0, 0)),
    (&[Less(&["n"], 2_147_483_648)], (1, 21, 0, 0)),
    (&[Less(&["t"], 1)], (1, 18, 0, 0)),
    (&[Null(&["n"])], (1, 17, 0, 0)),
    (&[Is(&["n"], "P")], (1, 15, 0, 0)),
    (&[Is(&["this"], "A")], (1, 15, 0, 0)),
    (&[Is(&["e"], "A")], (1, 16, 0, 0)),
    (&[Is(&["e"], "Io")], (1, 2, 0, 0)),
];

const SCOPES: [Row<'static>; 14] = [
    // A test narrows what stands to its right in a conjunction.
    (&[Is(&["e"], "Q"), Less(&["e", "v"], 1), And], (0, 0, 0, 1)),
    (
        &[Is(&["e", "l"], "Q"), Less(&["e", "l", "v"], 1), And],
        (0, 0, 0, 1),
    ),
    (&[Is(&["e"], "Q"), Less(&["e", "v"], 1), Or], (2, 14, 0, 0)),
    (
        &[Is(&["e"], "Q"), Not, Less(&["e", "v"], 1), And],
        (3, 14, 0, 0),
    ),
    (&[Is(&["e"], "I"), Less(&["e", "v"], 1), And], (2, 14, 0, 0)),
    // The last test counts.
    (
        &[
            Is(&["e"], "Q"),
            Is(&["e"], "P"),
            And,
            Less(&["e", "v"], 1),
            And,
        ],
        (4, 14, 0, 2),
    ),
    // An alias stands for its path from there on.
    (
        &[IsAs(&["e"], "Q", "q"), Less(&["q", "v"], 1), And],
        (0, 0, 1, 1),
    ),
    (
        &[Less(&["q", "v"], 1), IsAs(&["e"], "Q", "q"), And],
        (1, 13, 1, 1),
    ),
    (
        &[As(&["e", "l"], "k"), Null(&["k", "l"]), And],
        (0, 0, 1, 0),
    ),
    (&[As(&["e"], "e")], (1, 12, 1, 0)),
    (&[As(&["this"], "k"), Is(&["k"], "A"), And], (2, 15, 1, 0)),
    // Between an alias and the whole guard there is nothing but `&&`.
    (&[As(&["e"], "k"), Flag(&["t"]), Or], (1, 20, 1, 0)),
    (&[As(&["e"], "k"), Not], (1, 20, 1, 0)),
    // Behind an alias of a path with a fault nothing is known.
    (&[As(&["y"], "k"), Less(&["k", "y"], 1), And], (1, 13, 1, 0)),
];

#[test]
fn atoms_have_their_rules(rt: HostRuntime) -> Result<(), Fail> {
    let alloc = rt.alloc();
    assert_eq!(rt; holds(alloc, &ATOMS)?, ATOMS.len());
    Ok(())
}

#[test]
fn tests_and_aliases_reach_to_the_right(rt: HostRuntime) -> Result<(), Fail> {
    let alloc = rt.alloc();
    assert_eq!(rt; holds(alloc, &SCOPES)?, SCOPES.len());
    Ok(())
}
