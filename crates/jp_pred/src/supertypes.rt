ghost use Rattle.std.specs.Prelude.{◌≡◌, ◌↔◌, ◌≤◌, ◌<◌, IsTrue, length, false, Some, ℕ, List, IfSome};
ghost use Rattle.std.specs.Option.{option_copied};
ghost use Rattle.std.specs.List.{list_any};
ghost use Rattle.jp_pred.specs.Names.{In};
ghost use Rattle.jp_pred.specs.Hierarchy.{class_named, Ascends, IsBelow, named, SomeAscends, IsAboveItself, HasNoCycle, reaches, is_below};
ghost use Rattle.jp_pred.specs.Marks.{place, is_marked, unmarked, Grows, Done, Closed};

use crate::hier::{Hier, SeenClass};
use crate::name::Name;

/// The classes that the marks of a search are enough for, of a small hierarchy and of any.
const FEW: usize = 1024;

const MOST: usize = 65_536;

/// Whether `lower` is `upper` or has it as a supertype. Object is above every class and interface. In a
/// hierarchy of at most 65,536 classes each class is visited at most once.
pub fn below(hier: &Hier, lower: &Name, upper: &Name) -> bool
    requires { HasNoCycle hier.now }
    ensures exact { IsTrue result ↔ IsBelow hier.now lower.now upper.now }
    ensures computed { result ≡ is_below hier.now lower.now upper.now }
{
    upper.bytes() == b"Object".as_slice() || ascends(hier, lower.bytes(), upper.bytes())
}

/// Whether no class is its own proper supertype; false of a hierarchy of more than 65,536 classes.
pub fn has_no_cycle(hier: &Hier) -> bool
    ensures sound { IsTrue result → HasNoCycle hier.now }
    ensures exact { length hier.now.classes ≤ 65536 → HasNoCycle hier.now → IsTrue result }
{
    if hier.classes.len() > MOST {
        return false;
    }
    for class in hier.classes.as_slice() {
        if is_above_itself(hier, class.name.bytes()) {
            return false;
        }
    }
    true
}

fn is_above_itself(hier: &Hier, name: &[u8]) -> bool
    requires { length hier.now.classes ≤ 65536 }
    ensures { IsTrue result ↔ IsAboveItself hier.now name.now }
{
    match class_named(hier.classes.as_slice(), name) {
        Some(class) => names_under(hier, class, name),
        None => false,
    }
}

fn names_under(hier: &Hier, class: &SeenClass, upper: &[u8]) -> bool
    requires { length hier.now.classes ≤ 65536 }
    ensures { IsTrue result ↔ SomeAscends hier.now (named class.now) upper.now }
{
    match &class.superclass {
        Some(superclass) => {
            is_under(hier, superclass.bytes(), upper)
                || any_is_under(hier, class.interfaces.as_slice(), upper)
        }
        None => any_is_under(hier, class.interfaces.as_slice(), upper),
    }
}

fn any_is_under(hier: &Hier, names: &[Name], upper: &[u8]) -> bool
    requires { length hier.now.classes ≤ 65536 }
    ensures { IsTrue result ↔ SomeAscends hier.now names.now upper.now }
{
    for name in names {
        if is_under(hier, name.bytes(), upper) {
            return true;
        }
    }
    false
}

fn ascends(hier: &Hier, lower: &[u8], upper: &[u8]) -> bool
    requires { HasNoCycle hier.now }
    ensures { result ≡ reaches (length hier.now.classes) hier.now lower.now upper.now }
{
    if hier.classes.len() <= MOST {
        is_under(hier, lower, upper)
    } else {
        within(hier, lower, upper, hier.classes.len())
    }
}

/// The search with marks.
fn is_under(hier: &Hier, lower: &[u8], upper: &[u8]) -> bool
    requires { length hier.now.classes ≤ 65536 }
    ensures { IsTrue result ↔ Ascends hier.now lower.now upper.now }
{
    if hier.classes.len() <= FEW {
        is_under_few(hier, lower, upper)
    } else {
        is_under_many(hier, lower, upper)
    }
}

fn is_under_few(hier: &Hier, lower: &[u8], upper: &[u8]) -> bool
    requires { length hier.now.classes ≤ 1024 }
    ensures { IsTrue result ↔ Ascends hier.now lower.now upper.now }
{
    let mut marks = [false; FEW];
    let count = hier.classes.len();
    from_blank(hier, &mut marks[..count], lower, upper)
}

/// Not inlined, so that small hierarchies don't pay for these marks.
#[inline(never)]
fn is_under_many(hier: &Hier, lower: &[u8], upper: &[u8]) -> bool
    requires { length hier.now.classes ≤ 65536 }
    ensures { IsTrue result ↔ Ascends hier.now lower.now upper.now }
{
    let mut marks = [false; MOST];
    let count = hier.classes.len();
    from_blank(hier, &mut marks[..count], lower, upper)
}

fn from_blank(hier: &Hier, marks: &mut [bool], lower: &[u8], upper: &[u8]) -> bool
    requires length { length marks.old ≡ length hier.now.classes }
    requires blank { (i : ℕ) → is_marked marks.old i ≡ false }
    ensures { IsTrue result ↔ Ascends hier.now lower.now upper.now }
{
    visit(hier, marks, lower, upper)
}

/// Looks for `upper` from `name` upwards, through classes without a mark alone, and marks what it looks at.
#[cycle(visit)]
fn visit(hier: &Hier, marks: &mut [bool], name: &[u8], upper: &[u8]) -> bool
    requires { length marks.old ≡ length hier.now.classes }
    ensures found { IsTrue result → Ascends hier.now name.now upper.now }
    ensures grows { Grows marks.old marks.new }
    ensures less { unmarked marks.new ≤ unmarked marks.old }
    ensures closed { result ≡ false → Closed hier.now upper.now marks.old marks.new }
    ensures done { result ≡ false → Done hier.now upper.now marks.new name.now }
{
    if name == upper {
        return true;
    }
    let Some(at) = place(hier.classes.as_slice(), name) else {
        return false;
    };
    if marks[at] {
        return false;
    }
    marks[at] = true;
    let class = &hier.classes.as_slice()[at];
    if visit_superclass(hier, marks, &class.superclass, upper) {
        return true;
    }
    visit_all(hier, marks, class.interfaces.as_slice(), upper)
}

#[cycle(visit)]
fn visit_superclass(
    hier: &Hier,
    marks: &mut [bool],
    superclass: &Option<Name>,
    upper: &[u8],
) -> bool
    requires { length marks.old ≡ length hier.now.classes }
    ensures found { IsTrue result → (p : List ℕ) × (superclass.now ≡ Some p) × Ascends hier.now p upper.now }
    ensures grows { Grows marks.old marks.new }
    ensures less { unmarked marks.new ≤ unmarked marks.old }
    ensures closed { result ≡ false → Closed hier.now upper.now marks.old marks.new }
    ensures done { result ≡ false → (p : List ℕ) → superclass.now ≡ Some p → Done hier.now upper.now marks.new p }
{
    match superclass {
        Some(name) => visit(hier, marks, name.bytes(), upper),
        None => false,
    }
}

#[cycle(visit)]
fn visit_all(hier: &Hier, marks: &mut [bool], names: &[Name], upper: &[u8]) -> bool
    requires { length marks.old ≡ length hier.now.classes }
    ensures found { IsTrue result → (p : List ℕ) × In p names.now × Ascends hier.now p upper.now }
    ensures grows { Grows marks.old marks.new }
    ensures less { unmarked marks.new ≤ unmarked marks.old }
    ensures closed { result ≡ false → Closed hier.now upper.now marks.old marks.new }
    ensures done { result ≡ false → (p : List ℕ) → In p names.now → Done hier.now upper.now marks.new p }
{
    for name in names {
        if visit(hier, marks, name.bytes(), upper) {
            return true;
        }
    }
    false
}

fn place(classes: &[SeenClass], name: &[u8]) -> Option<usize>
    ensures place { result ≡ place name.now classes.now }
    ensures within { IfSome result (λ i. i < length classes.now) }
{
    for (i, class) in classes.iter().enumerate() {
        if class.name.bytes() == name {
            return Some(i);
        }
    }
    None
}

/// Looks for `upper` at most `rounds` steps above `lower`, without marks.
#[cycle(within)]
fn within(hier: &Hier, lower: &[u8], upper: &[u8], rounds: usize) -> bool
    ensures { result ≡ reaches rounds hier.now lower.now upper.now }
{
    if lower == upper {
        return true;
    }
    if rounds == 0 {
        return false;
    }
    let Some(class) = class_named(hier.classes.as_slice(), lower) else {
        return false;
    };
    if let Some(superclass) = &class.superclass {
        if within(hier, superclass.bytes(), upper, rounds - 1) {
            return true;
        }
    }
    any_within(hier, class.interfaces.as_slice(), upper, rounds - 1)
}

#[cycle(within)]
fn any_within(hier: &Hier, names: &[Name], upper: &[u8], rounds: usize) -> bool
    ensures { result ≡ list_any (λ p. reaches rounds hier.now p upper.now) names.now }
{
    for name in names {
        if within(hier, name.bytes(), upper, rounds) {
            return true;
        }
    }
    false
}

/// The first class of that name.
pub fn class_named<'a>(classes: &'a [SeenClass], name: &[u8]) -> Option<&'a SeenClass>
    ensures { option_copied result ≡ class_named name.now classes.now }
{
    for class in classes {
        if class.name.bytes() == name {
            return Some(class);
        }
    }
    None
}
