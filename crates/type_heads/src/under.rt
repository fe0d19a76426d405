ghost use Rattle.std.specs.Prelude.{◌≡◌, ◌↔◌, ◌≤◌, ◌<◌, IsTrue, length, false, map, Some, ℕ, List, IfSome};
ghost use Rattle.std.specs.List.{list_any};
ghost use Rattle.jp_pred.specs.Names.{In};
ghost use Rattle.jp_pred.specs.Hierarchy.{Ascends, reaches};
ghost use Rattle.jp_pred.specs.Marks.{place, is_marked, unmarked, Grows, Done, Closed};
ghost use Rattle.iface_codec.specs.Hierarchy.{seen_class, hier_of};
ghost use Rattle.type_rules.specs.Heads.{is_under, are_related};

use crate::heads::head_of;
use iface_codec::Iface;
use jp_pred::Name;

/// The classes that the marks of a search are enough for, of a small unit and of any.
const FEW: usize = 1024;

const MOST: usize = 65_536;

/// Whether `lower` is `upper` or has it as a supertype, also where there is a cycle. Object is above every class and
/// interface. Of at most 65,536 heads each is visited at most once.
pub fn is_under(heads: &[Iface], lower: &Name, upper: &Name) -> bool
    ensures { result ≡ is_under heads.now lower.now upper.now }
{
    upper.bytes() == b"Object".as_slice() || ascends(heads, lower, upper)
}

/// Whether one of the two is below the other.
pub fn are_related(heads: &[Iface], first: &Name, second: &Name) -> bool
    ensures { result ≡ are_related heads.now first.now second.now }
{
    is_under(heads, first, second) || is_under(heads, second, first)
}

/// Whether `upper` is reached from `lower`, within as many steps as there are heads.
pub fn ascends(heads: &[Iface], lower: &Name, upper: &Name) -> bool
    ensures { result ≡ reaches (length heads.now) (hier_of heads.now) lower.now upper.now }
{
    if heads.len() <= FEW {
        ascends_few(heads, lower, upper)
    } else if heads.len() <= MOST {
        ascends_many(heads, lower, upper)
    } else {
        within(heads, lower, upper, heads.len())
    }
}

fn ascends_few(heads: &[Iface], lower: &Name, upper: &Name) -> bool
    requires { length heads.now ≤ 1024 }
    ensures { result ≡ reaches (length heads.now) (hier_of heads.now) lower.now upper.now }
{
    let mut marks = [false; FEW];
    let count = heads.len();
    from_blank(heads, &mut marks[..count], lower, upper)
}

/// Not inlined, so that small units don't pay for these marks.
#[inline(never)]
fn ascends_many(heads: &[Iface], lower: &Name, upper: &Name) -> bool
    requires { length heads.now ≤ 65536 }
    ensures { result ≡ reaches (length heads.now) (hier_of heads.now) lower.now upper.now }
{
    let mut marks = [false; MOST];
    let count = heads.len();
    from_blank(heads, &mut marks[..count], lower, upper)
}

fn from_blank(heads: &[Iface], marks: &mut [bool], lower: &Name, upper: &Name) -> bool
    requires length { length marks.old ≡ length heads.now }
    requires blank { (i : ℕ) → is_marked marks.old i ≡ false }
    ensures { result ≡ reaches (length heads.now) (hier_of heads.now) lower.now upper.now }
{
    visit(heads, marks, lower, upper)
}

/// Looks for `upper` from `name` upwards, through heads without a mark alone, and marks what it looks at.
#[cycle(visit)]
fn visit(heads: &[Iface], marks: &mut [bool], name: &Name, upper: &Name) -> bool
    requires { length marks.old ≡ length heads.now }
    ensures found { IsTrue result → Ascends (hier_of heads.now) name.now upper.now }
    ensures grows { Grows marks.old marks.new }
    ensures less { unmarked marks.new ≤ unmarked marks.old }
    ensures closed { result ≡ false → Closed (hier_of heads.now) upper.now marks.old marks.new }
    ensures done { result ≡ false → Done (hier_of heads.now) upper.now marks.new name.now }
{
    if name == upper {
        return true;
    }
    let Some(at) = place(heads, name) else {
        return false;
    };
    if marks[at] {
        return false;
    }
    marks[at] = true;
    let head = &heads[at];
    if visit_superclass(heads, marks, &head.superclass, upper) {
        return true;
    }
    visit_all(heads, marks, head.interfaces.as_slice(), upper)
}

#[cycle(visit)]
fn visit_superclass(
    heads: &[Iface],
    marks: &mut [bool],
    superclass: &Option<Name>,
    upper: &Name,
) -> bool
    requires { length marks.old ≡ length heads.now }
    ensures found { IsTrue result → (p : List ℕ) × (superclass.now ≡ Some p) × Ascends (hier_of heads.now) p upper.now }
    ensures grows { Grows marks.old marks.new }
    ensures less { unmarked marks.new ≤ unmarked marks.old }
    ensures closed { result ≡ false → Closed (hier_of heads.now) upper.now marks.old marks.new }
    ensures done { result ≡ false → (p : List ℕ) → superclass.now ≡ Some p → Done (hier_of heads.now) upper.now marks.new p }
{
    match superclass {
        Some(name) => visit(heads, marks, name, upper),
        None => false,
    }
}

#[cycle(visit)]
fn visit_all(heads: &[Iface], marks: &mut [bool], names: &[Name], upper: &Name) -> bool
    requires { length marks.old ≡ length heads.now }
    ensures found { IsTrue result → (p : List ℕ) × In p names.now × Ascends (hier_of heads.now) p upper.now }
    ensures grows { Grows marks.old marks.new }
    ensures less { unmarked marks.new ≤ unmarked marks.old }
    ensures closed { result ≡ false → Closed (hier_of heads.now) upper.now marks.old marks.new }
    ensures done { result ≡ false → (p : List ℕ) → In p names.now → Done (hier_of heads.now) upper.now marks.new p }
{
    for name in names {
        if visit(heads, marks, name, upper) {
            return true;
        }
    }
    false
}

fn place(heads: &[Iface], name: &Name) -> Option<usize>
    ensures place { result ≡ place name.now (map seen_class heads.now) }
    ensures within { IfSome result (λ i. i < length heads.now) }
{
    for (i, head) in heads.iter().enumerate() {
        if head.name == *name {
            return Some(i);
        }
    }
    None
}

/// Looks for `upper` at most `rounds` steps above `lower`, without marks.
#[tactic(auto, using(crate::proofs::Search::named_head))]
#[cycle(within)]
fn within(heads: &[Iface], lower: &Name, upper: &Name, rounds: usize) -> bool
    ensures { result ≡ reaches rounds (hier_of heads.now) lower.now upper.now }
{
    if lower == upper {
        return true;
    }
    if rounds == 0 {
        return false;
    }
    let Some(head) = head_of(heads, lower) else {
        return false;
    };
    if let Some(superclass) = &head.superclass {
        if within(heads, superclass, upper, rounds - 1) {
            return true;
        }
    }
    any_within(heads, head.interfaces.as_slice(), upper, rounds - 1)
}

#[cycle(within)]
fn any_within(heads: &[Iface], names: &[Name], upper: &Name, rounds: usize) -> bool
    ensures { result ≡ list_any (λ p. reaches rounds (hier_of heads.now) p upper.now) names.now }
{
    for name in names {
        if within(heads, name, upper, rounds) {
            return true;
        }
    }
    false
}
