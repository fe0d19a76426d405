ghost use Rattle.std.specs.Prelude.{◌≡◌, None, true, not};
ghost use Rattle.type_rules.specs.Table.{fault_if};
ghost use Rattle.type_rules.specs.Typing.{earlier, pick, precedes};

use jp_ast::Place;
use type_rules::TypeFault;

/// The first fault so far, by its place and then by its rule.
#[derive(Clone, Copy, Debug, PartialEq, Eq)]
pub struct First {
    pub fault: Option<TypeFault>,
}

impl First {
    /// No fault so far.
    pub fn none() -> First
        ensures { result.fault ≡ None }
    {
        First { fault: None }
    }

    /// Takes in a fault of that rule at the place, where the rule is broken. Whether it isn't.
    pub fn add_if(&mut self, place: Place, rule: u8, broken: bool) -> bool
        ensures first { self.new.fault ≡ earlier self.old.fault (fault_if place rule broken) }
        ensures kept { result ≡ not broken }
    {
        if broken {
            self.add(place, rule);
        }
        !broken
    }

    /// Takes in a fault of that rule at the place.
    pub fn add(&mut self, place: Place, rule: u8)
        ensures { self.new.fault ≡ earlier self.old.fault (fault_if place rule true) }
    {
        self.fault = Some(pick(self.fault, TypeFault { place, rule }));
    }
}

/// The earlier of the two.
fn pick(best: Option<TypeFault>, fault: TypeFault) -> TypeFault
    ensures { result ≡ pick best fault }
{
    match best {
        Some(best) if !precedes(&fault, &best) => best,
        _ => fault,
    }
}

fn precedes(first: &TypeFault, second: &TypeFault) -> bool
    ensures { result ≡ precedes first.now second.now }
{
    let (p, q) = (first.place, second.place);
    let is_before = p.line < q.line || (p.line == q.line && p.col < q.col);
    is_before || (p.line == q.line && p.col == q.col && first.rule < second.rule)
}
