use jp_ast::Place;
use type_rules::Role;

/// Where an expression stands, and in what role.
#[derive(Clone, Copy, Debug, PartialEq, Eq)]
pub struct Spot {
    pub place: Place,
    pub role: Role,
}
