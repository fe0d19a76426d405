ghost use Rattle.std.specs.Prelude.{◌≡◌, ℕ, ◌-◌, ◌^◌, min, [], ◌∷◌};
ghost use Rattle.unit_limits.specs.Counting.{most, counted, first_told};

/// What of a unit is held to a number.
#[derive(Clone, Copy, Debug, PartialEq, Eq)]
pub enum Limit {
    /// The bytes of the unit's file.
    UnitBytes,
    /// The bytes of a text literal's value.
    Text,
    /// The parameters of a member.
    Parameters,
    /// The aliases of a member's guard.
    Aliases,
    /// The receiver of a member, its parameters, its aliases and all the locals that it declares.
    Locals,
    /// The statements and expressions of a member, with the arguments of `super(..)`.
    BodyNodes,
    /// The members of a class or an interface, with their body nodes and the nodes of their guards.
    ClassNodes,
}

/// A count that passes its limit. A count above the greatest `u64` is given as that number.
#[derive(Clone, Copy, Debug, PartialEq, Eq)]
pub struct TooLarge {
    pub limit: Limit,
    pub count: u64,
}

/// The greatest count within the limit.
pub fn most(limit: Limit) -> u64
    ensures { result ≡ most limit }
{
    match limit {
        Limit::UnitBytes => 4_194_304,
        Limit::Text => 1_000,
        Limit::Parameters | Limit::Aliases => 8,
        Limit::Locals => 200,
        Limit::BodyNodes => 1_200,
        Limit::ClassNodes => 8_000,
    }
}

/// The count of a unit's bytes, where it passes its limit; this can be asked before the unit is read.
pub fn unit_bytes_over(bytes: usize) -> Option<TooLarge>
    ensures { result ≡ first_told (counted Limit.UnitBytes bytes ∷ []) }
{
    over(Limit::UnitBytes, bytes as u64)
}

/// The count, where it passes its limit. One above the greatest `u64` comes as that number.
#[tactic(auto, using(crate::proofs::Firsts::one_over, crate::proofs::Firsts::one_within))]
pub(crate) fn over(limit: Limit, count: u64) -> Option<TooLarge>
    ensures { (n : ℕ) → min n (2 ^ 64 - 1) ≡ count → result ≡ first_told (counted limit n ∷ []) }
{
    if count > most(limit) {
        Some(TooLarge { limit, count })
    } else {
        None
    }
}
