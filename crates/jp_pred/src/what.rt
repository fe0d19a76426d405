/// What is counted against a limit.
#[derive(Clone, Copy, Debug, PartialEq, Eq)]
pub enum What {
    /// Bytes of the unit file.
    UnitBytes,
    /// Bytes of a text literal's value.
    Text,
    /// Parameters of a member.
    Parameters,
    /// Aliases of a guard.
    Aliases,
    /// The receiver, parameters, aliases and declared locals of a member.
    Locals,
    /// Statements and expressions of a member's body.
    BodyNodes,
    /// Members of a class, with their body nodes and guard nodes.
    ClassNodes,
    /// Summands of a comparison.
    Terms,
    /// The size of a written coefficient.
    Coefficient,
    /// Steps of a path, with aliases expanded.
    Steps,
    /// Encoded interfaces of the unit and its closure together.
    IfaceBytes,
    /// Bodies of the chains of the dispatchers that a class writes, and the atoms of each of these bodies.
    Dispatch,
    /// Bodies of a family's chain.
    Bodies,
    /// Nodes of the normal guards of a chain.
    GuardNodes,
    /// Atoms of a chain's guards with their tests of definedness.
    Atoms,
    /// Integer and boolean paths of a chain.
    IntPaths,
}
