ghost use Rattle.whole_classes.specs.Laws.{WholeCallsFindBodies};

/// Where each concrete class has a body for each of its families, a call of a declared family on an object of one of the
/// classes has a body in its chain.
pub fn whole_calls_find_bodies()
    ensures { WholeCallsFindBodies }
{}
