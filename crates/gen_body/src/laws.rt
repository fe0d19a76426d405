ghost use Rattle.gen_body.specs.Correct.{CompiledHasOpenTraces};
ghost use Rattle.gen_body.specs.Names.{SignaturesReadBack};

/// Code in which a member's items stand has the member's open traces.
pub fn compiled_has_open_traces()
    ensures { CompiledHasOpenTraces }
{}

/// The descriptor of a method whose types have names without a `;` says its parameters and its result.
pub fn signatures_read_back()
    ensures { SignaturesReadBack }
{}
