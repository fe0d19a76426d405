ghost use Rattle.code_trace.specs.Laws.{WhatFollowsHasTraces};

/// Code that does what an evaluation does has its open traces.
pub fn what_follows_has_traces()
    ensures { WhatFollowsHasTraces }
{}
