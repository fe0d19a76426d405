ghost use Rattle.plain_runs.specs.Laws.{PlainHeadline, PlainOutputBegins, PlainEnough};

/// A run that ended by itself is the meaning's, and what a run that was cut has written begins the meaning's output.
pub fn plain_headline()
    ensures { PlainHeadline }
{}

/// What a run has written, at its end and at each state on the way, begins the output of the meaning.
pub fn plain_output_begins()
    ensures { PlainOutputBegins }
{}

/// How many instructions are enough for what the unit means.
pub fn plain_enough()
    ensures { PlainEnough }
{}
