ghost use Rattle.jp_meaning.specs.Laws.{MeaningIsOne, MoreTicksAgree};

/// With one tick more a program means the same, or, where it ended for want of a tick, its output goes on.
pub fn more_ticks_agree()
    ensures { MoreTicksAgree }
{}

/// A program has one meaning: it doesn't depend on how the selected bodies are found.
pub fn meaning_is_one()
    ensures { MeaningIsOne }
{}
