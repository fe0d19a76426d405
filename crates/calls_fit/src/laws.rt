ghost use Rattle.calls_fit.specs.Laws.{CallsOfFittingPrograms};

/// Each call of a program whose trees fit is given what it is declared with.
pub fn calls_fit()
    ensures { CallsOfFittingPrograms }
{}
