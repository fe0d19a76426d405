ghost use Rattle.plain_choice.specs.Laws.{NearestIsBest, NearestSelects};

/// In a unit of the plain form selection says the first body of each chain, and none where a chain is empty.
pub fn nearest_is_best()
    ensures { NearestIsBest }
{}

/// So a program of such a unit may select the nearest.
pub fn nearest_selects()
    ensures { NearestSelects }
{}
