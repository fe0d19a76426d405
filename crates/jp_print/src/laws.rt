ghost use Rattle.jp_print.specs.ReadsBack.{PrintedReadsBack, ReadReadsBack, PlacesAreNotPrinted};

/// For each unit that the grammar gives for some tokens of the lexical forms, places aside, what `print` writes has
/// tokens for which the grammar gives the unit again, places aside.
#[tactic(auto, using(crate::proofs::ReadBack::reads_back))]
pub fn printed_reads_back()
    ensures { PrintedReadsBack }
{}

/// What `print` writes of a unit that was read from a text reads back as the unit, places aside.
#[tactic(auto, using(crate::proofs::ReadBack::read_reads_back))]
pub fn read_reads_back()
    ensures { ReadReadsBack }
{}

/// Units that are the same, places aside, are printed as the same text.
#[tactic(auto, using(crate::proofs::ReadBack::printed_alike))]
pub fn places_are_not_printed()
    ensures { PlacesAreNotPrinted }
{}
