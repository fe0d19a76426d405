ghost use Rattle.unit_laws.specs.Laws.{ReadMethodsAreOrdinary, UnitIsNamed, UnitIsUniverse, ReadKeepsTheMeaning};

/// No method of a unit that is read from a text is called as constructors are in class files.
pub fn read_methods_are_ordinary()
    ensures { ReadMethodsAreOrdinary }
{}

/// The names of a unit without a fault are as its class files need them.
pub fn unit_is_named()
    ensures { UnitIsNamed }
{}

/// The classes of a unit without a fault are a universe.
pub fn unit_is_universe()
    ensures { UnitIsUniverse }
{}

/// Class files that are compiled class by class from a unit that was read do what it means.
pub fn read_keeps_the_meaning()
    ensures { ReadKeepsTheMeaning }
{}
