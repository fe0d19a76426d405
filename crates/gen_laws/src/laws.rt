ghost use Rattle.gen_laws.specs.Laws.{CompiledRunsMember, FittingKeepsReceiver, UnguardedSelectsNearest, CompiledIsRight, CompiledKeepsTheMeaning};

/// A call that finds the method of a member runs the member.
pub fn compiled_runs_member()
    ensures { CompiledRunsMember }
{}

/// The code of a member that fits leaves its receiver alone.
pub fn fitting_keeps_receiver()
    ensures { FittingKeepsReceiver }
{}

/// Where no body has a guard, the first body of a chain is the one that is selected.
pub fn unguarded_selects_nearest()
    ensures { UnguardedSelectsNearest }
{}

/// Files that are compiled class by class are right, where the nearest body is the one that is selected.
pub fn compiled_is_right()
    ensures { CompiledIsRight }
{}

/// Files that are compiled class by class do what the program means.
pub fn compiled_keeps_the_meaning()
    ensures { CompiledKeepsTheMeaning }
{}
