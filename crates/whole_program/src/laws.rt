ghost use Rattle.whole_program.specs.Laws.{RightKeepsTheMeaning};
ghost use Rattle.whole_program.specs.Found.{OwnMethodIsRun};
ghost use Rattle.whole_program.specs.Headline.{Headline, OutputBegins, EnoughInstructions};

/// Class files that are right part by part do together what the program means.
pub fn right_keeps_the_meaning()
    ensures { RightKeepsTheMeaning }
{}

/// What a run of the machine says of the meaning.
pub fn headline()
    ensures { Headline }
{}

/// What a run of the machine has written is a front part of what the program means.
pub fn output_begins()
    ensures { OutputBegins }
{}

/// How many instructions are enough for what the program means.
pub fn enough_instructions()
    ensures { EnoughInstructions }
{}

/// Which calls run a method that is a file's own.
pub fn own_method_is_run()
    ensures { OwnMethodIsRun }
{}
