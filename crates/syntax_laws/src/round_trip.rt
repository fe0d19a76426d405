ghost use Rattle.std.specs.Prelude.{◌≡◌, MatchResult};
ghost use Rattle.jp_print.specs.Places.{unplaced_unit};
ghost use Rattle.jp_print.specs.ReadsBack.{IsOfGrammar};
ghost use Rattle.jp_read.specs.declared.fault.ReadFault.TheVariants.{OutOfMemory};

use jp_ast::SourceUnit;
use jp_print::print;
use jp_read::{ReadFault, read};
use std::alloc::Global;

/// A unit that the grammar gives for some tokens of the lexical forms, places aside, printed and read again: the same
/// unit, places aside, unless memory runs out.
pub fn printed_and_read(alloc: Global, unit: &SourceUnit) -> Result<SourceUnit, ReadFault>
    requires { IsOfGrammar unit.now }
    ensures { MatchResult result (λ again. unplaced_unit again ≡ unplaced_unit unit.now) (λ why. why ≡ OutOfMemory) }
{
    match print(alloc, unit) {
        Ok(text) => read(alloc, &text),
        Err(_) => Err(ReadFault::OutOfMemory),
    }
}
