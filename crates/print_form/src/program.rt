ghost use Rattle.std.specs.Prelude.{◌≡◌, ℕ, List, map, IfOk};
ghost use Rattle.jp_ast.specs.declared.decl.SourceUnit.{SourceUnit};
ghost use Rattle.print_form.specs.declared.literal.Literal.{Literal};
ghost use Rattle.print_form.specs.Form.{IsProgram, value_of};
ghost use Rattle.print_form.specs.Deciding.{Decides};

use crate::NoProgram;
use crate::class::class_numbers;
use jp_ast::{Place, SourceUnit};
use std::alloc::Global;

/// The numbers, in order, that the unit prints as the program of the class with this name. `NotYet` comes exactly where
/// the unit is no program of that class in the form that can be run so far.
pub fn print_program(alloc: Global, main: &[u8], unit: &SourceUnit) -> Result<Vec<i32>, NoProgram>
    // What is answered are the numbers of a program, or there is none.
    ensures decides { Decides (λ literals. IsProgram main.now literals unit.now) result }

    // Whatever literals the unit is the program of, these are their numbers.
    ensures only { IfOk result (λ numbers. (literals : List Literal) → IsProgram main.now literals unit.now → numbers.items ≡ map value_of literals) }
{
    let [class, others @ ..] = unit.decls.as_slice() else {
        return Err(NoProgram::NotYet(Place { line: 1, col: 1 }));
    };
    let numbers = class_numbers(alloc, main, class)?;
    match others.first() {
        Some(other) => Err(NoProgram::NotYet(other.place)),
        None => Ok(numbers),
    }
}

/// A unit is the program of at most one list of literals.
pub fn one_program()
    ensures { (main : List ℕ) (unit : SourceUnit) (first second : List Literal) → IsProgram main first unit → IsProgram main second unit → first ≡ second }
{}
