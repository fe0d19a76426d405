ghost use Rattle.std.specs.Prelude.{◌≡◌, IfOk};
ghost use Rattle.jp_print.specs.Declarations.{printed_unit};
ghost use Rattle.jp_print.specs.ReadsBack.{IsOfGrammar, ReadsBack};

use crate::decls::put_decl;
use jp_ast::SourceUnit;
use std::alloc::{AllocError, Global};

/// The unit as a text.
///
/// One space stands between two tokens of a line, and a line ends behind each `{`, `}` and `;`. There is no `public`,
/// and `abstract` stands at classes and at abstract methods of classes alone. In parentheses stand operands, parts of
/// `?:`, what is changed, and expressions that are statements, where they are no primary and no postfix form; parts of
/// guards, where they are no atoms; and a created array directly in front of `[`. A hexadecimal number has lower-case
/// digits without leading zeros, and a factor stands in front of its path.
///
/// A unit that the grammar gives for some tokens of the lexical forms reads back as the same unit, places aside.
pub fn print(alloc: Global, unit: &SourceUnit) -> Result<Vec<u8>, AllocError>
    ensures exact { IfOk result (λ text. text.items ≡ printed_unit unit.now) }
    ensures reads_back { IfOk result (λ text. IsOfGrammar unit.now → ReadsBack text.items unit.now) }
{
    let mut text = Vec::new(alloc);
    for decl in unit.decls.as_slice() {
        put_decl(&mut text, decl)?;
    }
    Ok(text)
}
