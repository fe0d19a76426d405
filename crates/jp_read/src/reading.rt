ghost use Rattle.jp_read.specs.Reads.{Reads};

use crate::ReadFault;
use jp_ast::SourceUnit;
use jp_lexer::lex;
use jp_parse_decl::parse;
use std::alloc::Global;

/// The unit that the text is: the one that the grammar gives for the tokens of the text, with no tree more than 200
/// deep.
///
/// `ReadFault::Lex` comes exactly for a text that has a lexical fault, with its first one. `ReadFault::Parse` comes
/// exactly for a text that has tokens which are no such unit, with the first token, or the end of the text, with which
/// no such unit goes on: `Unexpected`, `Outside` where it is a word without use in the language, and `TooDeep` where a
/// unit with a deeper tree goes on with it. `ReadFault::OutOfMemory` comes where memory is wanting.
pub fn read(alloc: Global, text: &[u8]) -> Result<SourceUnit, ReadFault>
    ensures { Reads text.now result }
{
    let tokens = lex(alloc, text)?;
    Ok(parse(alloc, tokens.as_slice())?)
}
