ghost use Rattle.jp_grammar.specs.Faults.{Parses};
ghost use Rattle.jp_grammar.specs.Reading.{IsText};
ghost use Rattle.std.specs.Prelude.{IfOk};
ghost use Rattle.jp_parse_decl.specs.Answers.{Gathers};

use crate::heads::declaration;
use jp_ast::{Decl, SourceUnit, Token};
use jp_grammar::{Kind, ParseFault, front, kind_of};
use sqlite_items::Items;
use std::alloc::Global;

/// The unit that the tokens are. The last token, and no other, is `End`.
///
/// It is `Unexpected` where no unit goes on with a token, `Outside` where that token is a word without use in the
/// language, and `TooDeep` where only units with a tree more than 200 deep go on with it; the place is that of the
/// first such token. It is `OutOfMemory` where memory is wanting.
pub fn parse(alloc: Global, tokens: &[Token]) -> Result<SourceUnit, ParseFault>
    requires { IsText tokens.now }
    ensures { Parses tokens.now result }
{
    let decls = declarations(alloc, tokens)?;
    Ok(SourceUnit { decls })
}

/// One declaration or more, up to the end of the text.
fn declarations(alloc: Global, tokens: &[Token]) -> Result<Items<Decl>, ParseFault>
    requires { IsText tokens.now }
    ensures { Gathers tokens.now result }
{
    let mut decls = Items::new(alloc);
    let mut left = tokens;
    'list: loop {
        let (decl, behind) = declaration(alloc, left)?;
        decls.push(decl)?;
        left = behind;
        let (next, _) = front(left);
        if kind_of(next) == Kind::End {
            return Ok(decls);
        }
    }
}
