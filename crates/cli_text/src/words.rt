//! The command line's words.

ghost use Rattle.std.specs.Prelude.{map, string_bytes, IfSome, IfNone, IsTrue, ◌↔◌};
ghost use Rattle.cli_text.specs.Words.{Request, IsRequest, IsUnitName, request_of};

use jp_lexical::is_name;

/// What the command line asks for, `go M U`: to build the unit named U and run the `main` of the class named M.
#[derive(Clone, Copy, Debug, PartialEq, Eq)]
pub struct Command<'a> {
    pub main: &'a str,
    pub unit: &'a str,
}

/// What the words behind the program's name ask for, or `None` where they ask for nothing that
/// the program can do. It takes no memory.
pub fn read_words(words: &[String]) -> Option<Command<'_>>
    ensures found { IfSome result (λ command. IsRequest (map string_bytes words.now) (request_of command)) }
    ensures none { IfNone result ((request : Request) → IsRequest (map string_bytes words.now) request → ⊥) }
{
    let [command, main, unit] = words else {
        return None;
    };
    let main = main.as_str();
    let unit = unit.as_str();
    if command.as_str() == "go" && is_name(main.as_bytes()) && is_unit_name(unit) {
        Some(Command { main, unit })
    } else {
        None
    }
}

/// Whether the text is the name of a unit's file: 4 to 255 bytes that end in `.jp`.
fn is_unit_name(text: &str) -> bool
    ensures { IsTrue result ↔ IsUnitName text.now }
{
    text.len() >= 4 && text.len() <= 255 && text.ends_with(".jp")
}
