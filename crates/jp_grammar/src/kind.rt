ghost use Rattle.std.specs.Prelude.{◌≡◌, map};
ghost use Rattle.jp_grammar.specs.Kinds.{kind_in, kind_of_token, row_of};

use jp_ast::{Lexeme, Token};

/// What the grammar knows of a token besides its value.
#[derive(Clone, Copy, Debug, PartialEq, Eq)]
pub enum Kind {
    /// A word that isn't reserved.
    Name,
    Number,
    Text,
    /// A sign, numbered as in `Lexeme::Sign`.
    Sign(u8),
    /// The end of the text.
    End,
    /// A word that is reserved, but has no use in the language.
    Outside,
    Abstract,
    As,
    Boolean,
    Break,
    Class,
    Continue,
    Else,
    Extends,
    False,
    Final,
    For,
    If,
    Implements,
    InstanceOf,
    Int,
    Interface,
    New,
    Null,
    Private,
    Public,
    Return,
    Static,
    Super,
    This,
    True,
    Void,
    When,
    While,
}

/// The reserved words with their kinds.
pub const RESERVED: [(&str, Kind); 55] = [
    ("abstract", Kind::Abstract),
    ("as", Kind::As),
    ("boolean", Kind::Boolean),
    ("break", Kind::Break),
    ("class", Kind::Class),
    ("continue", Kind::Continue),
    ("else", Kind::Else),
    ("extends", Kind::Extends),
    ("false", Kind::False),
    ("final", Kind::Final),
    ("for", Kind::For),
    ("if", Kind::If),
    ("implements", Kind::Implements),
    ("instanceof", Kind::InstanceOf),
    ("int", Kind::Int),
    ("interface", Kind::Interface),
    ("new", Kind::New),
    ("null", Kind::Null),
    ("private", Kind::Private),
    ("public", Kind::Public),
    ("return", Kind::Return),
    ("static", Kind::Static),
    ("super", Kind::Super),
    ("this", Kind::This),
    ("true", Kind::True),
    ("void", Kind::Void),
    ("when", Kind::When),
    ("while", Kind::While),
    ("assert", Kind::Outside),
    ("byte", Kind::Outside),
    ("case", Kind::Outside),
    ("catch", Kind::Outside),
    ("char", Kind::Outside),
    ("const", Kind::Outside),
    ("default", Kind::Outside),
    ("do", Kind::Outside),
    ("double", Kind::Outside),
    ("enum", Kind::Outside),
    ("finally", Kind::Outside),
    ("float", Kind::Outside),
    ("goto", Kind::Outside),
    ("import", Kind::Outside),
    ("long", Kind::Outside),
    ("native", Kind::Outside),
    ("package", Kind::Outside),
    ("protected", Kind::Outside),
    ("short", Kind::Outside),
    ("strictfp", Kind::Outside),
    ("switch", Kind::Outside),
    ("synchronized", Kind::Outside),
    ("throw", Kind::Outside),
    ("throws", Kind::Outside),
    ("transient", Kind::Outside),
    ("try", Kind::Outside),
    ("volatile", Kind::Outside),
];

/// The token's kind.
pub fn kind_of(token: &Token) -> Kind
    ensures { result ≡ kind_of_token token.now }
{
    match &token.lexeme {
        Lexeme::Word(word) => kind_in(&RESERVED, word.bytes()),
        Lexeme::Number { .. } => Kind::Number,
        Lexeme::Text(_) => Kind::Text,
        Lexeme::Sign(sign) => Kind::Sign(*sign),
        Lexeme::End => Kind::End,
    }
}

/// The kind that the table gives for the word, or `Name` where the word isn't in it.
fn kind_in(table: &[(&str, Kind)], word: &[u8]) -> Kind
    ensures { result ≡ kind_in (map row_of table.now) word.now }
{
    for entry in table {
        if entry.0.as_bytes() == word {
            return entry.1;
        }
    }
    Kind::Name
}
