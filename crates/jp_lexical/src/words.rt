//! Names, and the words that are none.

ghost use Rattle.std.specs.Prelude.{◌≡◌, IsTrue, ◌↔◌, Contains};
ghost use Rattle.jp_lexical.specs.Characters.{begins_word, is_word_byte};
ghost use Rattle.jp_lexical.specs.Words.{IsWord, IsName, own_words, outside_words, IsReserved};

/// The words that the language keeps for itself.
const OWN: [&str; 28] = [
    "abstract",
    "as",
    "boolean",
    "break",
    "class",
    "continue",
    "else",
    "extends",
    "false",
    "final",
    "for",
    "if",
    "implements",
    "instanceof",
    "int",
    "interface",
    "new",
    "null",
    "private",
    "public",
    "return",
    "static",
    "super",
    "this",
    "true",
    "void",
    "when",
    "while",
];

/// The words that Java keeps beside them.
const OUTSIDE: [&str; 27] = [
    "assert",
    "byte",
    "case",
    "catch",
    "char",
    "const",
    "default",
    "do",
    "double",
    "enum",
    "finally",
    "float",
    "goto",
    "import",
    "long",
    "native",
    "package",
    "protected",
    "short",
    "strictfp",
    "switch",
    "synchronized",
    "throw",
    "throws",
    "transient",
    "try",
    "volatile",
];

/// Whether the bytes are the name of a class, a member or a variable: a word of at most 255 bytes
/// that isn't reserved.
pub fn is_name(bytes: &[u8]) -> bool
    ensures { IsTrue result ↔ IsName bytes.now }
{
    is_word(bytes) && bytes.len() <= 255 && !is_reserved(bytes)
}

/// Whether the bytes are a word that the language or Java keeps for itself.
pub fn is_reserved(bytes: &[u8]) -> bool
    ensures { IsTrue result ↔ IsReserved bytes.now }
{
    is_own(bytes) || is_outside(bytes)
}

/// Whether the bytes are a word that Java keeps for itself and the language has no use for.
pub fn is_outside(bytes: &[u8]) -> bool
    ensures { IsTrue result ↔ Contains outside_words bytes.now }
{
    OUTSIDE.iter().any(|word| word.as_bytes() == bytes)
}

/// Whether the bytes are a word that the language keeps for itself.
fn is_own(bytes: &[u8]) -> bool
    ensures { IsTrue result ↔ Contains own_words bytes.now }
{
    OWN.iter().any(|word| word.as_bytes() == bytes)
}

/// Whether the bytes are letters, digits and `_`, of which the first is no digit.
fn is_word(bytes: &[u8]) -> bool
    ensures { IsTrue result ↔ IsWord bytes.now }
{
    match bytes.first() {
        Some(first) => begins_word(*first) && bytes.iter().all(|b| is_word_byte(*b)),
        None => false,
    }
}

/// A letter or `_`.
#[tactic(auto, unfolding(crate::specs::Characters::begins_word))]
fn begins_word(b: u8) -> bool
    ensures { result ≡ begins_word b }
{
    b.is_ascii_alphabetic() || b == b'_'
}

/// A letter, a digit or `_`.
#[tactic(auto, unfolding(crate::specs::Characters::is_word_byte))]
fn is_word_byte(b: u8) -> bool
    ensures { result ≡ is_word_byte b }
{
    b.is_ascii_alphanumeric() || b == b'_'
}
