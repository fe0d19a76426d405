//! The classes of bytes.

ghost use Rattle.std.specs.Prelude.{◌≡◌};
ghost use Rattle.jp_lexical.specs.Characters.{is_white, begins_word, is_word_byte, is_plain};

/// A tab, a line feed, a form feed, a carriage return or a space.
#[tactic(auto, unfolding(jp_lexical::specs::Characters::is_white))]
pub(crate) fn is_white(b: u8) -> bool
    ensures { result ≡ is_white b }
{
    matches!(b, 9 | 10 | 12 | 13 | 32)
}

/// A letter or `_`.
#[tactic(auto, unfolding(jp_lexical::specs::Characters::begins_word))]
pub(crate) fn begins_word(b: u8) -> bool
    ensures { result ≡ begins_word b }
{
    b.is_ascii_alphabetic() || b == b'_'
}

/// A letter, a digit or `_`.
#[tactic(auto, unfolding(jp_lexical::specs::Characters::is_word_byte))]
pub(crate) fn is_word_byte(b: u8) -> bool
    ensures { result ≡ is_word_byte b }
{
    b.is_ascii_alphanumeric() || b == b'_'
}

/// A printable character of ASCII other than `"` and the backslash.
#[tactic(auto, unfolding(jp_lexical::specs::Characters::is_plain))]
pub(crate) fn is_plain(b: u8) -> bool
    ensures { result ≡ is_plain b }
{
    32 <= b && b <= 126 && !(b == b'"' || b == b'\\')
}
