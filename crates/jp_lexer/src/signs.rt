//! Signs.

ghost use Rattle.std.specs.Prelude.{◌≡◌, slice_index};
ghost use Rattle.jp_lexer.specs.Scanning.{sign_at, pair_sign, single_sign};

/// The number of the longest sign at the front, and how many bytes it has.
#[tactic(auto, unfolding(crate::specs::Scanning::sign_at))]
pub(crate) fn sign_at(text: &[u8]) -> Option<(u8, usize)>
    ensures { result ≡ sign_at text.now }
{
    let (first, second, third) = (byte_at(text, 0), byte_at(text, 1), byte_at(text, 2));
    if first == b'>' && second == b'>' && third == b'>' {
        return Some((33, 3));
    }
    match pair_sign(first, second) {
        Some(sign) => Some((sign, 2)),
        None => Some((single_sign(first)?, 1)),
    }
}

/// The byte at this index, or 0 behind the end.
fn byte_at(text: &[u8], index: usize) -> u8
    ensures { result ≡ slice_index text.now index }
{
    text.get(index).copied().unwrap_or(0)
}

/// The number of the sign of two bytes.
#[tactic(auto, unfolding(crate::specs::Scanning::pair_sign))]
fn pair_sign(first: u8, second: u8) -> Option<u8>
    ensures { result ≡ pair_sign first second }
{
    match (first, second) {
        (b'=', b'=') => Some(25),
        (b'!', b'=') => Some(26),
        (b'<', b'=') => Some(27),
        (b'>', b'=') => Some(28),
        (b'&', b'&') => Some(29),
        (b'|', b'|') => Some(30),
        (b'<', b'<') => Some(31),
        (b'>', b'>') => Some(32),
        (b'+', b'=') => Some(34),
        (b'-', b'=') => Some(35),
        (b'+', b'+') => Some(36),
        (b'-', b'-') => Some(37),
        _ => None,
    }
}

/// The number of the sign of one byte.
#[tactic(auto, unfolding(crate::specs::Scanning::single_sign))]
fn single_sign(b: u8) -> Option<u8>
    ensures { result ≡ single_sign b }
{
    match b {
        b'{' => Some(0),
        b'}' => Some(1),
        b'(' => Some(2),
        b')' => Some(3),
        b'[' => Some(4),
        b']' => Some(5),
        b';' => Some(6),
        b',' => Some(7),
        b'.' => Some(8),
        b'=' => Some(9),
        b'<' => Some(10),
        b'>' => Some(11),
        b'!' => Some(12),
        b'~' => Some(13),
        b'?' => Some(14),
        b':' => Some(15),
        b'+' => Some(16),
        b'-' => Some(17),
        b'*' => Some(18),
        b'/' => Some(19),
        b'%' => Some(20),
        b'&' => Some(21),
        b'|' => Some(22),
        b'^' => Some(23),
        b'@' => Some(24),
        _ => None,
    }
}
