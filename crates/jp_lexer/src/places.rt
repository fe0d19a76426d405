//! Lines and columns.

ghost use Rattle.std.specs.Prelude.{◌≡◌};
ghost use Rattle.jp_lexical.specs.Places.{one_further, behind_byte, behind};

use jp_ast::Place;

/// Where the first byte of a text stands.
pub(crate) const FIRST_PLACE: Place = Place { line: 1, col: 1 };

/// The place behind the bytes, of which the first stands at `start`.
pub(crate) fn behind(start: Place, bytes: &[u8]) -> Place
    ensures { result ≡ behind start bytes.now }
{
    let mut place = start;
    for b in bytes {
        place = behind_byte(place, *b);
    }
    place
}

/// The place behind a byte.
fn behind_byte(place: Place, b: u8) -> Place
    ensures { result ≡ behind_byte place b }
{
    if b == b'\n' {
        Place {
            line: one_further(place.line),
            col: 1,
        }
    } else {
        Place {
            line: place.line,
            col: one_further(place.col),
        }
    }
}

/// One more, up to the greatest number.
#[tactic(auto, unfolding(jp_lexical::specs::Places::one_further))]
fn one_further(n: u32) -> u32
    ensures { result ≡ one_further n }
{
    n.saturating_add(1)
}
