ghost use Rattle.std.specs.Prelude.{◌≡◌, [], ◌∷◌};
ghost use Rattle.plain_form.specs.Places.{place_before, pick, earlier};

use jp_ast::Place;

/// The best so far, or the place where it is before that.
pub(crate) fn with_place(best: Option<Place>, place: Place) -> Option<Place>
    ensures { result ≡ earlier best (place ∷ []) }
{
    match best {
        Some(best) if !place_before(place, best) => Some(best),
        _ => Some(place),
    }
}

/// Whether a place stands before another in the text.
fn place_before(first: Place, second: Place) -> bool
    ensures { result ≡ place_before first second }
{
    first.line < second.line || (first.line == second.line && first.col < second.col)
}
