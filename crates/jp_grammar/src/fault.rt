ghost use Rattle.std.specs.Prelude.{◌≡◌};
ghost use Rattle.jp_grammar.specs.declared.fault.ParseFault.TheVariants.{OutOfMemory};

use jp_ast::Place;
use jp_pred::Name;
use std::alloc::{AllocError, AllocFailed};

/// Why a list of tokens is in no tree of the grammar. The place is that of the first token with which nothing goes
/// on to a text of the grammar; where all tokens go on, that is the end of the text.
#[derive(Debug, Drop)]
pub enum ParseFault {
    /// No tree goes on with the token.
    Unexpected { place: Place },
    /// No tree goes on with the token, which is a word that is reserved but has no use in the language.
    Outside { place: Place, word: Name },
    /// Only trees that are more than 200 deep go on with the token.
    TooDeep { place: Place },
    /// There was too little memory.
    OutOfMemory,
}

impl From<AllocError> for ParseFault {
    ghost from_gives = { λ _ e. e ≡ OutOfMemory };

    fn from(_: AllocError) -> ParseFault {
        ParseFault::OutOfMemory
    }
}

impl<T: Drop> From<AllocFailed<T>> for ParseFault {
    ghost from_gives = { λ _ e. e ≡ OutOfMemory };

    fn from(_: AllocFailed<T>) -> ParseFault {
        ParseFault::OutOfMemory
    }
}
