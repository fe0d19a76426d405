ghost use Rattle.std.specs.Prelude.{◌≡◌, ℕ, ◌<◌, ◌||◌, length, drop, Option};
ghost use Rattle.jp_ast.specs.declared.sign.TheConstants as sign;
ghost use Rattle.jp_grammar.specs.Kinds.{is_sign_of};
ghost use Rattle.jp_grammar.specs.Behind.{begins_plain, begins_expr};
ghost use Rattle.jp_grammar.specs.Expressions.{binds, strength, is_negation, is_inversion};
ghost use Rattle.jp_grammar.specs.Reading.{IsText};
ghost use Rattle.jp_parse_expr.specs.Ahead.{is_cast, Opens};

use jp_ast::{Token, sign};
use jp_grammar::{Kind, front, is_sign, kind_of};

/// How strongly a binary sign binds, from 0 for the strongest, where it is one.
fn strength(sign: u8) -> Option<u8>
    ensures { result ≡ strength sign }
{
    if sign == sign::TIMES || sign == sign::DIVIDE || sign == sign::REMAINDER {
        Some(0)
    } else if sign == sign::PLUS || sign == sign::MINUS {
        Some(1)
    } else if sign == sign::SHIFT_LEFT
        || sign == sign::SHIFT_RIGHT
        || sign == sign::UNSIGNED_SHIFT_RIGHT
    {
        Some(2)
    } else if sign == sign::LESS
        || sign == sign::AT_MOST
        || sign == sign::GREATER
        || sign == sign::AT_LEAST
    {
        Some(3)
    } else if sign == sign::EQUAL || sign == sign::NOT_EQUAL {
        Some(4)
    } else if sign == sign::BIT_AND {
        Some(5)
    } else if sign == sign::BIT_XOR {
        Some(6)
    } else if sign == sign::BIT_OR {
        Some(7)
    } else if sign == sign::AND {
        Some(8)
    } else if sign == sign::OR {
        Some(9)
    } else {
        None
    }
}

/// How strongly a binary sign or `instanceof` binds, where the kind is one.
pub fn binds(kind: Kind) -> Option<u8>
    ensures { result ≡ binds kind }
{
    match kind {
        Kind::Sign(sign) => strength(sign),
        Kind::InstanceOf => Some(3),
        _ => None,
    }
}

/// Whether the sign is `-`, `+`, `!` or `~`.
pub fn is_prefix(sign: u8) -> bool
    ensures { result ≡ (is_negation sign || is_inversion sign) }
{
    sign == sign::MINUS || sign == sign::PLUS || sign == sign::NOT || sign == sign::COMPLEMENT
}

/// Whether the token begins a step behind an operand: it is `.` or `[`.
pub fn is_step(token: &Token) -> bool
    ensures { result ≡ (is_sign_of sign.DOT token.now || is_sign_of sign.OPEN_BRACKET token.now) }
{
    is_sign(token, sign::DOT) || is_sign(token, sign::OPEN_BRACKET)
}

/// Whether an operand without `-` or `+` in front begins with a token of the kind.
fn begins_plain(kind: Kind) -> bool
    ensures { result ≡ begins_plain kind }
{
    match kind {
        Kind::Name
        | Kind::Number
        | Kind::Text
        | Kind::True
        | Kind::False
        | Kind::Null
        | Kind::This
        | Kind::Super
        | Kind::New => true,
        Kind::Sign(sign) => {
            sign == sign::NOT || sign == sign::COMPLEMENT || sign == sign::OPEN_PAREN
        }
        _ => false,
    }
}

/// Whether an expression begins with a token of the kind.
pub fn begins_expr(kind: Kind) -> bool
    ensures { result ≡ begins_expr kind }
{
    match kind {
        Kind::Sign(sign) if sign == sign::MINUS || sign == sign::PLUS => true,
        _ => begins_plain(kind),
    }
}

/// Whether a name, `)` and a token that begins an operand without `-` or `+` stand there. Behind `(` that is a cast.
fn begins_cast(tokens: &[Token]) -> bool
    requires { IsText tokens.now }
    ensures { result ≡ is_cast tokens.now }
{
    let (class, rest) = front(tokens);
    if kind_of(class) != Kind::Name {
        return false;
    }
    let (close, rest) = front(rest);
    if !is_sign(close, sign::CLOSE_PAREN) {
        return false;
    }
    let (next, _) = front(rest);
    begins_plain(kind_of(next))
}

/// How many parentheses stand there one behind the other, none of which begins a cast.
pub fn opened(tokens: &[Token]) -> usize
    requires { IsText tokens.now }
    ensures opens { (i : ℕ) → i < result → Opens (drop i tokens.now) }
    ensures last { Opens (drop result tokens.now) → ⊥ }
    ensures most { result < length tokens.now }
{
    let mut count = 0;
    let mut left = tokens;
    'run: loop {
        let (first, rest) = front(left);
        if !is_sign(first, sign::OPEN_PAREN) || begins_cast(rest) {
            return count;
        }
        left = rest;
        count += 1;
    }
}
