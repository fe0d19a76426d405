//! Numbers.

ghost use Rattle.std.specs.Prelude.{◌≡◌, ◌≤◌, ◌<◌, length, IfSome, IfNone};
ghost use Rattle.std.specs.Char.{digit_value};
ghost use Rattle.std.specs.Str.Parse.{AllDigits, digits_value};
ghost use Rattle.jp_lexer.specs.Scanning.{number_value, decimal_of, hexadecimal_of};

/// The greatest decimal number, which may stand behind a minus alone.
const MAX_DECIMAL: u64 = 2147483648;

/// The number that the bytes write, and whether they do so in hexadecimal digits.
#[tactic(auto, unfolding(crate::specs::Scanning::number_value, crate::specs::Scanning::is_marked))]
pub(crate) fn number_value(run: &[u8]) -> Option<(u32, bool)>
    ensures { result ≡ number_value run.now }
{
    if run.len() >= 2 && run[0] == b'0' && (run[1] == b'x' || run[1] == b'X') {
        Some((hexadecimal_of(&run[2..])?, true))
    } else {
        Some((decimal_of(run)?, false))
    }
}

/// The number of at most 2147483648 that has these decimal digits, without leading zeros.
fn decimal_of(digits: &[u8]) -> Option<u32>
    ensures { result ≡ decimal_of digits.now }
{
    if digits.is_empty() || digits.len() > 10 {
        return None;
    }
    if digits[0] == b'0' && digits.len() > 1 {
        return None;
    }
    let value = decimal_value(digits)?;
    if value <= MAX_DECIMAL {
        Some(value as u32)
    } else {
        None
    }
}

/// The value of the digits, or `None` where one of the bytes isn't a digit.
fn decimal_value(digits: &[u8]) -> Option<u64>
    requires { length digits.now ≤ 10 }
    ensures found { IfSome result (λ value. AllDigits 10 digits.now × (value ≡ digits_value 10 digits.now)) }
    ensures none { IfNone result (AllDigits 10 digits.now → ⊥) }
{
    let mut value = 0;
    for digit in digits {
        if !digit.is_ascii_digit() {
            return None;
        }
        value = value * 10 + u64::from(*digit - b'0');
    }
    Some(value)
}

/// The number that has these 1 to 8 hexadecimal digits.
#[tactic(auto, unfolding(crate::specs::Scanning::hexadecimal_of))]
fn hexadecimal_of(digits: &[u8]) -> Option<u32>
    ensures { result ≡ hexadecimal_of digits.now }
{
    if digits.is_empty() || digits.len() > 8 {
        return None;
    }
    let value = hexadecimal_value(digits)?;
    Some(value as u32)
}

/// The value of the hexadecimal digits, or `None` where one of the bytes isn't one.
fn hexadecimal_value(digits: &[u8]) -> Option<u64>
    requires { length digits.now ≤ 8 }
    ensures found { IfSome result (λ value. AllDigits 16 digits.now × (value ≡ digits_value 16 digits.now)) }
    ensures fits { IfSome result (λ value. value < 4294967296) }
    ensures none { IfNone result (AllDigits 16 digits.now → ⊥) }
{
    let mut value = 0;
    for byte in digits {
        let digit = digit_value(*byte);
        if digit >= 16 {
            return None;
        }
        value = value * 16 + u64::from(digit);
    }
    Some(value)
}

/// The value of a digit in the bases up to 36, where the letters of both cases follow the ten digits, or 36.
fn digit_value(byte: u8) -> u8
    ensures { result ≡ digit_value byte }
{
    match byte {
        b'0'..=b'9' => byte - b'0',
        b'A'..=b'Z' => byte - b'A' + 10,
        b'a'..=b'z' => byte - b'a' + 10,
        _ => 36,
    }
}
