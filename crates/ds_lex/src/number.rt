//! Integers in decimal.
ghost use Rattle.std.specs.Prelude.{◌≡◌, [], ◌∷◌};
ghost use Rattle.ds_lex.specs.Number as spec;

/// The value of a number modulo 2^64, so that `-1` gives 2^64 - 1. A number is one or more decimal digits,
/// maybe behind a `-`, and lies from -2^63 to 2^64 - 1; `None` where the bytes are no number.
#[tactic(auto, unfolding(crate::specs::Number::number_of))]
pub fn number_of(word: &[u8]) -> Option<u64>
    ensures { result ≡ spec.number_of word.now }
{
    match word {
        [] => None,
        [b'-', digits @ ..] => magnitude_of(digits).and_then(negated),
        [_, ..] => magnitude_of(word),
    }
}

/// Whether these are digits and their number is below 2^32, as that of a name in digits is.
#[tactic(auto, unfolding(crate::specs::Number::is_small))]
pub fn is_small(digits: &[u8]) -> bool
    ensures { result ≡ spec.is_small digits.now }
{
    match digits_value(digits) {
        Some(value) => value < 1 << 32,
        None => false,
    }
}

/// The number opposite to one of at most 2^63, modulo 2^64.
#[tactic(auto, unfolding(crate::specs::Number::negated))]
fn negated(magnitude: u64) -> Option<u64>
    ensures { result ≡ spec.negated magnitude }
{
    (magnitude <= 1 << 63).then_some(magnitude.wrapping_neg())
}

/// The value of one or more digits, if it is below 2^64.
#[tactic(auto, unfolding(crate::specs::Number::magnitude_of))]
fn magnitude_of(digits: &[u8]) -> Option<u64>
    ensures { result ≡ spec.magnitude_of digits.now }
{
    if digits.is_empty() {
        None
    } else {
        digits_value(digits)
    }
}

/// The value of digits, if it is below 2^64; that of no digits is 0.
fn digits_value(digits: &[u8]) -> Option<u64>
    ensures { result ≡ spec.extended 0 digits.now }
{
    let mut value: u64 = 0;
    for byte in digits {
        value = with_digit(value, *byte)?;
    }
    Some(value)
}

/// A number with one more digit behind it, if that is a digit and the number stays below 2^64.
#[tactic(auto, unfolding(crate::specs::Number::extended))]
fn with_digit(value: u64, byte: u8) -> Option<u64>
    ensures { result ≡ spec.extended value (byte ∷ []) }
{
    if !byte.is_ascii_digit() {
        return None;
    }
    value.checked_mul(10)?.checked_add(u64::from(byte - b'0'))
}
