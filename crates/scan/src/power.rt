// The power of ten behind the digits of a text.
ghost use Rattle.std.specs.Prelude.{◌≡◌, ℕ, ◌<◌, ◌≤◌, false, OnSome};
ghost use Rattle.rules.specs.Reading.{decimals_more, exponent_sign};
ghost use Rattle.scan.specs.Mantissa.{mantissa};
ghost use Rattle.scan.specs.Heads.{starts};
ghost use Rattle.scan.specs.Raises.{Raises, Counts, Shifts};

use crate::{digits, heads};

// The number that the digits of an exponent make, 1 to 4 up to the end of the text.
fn exponent_digits(text: &[u8]) -> Option<u32>
    ensures { Counts text.now result }
{
    if text.is_empty() || 4 < text.len() {
        return None;
    }
    let mut e: u32 = 0;
    for b in text {
        e = e * 10 + digits::value(*b)? as u32;
    }
    Some(e)
}

// An exponent with its sign, 10,000 added.
fn shifted(e: u32, negative: bool) -> u32
    requires { e < 10000 }
    ensures { Shifts negative e result }
{
    if negative { 10000 - e } else { 10000 + e }
}

// The power of ten that follows an `e`, 10,000 added.
fn exponent(text: &[u8]) -> Option<u32>
    ensures { Raises (λ a n. exponent_sign a n text.now) result }
{
    let x = heads::sign(text);
    Some(shifted(exponent_digits(x.rest)?, x.negative))
}

// The power of ten that follows the digits, 10,000 added.
pub fn raised(text: &[u8]) -> Option<u32>
    requires { starts text.now ≡ false }
    ensures { Raises (λ a n. decimals_more a n text.now) result × OnSome result ((a : ℕ) → mantissa a text.now ≡ a) }
{
    match text {
        [] => Some(10000),
        [b'e', behind @ ..] => exponent(behind),
        _ => None,
    }
}
