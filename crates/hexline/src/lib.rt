// A line of hex digits as a pattern.
#![tactic(auto)]

ghost use Rattle.std.specs.Prelude.{◌≡◌, ◌^◌, ◌≤◌, ◌<◌, length, IfSome};
ghost use Rattle.hexline.specs.Hex.{digit, number_from, pattern_of};

// What a line says: a pattern of 32 bits, or one of 64.
#[derive(Clone, Copy, PartialEq, Eq, Debug)]
pub enum Pattern {
    Single(u32),
    Double(u64),
}

// The value of a hex digit.
#[tactic(auto, unfolding(crate::specs::Hex::digit))]
fn hex_digit(b: u8) -> Option<u32>
    ensures value { result ≡ digit b }
    ensures less { IfSome result (λ d. d < 16) }
{
    char::from(b).to_digit(16)
}

// The number that up to 16 hex digits make.
fn hex_number(line: &[u8]) -> Option<u64>
    requires { length line.now ≤ 16 }
    ensures number { result ≡ number_from 0 line.now }
    ensures fits { IfSome result (λ v. v < 16 ^ length line.now) }
{
    let mut v: u64 = 0;
    for b in line {
        v = v * 16 + u64::from(hex_digit(*b)?);
    }
    Some(v)
}

// What a line says, without its line end.
#[tactic(auto, unfolding(crate::specs::Hex::pattern_of, crate::specs::Hex::as_pattern))]
pub fn parse(line: &[u8]) -> Option<Pattern>
    ensures { result ≡ pattern_of line.now }
{
    match line.len() {
        8 => Some(Pattern::Single(hex_number(line)? as u32)),
        16 => Some(Pattern::Double(hex_number(line)?)),
        _ => None,
    }
}
