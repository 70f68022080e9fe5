// Powers of ten by their leading 64 bits, and the upper half of a product.
#![tactic(auto)]

ghost use Rattle.std.specs.Prelude.{◌≡◌, ◌*◌, ◌/◌, ◌^◌, ◌<◌};
ghost use Rattle.tens.specs.Leading.{exponent, Leading};

pub mod table;

// The leading 64 bits of 10^(i - 342).
pub fn leading(i: usize) -> u64
    requires { i < 651 }
    ensures { Leading i result }
{
    table::POWERS[i]
}

// The binary exponent that goes with them, with 1200 added: a step of 10 is one of 217706 / 2^16 binary places.
pub fn exponent_of(i: usize) -> u32
    requires { i < 651 }
    ensures { result ≡ exponent i }
{
    ((i * 217706 + 58980) >> 16) as u32
}

// The upper 64 bits of f * g.
pub fn mul_high(f: u64, g: u64) -> u64
    ensures { result ≡ f * g / 2 ^ 64 }
{
    ((f as u128 * g as u128) >> 64) as u64
}
