// Rounding to the nearest pattern of a width, whose numbers are given.
#![tactic(auto)]

ghost use Rattle.std.specs.Prelude.{◌≡◌, ◌+◌, ◌*◌, ◌^◌, ◌≤◌, ◌<◌};
ghost use Rattle.std.specs.Float.Ieee.Nearest.{closest};
ghost use Rattle.rules.specs.Width.{Width};
ghost use Rattle.rules.specs.Reading.{low, nearest};
ghost use Rattle.closest.specs.Targets.{Targets, Sized};

use patterns::Pattern;

// The numbers of a width: the bits of its significand, 1200 less the power of two of its unit, and an exponent field of ones.
#[derive(Clone, Copy)]
pub struct Target {
    pub fraction: u32,
    pub base: u32,
    pub ones: u32,
}

impl Target {
    // Those of a kind of patterns.
    pub fn of<P: Pattern>() -> Target
        ensures { Targets result P.width × Sized result }
    {
        Target {
            fraction: P::FRACTION,
            base: unit::<P>(),
            ones: P::ONES,
        }
    }
}

// The exponent of a width's unit, 2^-low, with 1200 added, as the exponents of significands have it.
pub fn unit<P: Pattern>() -> u32
    ensures { result + low P.width ≡ 1200 }
{
    1201 - P::BIAS - P::FRACTION
}

// The hidden bit of a width's significands.
pub fn hidden_bit(t: Target) -> u64
    requires { Sized t }
    ensures { result ≡ 2 ^ t.fraction }
{
    1 << t.fraction
}

// The pattern of a width's infinity.
pub fn infinity(t: Target) -> u64
    requires { Sized t }
    ensures { result ≡ t.ones * 2 ^ t.fraction }
{
    u64::from(t.ones) << t.fraction
}

// m / 2^j, to the nearest whole number, ties to the even one. Twice the quotient has the half as its last bit; it rounds up where
// more bits follow, or where the whole part is odd.
pub fn round_shift(m: u64, j: u32) -> u64
    requires { (0 < j) × (j ≤ 64) }
    ensures { result ≡ closest m (2 ^ j) }
{
    let doubled = m >> (j - 1);
    let whole = doubled / 2;
    let up = if doubled << (j - 1) != m {
        1
    } else {
        whole % 2
    };
    whole + doubled % 2 * up
}

// The nearest pattern to m * 2^e / 2^1200, where bit 63 of m is set.
fn pack_high(m: u64, e: u32, t: Target) -> u64
    requires { (2 ^ 63 ≤ m) × (e < 4000) × Sized t }
    ensures { (w : Width) → Targets t w → result ≡ nearest w (m * 2 ^ e) (2 ^ 1200) }
{
    let cut = 63 - t.fraction;
    if e + cut < t.base {
        let below = t.base - e;
        if 64 < below {
            return 0;
        }
        return round_shift(m, below);
    }
    let field = e + cut - t.base;
    if t.ones <= field + 1 {
        return infinity(t);
    }
    (u64::from(field) << t.fraction) + round_shift(m, cut)
}

// The nearest pattern to m * 2^e / 2^1200.
pub fn pack(m: u64, e: u32, t: Target) -> u64
    requires { (2 ^ 62 ≤ m) × (0 < e) × (e < 4000) × Sized t }
    ensures { (w : Width) → Targets t w → result ≡ nearest w (m * 2 ^ e) (2 ^ 1200) }
{
    let zeros = m.leading_zeros();
    pack_high(m << zeros, e - zeros, t)
}
