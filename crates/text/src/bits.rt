// Tests on the bits of a pattern.
ghost use Rattle.std.specs.Prelude.{◌≡◌, eqb};
ghost use Rattle.rules.specs.Pattern.{negative, significand, special, magnitude};

use patterns::Pattern;

// Whether the sign bit is set.
pub fn is_negative<P: Pattern>(pattern: P) -> bool
    ensures { result ≡ negative P.width (P.number pattern) }
{
    ((pattern.bits() >> (P::SIZE - 1)) & 1) == 1
}

// Whether the exponent bits are all ones, as those of NaN and infinity are.
pub fn is_special<P: Pattern>(pattern: P) -> bool
    ensures { result ≡ special P.width (P.number pattern) }
{
    let ones = P::ONES as u64;
    ((pattern.bits() >> P::FRACTION) & ones) == ones
}

// Whether the significand bits are all zeros, as those of an infinity are.
pub fn is_bare<P: Pattern>(pattern: P) -> bool
    ensures { result ≡ eqb (significand P.width (P.number pattern)) 0 }
{
    (pattern.bits() & ((1 << P::FRACTION) - 1)) == 0
}

// Whether the magnitude is zero.
pub fn is_zero<P: Pattern>(pattern: P) -> bool
    ensures { result ≡ eqb (magnitude P.width (P.number pattern)).f 0 }
{
    (pattern.bits() & ((1 << (P::SIZE - 1)) - 1)) == 0
}
