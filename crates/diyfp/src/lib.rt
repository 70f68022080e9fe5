// Pairs of a significand and a binary exponent, f * 2^e, with the bits for f that a width's pairs have, and the cached power of ten that scales them.
#![tactic(auto)]

ghost use Rattle.std.specs.Prelude.{◌≡◌, ℕ, ◌^◌};
ghost use Rattle.std.proofs.Math.IntN.{sub_ℕ};
ghost use Rattle.rules.specs.Width.{off};
ghost use Rattle.rules.specs.Pattern.{magnitude};
ghost use Rattle.rules.specs.Boundaries.{shifted, below};
ghost use Rattle.theorems.proofs.Boundaries.{Finite};
ghost use Rattle.diyfp.specs.Pairs.{Stands, StandsIn, Becomes, Shiftable, Bounds, Near, Factor, Cached, Times};
ghost use Rattle.powers.specs.Powers.{Served};

use patterns::Pattern;
use powers::Powers;

// The number f * 2^e.
#[derive(Clone, Copy)]
pub struct DiyFp {
    pub f: u64,
    pub e: i32,
}

// The lower and the upper boundary of a magnitude, at one exponent.
#[derive(Clone, Copy)]
pub struct Boundaries {
    pub minus: DiyFp,
    pub plus: DiyFp,
}

// A power of ten, 10^-k.
#[derive(Clone, Copy)]
pub struct CachedPower {
    pub power: DiyFp,
    pub k: i32,
}

impl DiyFp {
    // The magnitude of a finite pattern.
    pub fn from_bits<P: Pattern>(pattern: P) -> DiyFp
        ensures { Stands P.width (magnitude P.width (P.number pattern)) result }
    {
        let bits = pattern.bits();
        let hidden = patterns::hidden_bit::<P>();
        let least_e = 0 - (P::BIAS + P::FRACTION) as i32;
        let biased_e = ((bits >> P::FRACTION) & P::ONES as u64) as i32;
        let significand = bits & (hidden - 1);
        if biased_e != 0 {
            DiyFp {
                f: significand + hidden,
                e: least_e + biased_e,
            }
        } else {
            DiyFp {
                f: significand,
                e: least_e + 1,
            }
        }
    }

    // Shifted left until the highest bit is set: at once, by the number of zeros above the highest bit set.
    pub fn normalize<P: Pattern>(self) -> DiyFp
        requires { StandsIn P.width (Shiftable P.width P.width.N) self }
        ensures { Becomes P.width (shifted P.width.N P.width.N) self result }
    {
        let zeros = self.f.leading_zeros() - (64 - P::PAIR);
        DiyFp {
            f: self.f << zeros,
            e: self.e - zeros as i32,
        }
    }

    // The lower boundary where it lies, before it is brought to the upper's exponent. Each case is written out: one shift, by 2 or by 1,
    // was slower.
    fn below<P: Pattern>(self) -> DiyFp
        requires { StandsIn P.width (Finite P.width) self }
        ensures { Becomes P.width (below P.width) self result }
    {
        let hidden = patterns::hidden_bit::<P>();
        if self.f == hidden {
            return DiyFp {
                f: (self.f << 2) - 1,
                e: self.e - 2,
            };
        }
        DiyFp {
            f: (self.f << 1) - 1,
            e: self.e - 1,
        }
    }

    // The two boundaries of a finite magnitude other than zero.
    pub fn normalized_boundaries<P: Pattern>(self) -> Boundaries
        requires { StandsIn P.width (Finite P.width) self }
        ensures { Bounds P.width self result }
    {
        let above = DiyFp {
            f: (self.f << 1) + 1,
            e: self.e - 1,
        };
        let plus = above.normalize::<P>();
        let below = self.below::<P>();
        let minus = DiyFp {
            f: below.f << (below.e - plus.e),
            e: plus.e,
        };
        Boundaries { minus, plus }
    }

    // The product: exponents added, plus the bits of a significand, and the upper half of the significands' product, rounded. With the
    // second at the upper end of a word, that is the upper word.
    pub fn times<P: Pattern>(self, rhs: DiyFp) -> DiyFp
        requires { Near self.e × Factor P.width rhs }
        ensures { Times P.width self rhs result }
    {
        let aligned = rhs.f << (64 - P::PAIR);
        let whole = self.f as u128 * aligned as u128;
        DiyFp {
            f: ((whole + (1 << 63)) >> 64) as u64,
            e: self.e + rhs.e + P::PAIR as i32,
        }
    }
}

// The power of ten that scales an upper boundary of exponent e.
pub fn get_cached_power<P: Powers>(e: i32) -> CachedPower
    requires { Served P.width e }
    ensures { (E : ℕ) → e ≡ sub_ℕ E (off P.width) → Cached P.width E result }
{
    let index = powers::index_of(powers::power_k::<P>(e));
    let power = DiyFp {
        f: P::significand(index),
        e: powers::exponent::<P>(index),
    };
    CachedPower {
        power,
        k: P::TENS as i32 - (index << 3) as i32,
    }
}
