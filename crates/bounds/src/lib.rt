// What a decimal number reads as by the table of the powers of ten: one pattern at once, or one of those between two.
#![tactic(auto)]

ghost use Rattle.std.specs.Prelude.{◌+◌, ◌*◌, ◌^◌, ◌≤◌, ◌<◌, IfSome};
ghost use Rattle.rules.specs.Width.{Width};
ghost use Rattle.rules.specs.Reading.{nearest};
ghost use Rattle.theorems.proofs.Readable.{Readable};
ghost use Rattle.closest.specs.Targets.{Targets, Sized};
ghost use Rattle.bounds.specs.Around.{Opens, Raised, Bounds, Apart, AtOnce, Around};

use closest::Target;

// A number reads as one of the patterns from `least` to `most`.
#[derive(Clone, Copy)]
pub struct Ends {
    pub least: u64,
    pub most: u64,
}

// The upper half m of a product of digits and a power of ten, and its binary exponent e with 1200 added: the number is at least
// m * 2^e / 2^1200.
#[derive(Clone, Copy)]
pub struct Product {
    pub upper: u64,
    pub exponent: u32,
    pub ghost raised: { Raised upper exponent },
}

// How many units above the upper half of its product a number may lie: with digits that were not kept, more.
fn left_open(more: bool) -> u64
    ensures { Opens more result }
{
    if more { 18 } else { 2 }
}

// The product that bounds the number with the digits w, times 10^(i - 342), from both sides.
pub fn multiplied(w: u64, i: usize) -> Product
    requires { (0 < w) × (i < 651) }
    ensures { Bounds w i result.upper result.exponent }
{
    let z = w.leading_zeros();
    Product {
        upper: tens::mul_high(w << z, tens::leading(i)),
        exponent: tens::exponent_of(i) + 64 - z,
    }
}

impl Product {
    // What (m + far) * 2^e / 2^1200 reads as at most. Where the sum has no room, half of it is taken, rounded up.
    fn at_most(self, far: u64, t: Target) -> u64
        requires { (far ≤ 18) × Sized t }
        ensures { (w : Width) → Readable w → Targets t w → nearest w ((self.upper + far) * 2 ^ self.exponent) (2 ^ 1200) ≤ result }
    {
        match self.upper.checked_add(far) {
            Some(sum) => closest::pack(sum, self.exponent, t),
            None => closest::pack(self.upper / 2 + 10, self.exponent + 1, t),
        }
    }

    // The pattern that all from m * 2^e / 2^1200 to (m + far) * 2^e / 2^1200 read as, where they lie apart from the midpoints and have a
    // full significand. Less half a place, less what is left open, the next whole number is the nearest.
    fn apart(self, far: u64, t: Target) -> Option<u64>
        requires { (far ≤ 18) × Sized t }
        ensures { IfSome result (λ v. (w : Width) → Readable w → Targets t w → Apart w self.upper far self.exponent v) }
    {
        let short = 1 - (self.upper >> 63) as u32;
        let full = self.upper << short;
        let place = self.exponent - short + (63 - t.fraction);
        // Tested before it is taken: with checked_sub, which was tried, the test became a part of the sum below, and reading slower.
        if place < t.base {
            return None;
        }
        let field = place - t.base;
        if t.ones <= field + 1 {
            return None;
        }
        let half = 1 << (62 - t.fraction);
        let beyond = full - (half - 2 * far);
        if beyond % (2 * half) <= 2 * far {
            return None;
        }
        Some((u64::from(field) << t.fraction) + (beyond / (2 * half) + 1))
    }

    // The pattern that the numbers read as which the product bounds, where it shows that at once.
    pub fn at_once(self, more: bool, t: Target) -> Option<u64>
        requires { Sized t }
        ensures { IfSome result (λ v. (w : Width) → Readable w → Targets t w → AtOnce w self.upper more self.exponent v) }
    {
        self.apart(left_open(more), t)
    }

    // The patterns from which to which they read.
    pub fn around(self, more: bool, t: Target) -> Ends
        requires { Sized t }
        ensures { (w : Width) → Readable w → Targets t w → Around w self.upper more self.exponent result.least result.most }
    {
        Ends {
            least: closest::pack(self.upper, self.exponent, t),
            most: self.at_most(left_open(more), t),
        }
    }
}
