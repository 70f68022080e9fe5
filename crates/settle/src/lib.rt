// Which of the patterns from one to another a decimal number reads as, by exact comparison with the midpoints between them.
#![tactic(auto)]

ghost use Rattle.std.specs.Prelude.{◌*◌, ◌^◌, ◌≤◌, ◌<◌, length};
ghost use Rattle.rules.specs.Width.{Width};
ghost use Rattle.theorems.proofs.Readable.{Readable};
ghost use Rattle.scan.specs.Mantissa.{mantissa};
ghost use Rattle.closest.specs.Targets.{Targets, Sized};
ghost use Rattle.settle.specs.Settles.{Middle, Side, Settles};

use closest::Target;
use limbs::Factor;
use std::cmp::Ordering;

// The place of the power 10^0.
const UNIT: u32 = 10100;

// The midpoint between a pattern and the next one, twice: m * 2^twos units.
#[derive(Clone, Copy)]
pub struct Midpoint {
    pub m: u64,
    pub twos: u32,
}

// The midpoint above a pattern.
fn midpoint_above(p: u64, t: Target) -> Midpoint
    requires { Sized t × (p < t.ones * 2 ^ t.fraction) }
    ensures { Middle t p result.m result.twos }
{
    let hidden = closest::hidden_bit(t);
    let field = p / hidden;
    if field == 0 {
        return Midpoint {
            m: 2 * p + 1,
            twos: 0,
        };
    }
    Midpoint {
        m: 2 * (hidden + p % hidden) + 1,
        twos: (field - 1) as u32,
    }
}

// How the number with these digits stands to the midpoint above a pattern.
fn side(digits: &[u8], tens: u32, p: u64, t: Target) -> Ordering
    requires room { (length digits.now ≤ 64) × (9694 ≤ tens) × (tens ≤ 10408) }
    requires finite { Sized t × (p < t.ones * 2 ^ t.fraction) }
    ensures { (w : Width) → Targets t w → Side w (mantissa 0 digits.now) tens p result }
{
    let h = midpoint_above(p, t);
    let unit = 1201 - t.base;
    if tens < UNIT {
        let n = UNIT - tens;
        let number = Factor {
            fives: 0,
            twos: unit,
        };
        let middle = Factor {
            fives: n,
            twos: n + h.twos,
        };
        return limbs::against(digits, number, h.m, middle);
    }
    let n = tens - UNIT;
    let number = Factor {
        fives: n,
        twos: n + unit,
    };
    let middle = Factor {
        fives: 0,
        twos: h.twos,
    };
    limbs::against(digits, number, h.m, middle)
}

// The pattern, of those from `least` to `most`, that the number with these digits reads as. Of a pattern and the next one the even one is
// taken at the midpoint.
pub fn settle(digits: &[u8], tens: u32, least: u64, most: u64, t: Target) -> u64
    requires { (length digits.now ≤ 64) × (9694 ≤ tens) × (tens ≤ 10408) × Sized t }
    ensures { (w : Width) → Readable w → Targets t w → Settles w (mantissa 0 digits.now) tens least most result }
{
    let last = most.min(closest::infinity(t));
    for p in least..last {
        match side(digits, tens, p, t) {
            Ordering::Less => return p,
            Ordering::Equal => return p + p % 2,
            Ordering::Greater => {}
        }
    }
    last
}
