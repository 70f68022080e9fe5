// The quick way of reading: one multiplication or division by an exact power of ten, rounded once.
#![tactic(auto)]

ghost use Rattle.std.specs.Prelude.{false, ◌≡◌, ◌*◌, ◌^◌, ◌≤◌, IfSome};
ghost use Rattle.std.specs.Float.Ieee.Exact.{HasValue};
ghost use Rattle.rules.specs.Reading.{nearest};
ghost use Rattle.rules.specs.Width.{w64};
ghost use Rattle.fast.specs.Quick.{Trims, Finds};

// Digits, and the place of the last of them.
#[derive(Clone, Copy)]
pub struct Trimmed {
    pub digits: u64,
    pub place: u32,
}

// Whole numbers up to this one, 2^53, are numbers of binary64.
const EXACT: u64 = 9007199254740992;

// The place of the power 10^0, and those of 10^-22 and 10^22: 10^22 is the last power of ten that binary64 has.
const UNIT: u32 = 10100;

const FIRST: u32 = 10078;

const LAST: u32 = 10122;

// 10^k, which binary64 has up to 10^22. Written out, since no call of the library says that what it answers is exact; and the bound stands
// in three contracts, since a type for it would hold one number that each caller makes and takes apart.
fn ten(k: u32) -> f64
    requires { k ≤ 22 }
    ensures { HasValue result false (10 ^ k) 1 }
{
    match k {
        0 => 1e0,
        1 => 1e1,
        2 => 1e2,
        3 => 1e3,
        4 => 1e4,
        5 => 1e5,
        6 => 1e6,
        7 => 1e7,
        8 => 1e8,
        9 => 1e9,
        10 => 1e10,
        11 => 1e11,
        12 => 1e12,
        13 => 1e13,
        14 => 1e14,
        15 => 1e15,
        16 => 1e16,
        17 => 1e17,
        18 => 1e18,
        19 => 1e19,
        20 => 1e20,
        21 => 1e21,
        _ => 1e22,
    }
}

// The nearest pattern to m * 10^k.
fn times(m: u64, k: u32) -> u64
    requires { (m ≤ 2 ^ 53) × (k ≤ 22) }
    ensures { result ≡ nearest w64 (m * 10 ^ k) 1 }
{
    (m as f64 * ten(k)).to_bits()
}

// The nearest pattern to m / 10^k.
fn over(m: u64, k: u32) -> u64
    requires { (m ≤ 2 ^ 53) × (k ≤ 22) }
    ensures { result ≡ nearest w64 m (10 ^ k) }
{
    (m as f64 / ten(k)).to_bits()
}

// The nearest pattern to digits at a place, both exact.
fn scaled(t: Trimmed) -> u64
    requires { (t.digits ≤ 2 ^ 53) × (10078 ≤ t.place) × (t.place ≤ 10122) }
    ensures { Finds w64 t.digits t.place result }
{
    if t.place < UNIT {
        return over(t.digits, UNIT - t.place);
    }
    times(t.digits, t.place - UNIT)
}

// Digits without the zeros at their end, as far as there are too many. The digits say how often the loop turns, and an iterator over
// them would have to carry the place beside each.
fn trim(digits: u64, place: u32) -> Trimmed
    requires { place ≤ 30000 }
    ensures { Trims digits place result.digits result.place }
{
    let mut t = Trimmed { digits, place };
    while EXACT < t.digits && t.digits % 10 == 0 {
        t.digits /= 10;
        t.place += 1;
    }
    t
}

// The nearest pattern to digits at a place, where both are exact, and so one multiplication or division finds it.
pub fn quickly(digits: u64, place: u32) -> Option<u64>
    requires { place ≤ 30000 }
    ensures { IfSome result (λ v. Finds w64 digits place v) }
{
    let t = trim(digits, place);
    if t.digits <= EXACT && FIRST <= t.place && t.place <= LAST {
        Some(scaled(t))
    } else {
        None
    }
}
