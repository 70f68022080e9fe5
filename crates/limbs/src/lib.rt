// Whole numbers of many digits, as limbs of 32 bits, the lowest first, and how two of them are ordered.
#![tactic(auto)]

ghost use Rattle.std.specs.Prelude.{◌≡◌, ◌+◌, ◌-◌, ◌*◌, ◌/◌, ◌^◌, ◌<◌, ◌≤◌, length};
ghost use Rattle.scan.specs.Mantissa.{mantissa};
ghost use Rattle.limbs.specs.Total.{total, room, Becomes, Fits, Sides};
ghost use Rattle.limbs.specs.Times.{times};
ghost use Rattle.limbs.specs.Stands.{Stands};
ghost use Rattle.limbs.specs.Chunked.{Chunked};

use std::cmp::Ordering;

// A power of five and a power of two.
#[derive(Clone, Copy, PartialEq, Eq, Debug)]
pub struct Factor {
    pub fives: u32,
    pub twos: u32,
}

// a * m + add, in the place of a.
fn mul_add(a: &mut [u32], m: u32, add: u32)
    requires { total a.old * m + add < room a.old }
    ensures { Becomes a.old a.new (total a.old * m + add) }
{
    let mut carry = u64::from(add);
    for limb in a.iter_mut() {
        let t = u64::from(*limb) * u64::from(m) + carry;
        *limb = (t % 4294967296) as u32;
        carry = t / 4294967296;
    }
}

// a * 5^n, thirteen fives at a time.
fn times_fives(a: &mut [u32], n: u32)
    requires { total a.old * 5 ^ n < room a.old }
    ensures { Becomes a.old a.new (total a.old * 5 ^ n) }
{
    for _ in 0..n / 13 {
        mul_add(a, 1220703125, 0);
    }
    mul_add(a, 5u32.pow(n % 13), 0);
}

// a * 5^fives * 2^twos, of fewer twos than a limb has. The bound stands in three contracts and not in `Factor`, which has more twos before whole
// limbs are left out; and the limbs are lent, as a buffer is, so that no struct holds them.
fn scale(a: &mut [u32], by: Factor)
    requires twos_bound { by.twos < 32 }
    requires product_fits { times (total a.old) by < room a.old }
    ensures { Becomes a.old a.new (times (total a.old) by) }
{
    times_fives(a, by.fives);
    mul_add(a, 1 << by.twos, 0);
}

// The number m, into limbs that are all 0.
fn load(a: &mut [u32], m: u64)
    requires is_zero { total a.old ≡ 0 }
    requires in_bounds { 2 ≤ length a.old }
    ensures { Becomes a.old a.new m }
{
    a[0] = (m % 4294967296) as u32;
    a[1] = (m / 4294967296) as u32;
}

// Below this a power of ten takes one more 0 in 32 bits.
const FULL: u32 = 400000000;

// Some digits as a number, 10 to the power of how many they are, and what is behind them.
#[derive(Clone, Copy)]
struct Chunk<'a> {
    number: u32,
    power: u32,
    rest: &'a [u8],
}

// The digits at the head of a text, nine at most; a point among them is passed.
fn next_chunk(digits: &[u8]) -> Chunk<'_>
    ensures { Chunked digits.now result.number result.power result.rest.now }
{
    let mut number: u32 = 0;
    let mut power: u32 = 1;
    let mut rest = digits;
    while power < FULL {
        match rest {
            [b @ b'0'..=b'9', behind @ ..] => {
                number = number * 10 + u32::from(b - b'0');
                power *= 10;
                rest = behind;
            }
            [b'.', behind @ ..] => rest = behind,
            _ => break,
        }
    }
    Chunk {
        number,
        power,
        rest,
    }
}

// The number that a text's digits make, into limbs that are all 0.
fn load_digits(a: &mut [u32], digits: &[u8])
    requires { (total a.old ≡ 0) × (mantissa 0 digits.now < room a.old) }
    ensures { Becomes a.old a.new (mantissa 0 digits.now) }
{
    let mut rest = digits;
    while !rest.is_empty() {
        let c = next_chunk(rest);
        mul_add(a, c.power, c.number);
        if c.power < FULL {
            return;
        }
        rest = c.rest;
    }
}

// How a stands to b, by the highest limb in which they differ.
fn compare(a: &[u32], b: &[u32]) -> Ordering
    requires { length a.now ≡ length b.now }
    ensures { Stands result (total a.now) (total b.now) }
{
    a.iter().rev().cmp(b.iter().rev())
}

// The number that a text's digits make, times 5^fives * 2^twos, into limbs that are all 0. The next function differs in what it loads: a closure
// for that would be longer than the two calls.
fn put_digits(a: &mut [u32], digits: &[u8], by: Factor)
    requires { (by.twos < 32) × Fits a.old (mantissa 0 digits.now) by.fives by.twos }
    ensures { Becomes a.old a.new (times (mantissa 0 digits.now) by) }
{
    load_digits(a, digits);
    scale(a, by);
}

// The number m, times 5^fives * 2^twos, into limbs that are all 0.
fn put_number(a: &mut [u32], m: u64, by: Factor)
    requires { (by.twos < 32) × (2 ≤ length a.old) × Fits a.old m by.fives by.twos }
    ensures { Becomes a.old a.new (times m by) }
{
    load(a, m);
    scale(a, by);
}

// How the products stand, each in limbs that are all 0. Of the twos whole limbs are left out below, and stay 0.
fn settled(
    a: &mut [u32],
    b: &mut [u32],
    digits: &[u8],
    up: Factor,
    m: u64,
    down: Factor,
) -> Ordering
    requires { Sides a.old b.old (mantissa 0 digits.now) up.fives up.twos m down.fives down.twos }
    ensures { Stands result (times (mantissa 0 digits.now) up) (times m down) }
{
    let first = (up.twos / 32) as usize;
    let second = (down.twos / 32) as usize;
    let part = Factor {
        twos: up.twos % 32,
        ..up
    };
    put_digits(&mut a[first..], digits, part);
    let part = Factor {
        twos: down.twos % 32,
        ..down
    };
    put_number(&mut b[second..], m, part);
    compare(a, b)
}

// A number of this many bits, times 5^fives * 2^twos, has no more than these: 5^3 is below 2^7.
fn bits(width: u32, by: Factor) -> u32
    requires { (width ≤ 256) × (by.fives ≤ 410) × (by.twos ≤ 2500) }
    ensures { result ≡ width + 7 * (by.fives / 3 + 1) + by.twos }
{
    width + 7 * (by.fives / 3 + 1) + by.twos
}

// How a text's digits, as one number, times the one factor stand to m times the other. The twos that both have are left out. Two
// fixed arrays hold the limbs, since nothing here takes memory; what is used of each is handed on as a slice.
pub fn against(digits: &[u8], by: Factor, m: u64, other: Factor) -> Ordering
    requires { (length digits.now ≤ 64) × (by.fives ≤ 320) × (other.fives ≤ 410) × (by.twos ≤ 1400) × (other.twos ≤ 2500) }
    ensures { Stands result (times (mantissa 0 digits.now) by) (times m other) }
{
    let up = Factor {
        twos: by.twos.saturating_sub(other.twos),
        ..by
    };
    let down = Factor {
        twos: other.twos.saturating_sub(by.twos),
        ..other
    };
    let left = bits(4 * digits.len() as u32, up);
    let right = bits(64, down);
    let used = (left.max(right) / 32 + 1) as usize;
    let mut a: [u32; 112] = [0u32; 112];
    let mut b: [u32; 112] = [0u32; 112];
    settled(&mut a[..used], &mut b[..used], digits, up, m, down)
}
