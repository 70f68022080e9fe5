// The arithmetic of decimal places: how many digits a number has, its parts, and how far its last digit falls.
#![tactic(auto)]

ghost use Rattle.std.specs.Prelude.{◌≡◌, ◌+◌, ◌*◌, ◌%◌, ◌^◌, ◌≤◌, ◌<◌};
ghost use Rattle.rules.specs.Digits.{falls, closer as isCloser};
ghost use Rattle.places.specs.Places.{count_to_nine, measure, SplitAt, distance_under};

// How many decimal digits n has; from 100,000,000 up it says 9. By tests, as in the crate: the library's `ilog10` has none at 0, and 9 would have
// to be tested for all the same.
pub fn count_decimal_digit32(n: u32) -> usize
    ensures { result ≡ count_to_nine n }
{
    if n < 10 {
        1
    } else if n < 100 {
        2
    } else if n < 1000 {
        3
    } else if n < 10000 {
        4
    } else if n < 100000 {
        5
    } else if n < 1000000 {
        6
    } else if n < 10000000 {
        7
    } else if n < 100000000 {
        8
    } else {
        9
    }
}

// 10^n, by a table: with the library's `pow`, which is a loop, a short number takes a fifth longer to read.
pub fn pow10(n: usize) -> u64
    requires { n < 19 }
    ensures { result ≡ 10 ^ n }
{
    match n {
        0 => 1,
        1 => 10,
        2 => 100,
        3 => 1000,
        4 => 10000,
        5 => 100000,
        6 => 1000000,
        7 => 10000000,
        8 => 100000000,
        9 => 1000000000,
        10 => 10000000000,
        11 => 100000000000,
        12 => 1000000000000,
        13 => 10000000000000,
        14 => 100000000000000,
        15 => 1000000000000000,
        16 => 10000000000000000,
        17 => 100000000000000000,
        _ => 1000000000000000000,
    }
}

// A number without its last digits, and those.
#[derive(Clone, Copy)]
pub struct Split {
    pub front: u32,
    pub back: u32,
}

// A number split before its last kappa digits. Each arm divides by a constant: with a division by `pow10(kappa)`, which was tried, heights take
// 1.6 times as long to print as by the crate, where they take 0.9.
pub fn split_digits(p: u32, kappa: usize) -> Split
    requires { kappa < 9 }
    ensures { SplitAt p kappa result.front result.back }
{
    match kappa {
        0 => Split { front: p, back: 0 },
        1 => Split {
            front: p / 10,
            back: p % 10,
        },
        2 => Split {
            front: p / 100,
            back: p % 100,
        },
        3 => Split {
            front: p / 1000,
            back: p % 1000,
        },
        4 => Split {
            front: p / 10000,
            back: p % 10000,
        },
        5 => Split {
            front: p / 100000,
            back: p % 100000,
        },
        6 => Split {
            front: p / 1000000,
            back: p % 1000000,
        },
        7 => Split {
            front: p / 10000000,
            back: p % 10000000,
        },
        _ => Split {
            front: p / 100000000,
            back: p % 100000000,
        },
    }
}

// The bits of v below bit x.
pub fn low_bits(v: u64, x: u32) -> u64
    requires { x ≤ 60 }
    ensures { result ≡ v % 2 ^ x }
{
    v & ((1 << x) - 1)
}

// v times 2^x.
pub fn shifted(v: u64, x: u32) -> u64
    requires x_bound { x ≤ 60 }
    requires shifted_fits { v * 2 ^ x < 2 ^ 64 }
    ensures { result ≡ v * 2 ^ x }
{
    v << x
}

// The distance of the value at a place n below zero. From n = 9 on it is 0, as in the crate.
pub fn distance_under(gap: u64, n: usize) -> u64
    requires { gap * 10 ^ n < 2 ^ 64 }
    ensures { result ≡ distance_under gap n }
{
    if n <= 8 {
        return gap * pow10(n);
    }
    0
}

// Whether the last digit falls once more. The four numbers travel together in these two functions alone, and their one caller has them in a
// struct with more.
fn closer(unit: u64, room: u64, distance: u64, rest: u64) -> bool
    requires { rest ≤ room }
    ensures { result ≡ isCloser (measure unit room distance) rest }
{
    if distance <= rest {
        return false;
    }
    if room - rest < unit {
        return false;
    }
    let next = rest + unit;
    if next < distance {
        return true;
    }
    next - distance < distance - rest
}

// How often the last digit falls. That is not known before, so the loop goes by its test: the count is the answer, and no index.
pub fn grisu_round(unit: u64, room: u64, distance: u64, rest: u64) -> u8
    requires rest_le_room { rest ≤ room }
    requires room_bound { room < rest + 10 * unit }
    ensures { result ≡ falls (measure unit room distance) 10 rest }
{
    let mut fallen: u8 = 0;
    let mut at = rest;
    while closer(unit, room, distance, at) {
        at += unit;
        fallen += 1;
    }
    fallen
}
