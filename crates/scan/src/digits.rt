// Digits: one by one, or eight at a time, with what is kept of the number they make.
ghost use Rattle.std.specs.Prelude.{◌≡◌, ℕ, ◌+◌, ◌-◌, ◌*◌, ◌^◌, ◌<◌, ◌≤◌, true, false, [], length, drop, MatchOption, IfSome};
ghost use Rattle.rules.specs.Bytes.{byte0};
ghost use Rattle.rules.specs.Reading.{is_digit};
ghost use Rattle.scan.specs.Heads.{starts};
ghost use Rattle.scan.specs.Passes.{Makes, Ends};
ghost use Rattle.scan.specs.Spells.{Joins, Spells};
ghost use Rattle.scan.specs.Goes.{Keeps, all_of, no_digits, Goes, Reaches};

use crate::heads;

// What is kept of digits: the number that the first 19 at most make, how many follow, and whether one of those is not 0.
#[derive(Clone, Copy, PartialEq, Eq, Debug)]
pub struct Held {
    pub digits: u64,
    pub dropped: u32,
    pub more: bool,
}

// What is kept of digits, and the text behind them.
#[derive(Clone, Copy)]
pub struct Run<'a> {
    pub held: Held,
    pub rest: &'a [u8],
}

// A number of digits that are kept has room for another below this.
const ROOM: u64 = 1000000000000000000;

// Eight digits 0.
const ZEROS: u64 = 0x3030_3030_3030_3030;

// The value of a digit. One subtraction and one test: the library's `to_digit` takes a `char` and answers a u32, two conversions more.
pub fn value(b: u8) -> Option<u64>
    ensures { MatchOption result (is_digit b ≡ false) (λ v. (is_digit b ≡ true) × (v ≡ b - byte0)) }
{
    let v = u64::from(b).wrapping_sub(u64::from(b'0'));
    (v < 10).then_some(v)
}

// Digits that are all kept.
fn all_of(digits: u64) -> Held
    ensures { result ≡ all_of digits }
{
    Held {
        digits,
        dropped: 0,
        more: false,
    }
}

// As many as n digits more, for which there is room.
fn longer(held: Held, n: usize, v: u64) -> Held
    requires { (n ≤ 18) × (held.digits < 10 ^ 18) × (held.digits * 10 ^ n + v < 10 ^ 19) }
    ensures { (result.dropped ≡ held.dropped) × ((a : ℕ) → Keeps a held → Keeps (a * 10 ^ n + v) result) }
{
    Held {
        digits: held.digits * places::pow10(n) + v,
        ..held
    }
}

// Digits at the head of a text, one by one, while there is room for them. Here and below a text comes with what is held before it: a `Run` has
// both, and is what is answered, but each caller would have to make one first.
fn kept(text: &[u8], start: Held) -> Run<'_>
    ensures goes { Goes text.now start result.rest.now result.held }
    ensures ends { result.held.digits < 10 ^ 18 → starts result.rest.now ≡ false }
{
    let mut digits = start.digits;
    let mut rest = text;
    while digits < ROOM {
        let [b, behind @ ..] = rest else {
            break;
        };
        let Some(digit) = value(*b) else {
            break;
        };
        digits = digits * 10 + digit;
        rest = behind;
    }
    let held = Held { digits, ..start };
    Run { held, rest }
}

// Digits at the head of a text for which there is no room.
fn dropped(text: &[u8], start: Held) -> Run<'_>
    requires { (10 ^ 18 ≤ start.digits) × (start.dropped + length text.now ≤ 64) }
    ensures { Reaches text.now start result.rest.now result.held }
{
    let mut held = start;
    let mut rest = text;
    while let [b, behind @ ..] = rest {
        let Some(digit) = value(*b) else {
            break;
        };
        held.dropped += 1;
        held.more |= digit != 0;
        rest = behind;
    }
    Run { held, rest }
}

// The digits at the head of a text, one by one.
fn digits(text: &[u8], start: Held) -> Run<'_>
    requires { start.dropped + length text.now ≤ 64 }
    ensures { Reaches text.now start result.rest.now result.held }
{
    let front = kept(text, start);
    if front.held.digits < ROOM {
        return front;
    }
    dropped(front.rest, front.held)
}

// Digits at the head of a text, one by one, 18 at most: all of them are kept, with no test for room.
fn leading(text: &[u8]) -> Run<'_>
    ensures { Goes text.now no_digits result.rest.now result.held }
{
    let front = &text[..text.len().min(18)];
    let mut n: u64 = 0;
    for (i, b) in front.iter().enumerate() {
        let Some(digit) = value(*b) else {
            return Run {
                held: all_of(n),
                rest: &text[i..],
            };
        };
        n = n * 10 + digit;
    }
    Run {
        held: all_of(n),
        rest: &text[front.len()..],
    }
}

// The digits at the head of a text, before which there are none.
pub fn whole(text: &[u8]) -> Run<'_>
    requires { length text.now ≤ 64 }
    ensures { Reaches text.now no_digits result.rest.now result.held }
{
    let front = leading(text);
    if heads::starts(front.rest) {
        return digits(front.rest, front.held);
    }
    front
}

// The number that eight digits make, each in a byte of a word and the first the lowest.
fn joined(n: u64) -> u64
    requires { n ≤ 0x0F0F_0F0F_0F0F_0F0F }
    ensures { Joins n result }
{
    let twos = (n * 10 + (n >> 8)) & 0x00FF_00FF_00FF_00FF;
    let fours = (twos * 100 + (twos >> 16)) & 0x0000_FFFF_0000_FFFF;
    (fours * 10000 + (fours >> 32)) & 0xFFFF_FFFF
}

// The number that eight digits make, each in a byte of a word by its value and the first the lowest, if none is above 9.
fn spelled(v: u64) -> Option<u64>
    ensures { IfSome result (Spells v) }
{
    if v & 0xF0F0_F0F0_F0F0_F0F0 != 0 {
        return None;
    }
    let n = v & 0x0F0F_0F0F_0F0F_0F0F;
    if (n + 0x0606_0606_0606_0606) & 0xF0F0_F0F0_F0F0_F0F0 != 0 {
        return None;
    }
    Some(joined(n))
}

// The number that the first eight bytes of a text make, if all are digits.
fn first(text: &[u8]) -> Option<u64>
    ensures { IfSome result (λ v. (8 ≤ length text.now) × (v < 100000000) × Makes 8 text.now v (drop 8 text.now)) }
{
    spelled(u64::from_le_bytes(*text.first_chunk::<8>()?) ^ ZEROS)
}

// The number that the last n bytes of a text make if all are digits: those before count as 0.
fn last(text: &[u8], n: usize) -> Option<u64>
    requires { (0 < n) × (n ≤ 8) }
    ensures { IfSome result (λ v. (v < 100000000) × Makes n (drop (length text.now - n) text.now) v []) }
{
    let v = u64::from_le_bytes(*text.last_chunk::<8>()?) ^ ZEROS;
    let skip = 64 - 8 * n;
    spelled(v >> skip << skip)
}

// Digits at the head of a text, eight at a time while there are as many and all are kept.
fn eights(text: &[u8], start: Held) -> Run<'_>
    ensures { Goes text.now start result.rest.now result.held }
{
    let mut held = start;
    let mut rest = text;
    while held.digits < 10000000000 {
        let Some(v) = first(rest) else {
            break;
        };
        held = longer(held, 8, v);
        rest = &rest[8..];
    }
    Run { held, rest }
}

// What is kept with all of a text's end, if that is eight digits at most and all are kept.
fn ending(text: &[u8], end: &[u8], start: Held) -> Option<Held>
    requires { Ends text.now end.now }
    ensures { IfSome result (Goes end.now start []) }
{
    let n = end.len();
    if n == 0 || 8 < n || places::pow10(18 - n) <= start.digits {
        return None;
    }
    Some(longer(start, n, last(text, n)?))
}

// The digits at the head of a text's end: eight at a time, those at the end, and what is left one by one.
pub fn decimals<'a>(text: &[u8], end: &'a [u8], start: Held) -> Run<'a>
    requires { Ends text.now end.now × (start.dropped + length end.now ≤ 64) }
    ensures { Reaches end.now start result.rest.now result.held }
{
    let front = eights(end, start);
    match ending(text, front.rest, front.held) {
        Some(held) => Run { held, rest: &[] },
        None => digits(front.rest, front.held),
    }
}
