// From the bytes of a text to its sign, its first digits and its power of ten.
#![tactic(auto)]

ghost use Rattle.std.specs.Prelude.{◌≡◌, ℕ, ◌<◌, ◌≤◌, true, false, length};
ghost use Rattle.rules.specs.Reading.{unsigned, decimals_more};
ghost use Rattle.scan.specs.Mantissa.{mantissa};
ghost use Rattle.scan.specs.Signs.{Signs};
ghost use Rattle.scan.specs.Heads.{starts};
ghost use Rattle.scan.specs.Goes.{Keeps};
ghost use Rattle.scan.specs.Scans.{Scans, Tells};

mod digits;
mod heads;
mod power;

pub use digits::Held;
use digits::Run;
use heads::Signed;

// A number: its sign, what is kept of its digits, and the power of ten of the last digit that is kept, 10,100 added.
#[derive(Clone, Copy, PartialEq, Eq, Debug)]
pub struct Decimal {
    pub negative: bool,
    pub held: Held,
    pub place: u32,
}

// What a text says.
#[derive(Clone, Copy, PartialEq, Eq, Debug)]
pub enum Scanned {
    NotANumber,
    Infinite(bool),
    Number(Decimal),
}

// The number whose digits end before the rest of a text, n of them behind the point.
fn finished(run: Run<'_>, n: usize, negative: bool) -> Option<Decimal>
    requires { (starts run.rest.now ≡ false) × (run.held.dropped ≤ 64) × (n ≤ 64) }
    ensures { (a : ℕ) → Keeps a run.entry.held →
        Tells (decimals_more a n run.entry.rest.now) (mantissa a run.entry.rest.now) negative result }
{
    let power = power::raised(run.rest)?;
    Some(Decimal {
        negative,
        held: run.held,
        place: power + 100 + run.held.dropped - n as u32,
    })
}

// The number of a text that begins with a digit behind its sign. That a text has 64 bytes at most stands where digits are counted, in three
// contracts: no struct holds a text with it, since every function below takes what is left of one.
fn number(text: &[u8], x: Signed<'_>) -> Option<Decimal>
    requires { Signs text.now x.negative x.rest.now × (length text.now ≤ 64) × (starts x.rest.now ≡ true) }
    ensures { Tells (unsigned x.entry.rest.now) (mantissa 0 x.entry.rest.now) x.entry.negative result }
{
    let whole = digits::whole(x.rest);
    let [b'.', behind @ ..] = whole.rest else {
        return finished(whole, 0, x.negative);
    };
    let all = digits::decimals(text, behind, whole.held);
    let n = behind.len() - all.rest.len();
    if n == 0 {
        return None;
    }
    finished(all, n, x.negative)
}

// What a text says that is no number: a word, or nothing.
fn word(text: &[u8], x: Signed<'_>) -> Option<Scanned>
    requires { Signs text.now x.negative x.rest.now × (starts x.rest.now ≡ false) }
    ensures { Scans text.now result }
{
    if text == b"NaN".as_slice() {
        return Some(Scanned::NotANumber);
    }
    (x.rest == b"inf".as_slice()).then_some(Scanned::Infinite(x.negative))
}

// Reads a text as far as its digits.
pub fn scan(text: &[u8]) -> Option<Scanned>
    requires { length text.now ≤ 64 }
    ensures { Scans text.now result }
{
    let x = heads::sign(text);
    if !heads::starts(x.rest) {
        return word(text, x);
    }
    Some(Scanned::Number(number(text, x)?))
}
