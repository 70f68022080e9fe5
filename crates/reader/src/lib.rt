// Reading a text as the nearest pattern of binary32 or binary64.
#![tactic(auto)]

ghost use Rattle.std.specs.Prelude.{◌≡◌, ◌≤◌, ◌<◌, IfSome, length, nat_eq, refl};
ghost use Rattle.std.specs.Option.{ok_or};
ghost use Rattle.rules.specs.Reading.{infinity, with_sign};
ghost use Rattle.rules.specs.Reader.{quiet_nan, reading};
ghost use Rattle.scan.specs.Scans.{Says, Scans};
ghost use Rattle.fast.specs.Quick.{Finds};
ghost use Rattle.reader.specs.declared.ReadError.TheVariants.{WrongForm};
ghost use Rattle.reader.specs.Told.{told};
ghost use Rattle.reader.specs.Widths.{width_of};
ghost use Rattle.reader.specs.Reads.{Reads};
ghost use Rattle.reader.specs.Scaled.{Scaled, Scales};

use bounds::Product;
use closest::Target;
use patterns::Pattern;
use scan::{Decimal, Scanned};

// Why a text is not read: by its length, or by its form.
#[derive(Clone, Copy, PartialEq, Eq, Debug)]
pub enum ReadError {
    WrongLength,
    WrongForm,
}

// A kind of patterns that texts are read as, with the quick way to them, where there is one.
pub trait Quick: Pattern {
    // The nearest pattern to digits at a place, where the quick way finds it.
    fn quickly(digits: u64, place: u32) -> Option<u64>
        requires { place ≤ 30000 }
        ensures { IfSome result (λ v. Finds Self.width digits place v) };

    // The size of a pattern tells its width.
    ghost told_by_size: { Self.width ≡ width_of (nat_eq Self.SIZE 64) };
}

// No number is sought by floats of 32 bits: too few powers of ten are exact there.
impl Quick for u32 {
    fn quickly(_digits: u64, _place: u32) -> Option<u64> {
        None
    }

    ghost told_by_size = { refl };
}

impl Quick for u64 {
    fn quickly(digits: u64, place: u32) -> Option<u64> {
        fast::quickly(digits, place)
    }

    ghost told_by_size = { refl };
}

// The longest text that is read.
const LONGEST: usize = 64;

// The places of the first and the last power of ten in the table.
const FIRST: u32 = 9758;

const LAST: u32 = 10408;

// The product of digits and their power of ten, where the table has it.
fn scaled(digits: u64, place: u32) -> Option<Product>
    ensures { Scales digits place result }
{
    if digits != 0 && FIRST <= place && place <= LAST {
        Some(bounds::multiplied(digits, (place - FIRST) as usize))
    } else {
        None
    }
}

// The pattern without a sign that a number reads as, by both ends of its product, and where those differ by exact comparison. What is known
// of the text stands in three contracts: a struct of a text and its number would be taken apart in each.
fn compared<P: Pattern>(text: &[u8], x: Decimal, p: Product) -> u64
    requires says { (0 < length text.now) × (length text.now ≤ 64) × Says text.now x }
    requires scaled { Scaled x.held.digits x.place p.upper p.exponent }
    ensures { Reads P.width text.now x result }
{
    let t = Target::of::<P>();
    let ends = p.around(x.held.more, t);
    if ends.least == ends.most {
        return ends.least;
    }
    settle::settle(
        &text[usize::from(x.negative)..],
        x.place - x.held.dropped,
        ends.least,
        ends.most,
        t,
    )
}

// The pattern without a sign that a number reads as: by its product at once, by the quick way where that serves, or by comparison.
fn magnitude<P: Quick>(text: &[u8], x: Decimal, product: Option<Product>) -> u64
    requires says { (0 < length text.now) × (length text.now ≤ 64) × Says text.now x }
    requires scaled { Scales x.held.digits x.place product }
    ensures { Reads P.width text.now x result }
{
    let Some(p) = product else {
        return if x.held.digits == 0 || x.place < FIRST {
            0
        } else {
            infinity::<P>()
        };
    };
    if let Some(v) = p.at_once(x.held.more, Target::of::<P>()) {
        return v;
    }
    if !x.held.more {
        if let Some(v) = P::quickly(x.held.digits, x.place) {
            return v;
        }
    }
    compared::<P>(text, x, p)
}

// The pattern of the infinity.
fn infinity<P: Pattern>() -> u64
    ensures { result ≡ infinity P.width }
{
    closest::infinity(Target::of::<P>())
}

// The pattern that `NaN` is read as.
fn quiet_nan<P: Pattern>() -> u64
    ensures { result ≡ quiet_nan P.width }
{
    infinity::<P>() + (1 << (P::FRACTION - 1))
}

// A pattern with a sign. The sign is added as a number, since no branch on it can be foreseen.
fn signed<P: Pattern>(negative: bool, v: u64) -> u64
    requires { v ≤ infinity P.width }
    ensures { result ≡ with_sign P.width negative v }
{
    (u64::from(negative) << (P::SIZE - 1)) + v
}

// Reads a text at 64 bits if wide, else at 32. It has no type parameter for the sake of speed, which was tried and was a fifth less: the scan
// and the product are called here alone, and so become a part of this function when it is compiled.
fn read_bits(text: &[u8], wide: bool) -> Option<u64>
    requires { (0 < length text.now) × (length text.now ≤ 64) }
    ensures { told (λ v. v) (ok_or result WrongForm) ≡ reading (width_of wide) text.now }
{
    match scan::scan(text)? {
        Scanned::NotANumber => Some(if wide {
            quiet_nan::<u64>()
        } else {
            quiet_nan::<u32>()
        }),
        Scanned::Infinite(negative) => Some(if wide {
            signed::<u64>(negative, infinity::<u64>())
        } else {
            signed::<u32>(negative, infinity::<u32>())
        }),
        Scanned::Number(x) => {
            let product = scaled(x.held.digits, x.place);
            Some(if wide {
                signed::<u64>(x.negative, magnitude::<u64>(text, x, product))
            } else {
                signed::<u32>(x.negative, magnitude::<u32>(text, x, product))
            })
        }
    }
}

// Reads a text.
pub fn read<P: Quick>(text: &[u8]) -> Result<P, ReadError>
    ensures { told P.number result ≡ reading P.width text.now }
{
    if text.is_empty() || LONGEST < text.len() {
        return Err(ReadError::WrongLength);
    }
    let bits = read_bits(text, P::SIZE == 64).ok_or(ReadError::WrongForm)?;
    Ok(P::pattern(bits))
}
