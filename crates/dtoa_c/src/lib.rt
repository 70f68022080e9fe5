// The C interface: each call of the printer as a function of C's, with its answer as two numbers.
#![tactic(auto)]

ghost use Rattle.std.specs.Prelude.{◌≡◌, ℕ, ◌*◌, ◌≤◌, refl, Result, Ok, Err};
ghost use Rattle.rules.specs.Width.{w32, w64};
ghost use Rattle.rules.specs.Answer.{every, finite_only, Answer};
ghost use Rattle.rules.specs.Row.{row_limit, row_room};
ghost use Rattle.dtoa.specs.declared.Refusal.TheVariants.{TooShort, NotFinite};
ghost use Rattle.dtoa.specs.Meets.{told};
ghost use Rattle.dtoa_c.specs.Exported.{Exported};

use dtoa::Refusal;

pub mod reads;
pub mod rows;

// An answer: 0 and the length of the text, or the number of a refusal and 0. C has neither `Result` nor type parameters: so the refusals have
// numbers here, and each width a function.
#[repr(C)]
#[derive(Clone, Copy)]
pub struct DtoaPrinted {
    pub number: u32,
    pub length: u32,
}

// A refusal that C gets as a number.
trait Numbered {
    ghost told: { Result ℕ Self → Answer };

    fn number(self) -> u32
        ensures { result ≡ (told (Err self)).number };

    // What is printed has number 0, and a refusal length 0.
    ghost printed: { (n : ℕ) → told (Ok n) ≡ record { number = 0; len = n } };

    ghost refused: { (e : Self) → (told (Err e)).len ≡ 0 };
}

impl Numbered for Refusal {
    ghost told = { told };

    ghost printed = { λ n. refl };

    ghost refused = { elim [ TooShort ↦ refl | NotFinite ↦ refl ] };

    fn number(self) -> u32 {
        match self {
            Refusal::TooShort => 1,
            Refusal::NotFinite => 2,
        }
    }
}

// A result as its number and its length. A `From` could not ask that the length fits.
fn answered<E: Numbered>(o: Result<usize, E>) -> DtoaPrinted
    requires { (E.told o).len ≤ row_room * row_limit }
    ensures number { result.number ≡ (E.told o).number }
    ensures length { result.length ≡ (E.told o).len }
{
    match o {
        Ok(n) => DtoaPrinted {
            number: 0,
            length: n as u32,
        },
        Err(refusal) => DtoaPrinted {
            number: refusal.number(),
            length: 0,
        },
    }
}

// Prints any pattern of 32 bits.
#[unsafe(no_mangle)]
pub extern "C" fn dtoa_format32(bits: u32, buf: &mut [u8]) -> DtoaPrinted
    ensures { Exported every w32 bits buf.old result.number result.length buf.new }
{
    answered(dtoa::format(bits, buf))
}

// Prints any pattern of 64 bits.
#[unsafe(no_mangle)]
pub extern "C" fn dtoa_format64(bits: u64, buf: &mut [u8]) -> DtoaPrinted
    ensures { Exported every w64 bits buf.old result.number result.length buf.new }
{
    answered(dtoa::format(bits, buf))
}

// Prints a finite pattern of 32 bits, and refuses NaN and infinity.
#[unsafe(no_mangle)]
pub extern "C" fn dtoa_format_finite32(bits: u32, buf: &mut [u8]) -> DtoaPrinted
    ensures { Exported finite_only w32 bits buf.old result.number result.length buf.new }
{
    answered(dtoa::format_finite(bits, buf))
}

// Prints a finite pattern of 64 bits, and refuses NaN and infinity.
#[unsafe(no_mangle)]
pub extern "C" fn dtoa_format_finite64(bits: u64, buf: &mut [u8]) -> DtoaPrinted
    ensures { Exported finite_only w64 bits buf.old result.number result.length buf.new }
{
    answered(dtoa::format_finite(bits, buf))
}
