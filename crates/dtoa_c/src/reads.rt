// Reading, as functions of C's.
ghost use Rattle.std.specs.Prelude.{◌≡◌};
ghost use Rattle.rules.specs.Width.{w32, w64};
ghost use Rattle.reader.specs.Told.{told};
ghost use Rattle.dtoa_c.specs.Returned.{Told, Returned};

use reader::ReadError;

// An answer of 32 bits: the pattern and 0, or 0 and the number of a refusal. C's structs have no type parameter, so this one and the next are two.
#[repr(C)]
#[derive(Clone, Copy)]
pub struct DtoaRead32 {
    pub pattern: u32,
    pub number: u32,
}

// An answer of 64 bits.
#[repr(C)]
#[derive(Clone, Copy)]
pub struct DtoaRead64 {
    pub pattern: u64,
    pub number: u32,
}

// An outcome's number.
fn number<P: Copy>(o: Result<P, ReadError>) -> u32
    ensures { (f : _) → result ≡ (told f o).number }
{
    match o {
        Ok(_) => 0,
        Err(ReadError::WrongLength) => 10,
        Err(ReadError::WrongForm) => 11,
    }
}

impl From<Result<u32, ReadError>> for DtoaRead32 {
    ghost from_gives = { λ o r. Told (told (λ v. v) o) r.number r.pattern };

    fn from(o: Result<u32, ReadError>) -> DtoaRead32 {
        DtoaRead32 {
            pattern: o.unwrap_or(0),
            number: number(o),
        }
    }
}

impl From<Result<u64, ReadError>> for DtoaRead64 {
    ghost from_gives = { λ o r. Told (told (λ v. v) o) r.number r.pattern };

    fn from(o: Result<u64, ReadError>) -> DtoaRead64 {
        DtoaRead64 {
            pattern: o.unwrap_or(0),
            number: number(o),
        }
    }
}

// Reads a text as binary32.
#[unsafe(no_mangle)]
pub extern "C" fn dtoa_read32(text: &[u8]) -> DtoaRead32
    ensures { Returned w32 text.now result.number result.pattern }
{
    DtoaRead32::from(reader::read::<u32>(text))
}

// Reads a text as binary64.
#[unsafe(no_mangle)]
pub extern "C" fn dtoa_read64(text: &[u8]) -> DtoaRead64
    ensures { Returned w64 text.now result.number result.pattern }
{
    DtoaRead64::from(reader::read::<u64>(text))
}
