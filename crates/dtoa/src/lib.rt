// Floats as text: patterns of 32 and of 64 bits printed into a lent buffer, one in a call or a row of them, as the Rust crate dtoa prints each.
#![tactic(auto)]

ghost use Rattle.std.specs.Prelude.{map};
ghost use Rattle.rules.specs.Answer.{every, finite_only};
ghost use Rattle.dtoa.specs.Meets.{Meets};
ghost use Rattle.dtoa.specs.MeetsRow.{MeetsRow};

use powers::Powers;

// Why a pattern is not printed. The buffer is as it was.
#[derive(Clone, Copy, PartialEq, Eq, Debug)]
pub enum Refusal {
    TooShort,
    NotFinite,
}

// Why a row is not printed. The buffer is as it was.
#[derive(Clone, Copy, PartialEq, Eq, Debug)]
pub enum RowRefusal {
    TooMany,
    TooShort,
}

// The fewest bytes that a lent buffer has to have.
const ROOM: usize = 25;

// The most patterns that a row may have.
const ROW_LIMIT: usize = 4096;

// The fewest bytes that a lent buffer has to have for each pattern of a row.
const ROW_ROOM: usize = 26;

// Prints any pattern, a u32 or a u64, and answers the text's length.
pub fn format<P: Powers>(pattern: P, buf: &mut [u8]) -> Result<usize, Refusal>
    ensures { Meets every P.width (P.number pattern) buf.old result buf.new }
{
    if buf.len() < ROOM {
        return Err(Refusal::TooShort);
    }
    Ok(text::print(pattern, buf))
}

// Prints a finite pattern, and refuses NaN and infinity.
pub fn format_finite<P: Powers>(pattern: P, buf: &mut [u8]) -> Result<usize, Refusal>
    ensures { Meets finite_only P.width (P.number pattern) buf.old result buf.new }
{
    if buf.len() < ROOM {
        return Err(Refusal::TooShort);
    }
    if text::bits::is_special(pattern) {
        return Err(Refusal::NotFinite);
    }
    Ok(text::print(pattern, buf))
}

// Prints any patterns, up to 4,096, with a space between two, and answers the row's length.
pub fn format_row<P: Powers>(patterns: &[P], out: &mut [u8]) -> Result<usize, RowRefusal>
    ensures { MeetsRow P.width (map P.number patterns.now) out.old result out.new }
{
    if ROW_LIMIT < patterns.len() {
        return Err(RowRefusal::TooMany);
    }
    if out.len() < ROW_ROOM * patterns.len() {
        return Err(RowRefusal::TooShort);
    }
    Ok(row::print_row(patterns, out))
}
