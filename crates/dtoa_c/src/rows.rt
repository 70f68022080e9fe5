// The call for a row as a function of C's.
ghost use Rattle.std.specs.Prelude.{refl};
ghost use Rattle.rules.specs.Width.{w32};
ghost use Rattle.dtoa.specs.MeetsRow.{row_told};
ghost use Rattle.dtoa.specs.declared.RowRefusal.TheVariants.{TooMany, TooShort};
ghost use Rattle.dtoa_c.specs.Exported.{ExportedRow};

use crate::{DtoaPrinted, Numbered, answered};
use dtoa::RowRefusal;

impl Numbered for RowRefusal {
    ghost told = { row_told };

    ghost printed = { λ n. refl };

    ghost refused = { elim [ TooMany ↦ refl | TooShort ↦ refl ] };

    fn number(self) -> u32 {
        match self {
            RowRefusal::TooMany => 3,
            RowRefusal::TooShort => 4,
        }
    }
}

// Prints any patterns of 32 bits, up to 4,096, with a space between two.
#[unsafe(no_mangle)]
pub extern "C" fn dtoa_format_row32(patterns: &[u32], out: &mut [u8]) -> DtoaPrinted
    ensures { ExportedRow w32 patterns.now out.old result.number result.length out.new }
{
    answered(dtoa::format_row(patterns, out))
}
