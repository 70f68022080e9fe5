// The texts of several patterns, put into a buffer with room for them.
#![tactic(auto)]

ghost use Rattle.std.specs.Prelude.{◌*◌, ◌≤◌, length, map};
ghost use Rattle.laws.specs.Puts.{Puts};
ghost use Rattle.rules.specs.Row.{row, row_room};

use powers::Powers;

// Puts the texts of patterns in order with a space between two, and answers how many bytes they are.
pub fn print_row<P: Powers>(patterns: &[P], out: &mut [u8]) -> usize
    requires { row_room * length patterns.now ≤ length out.old }
    ensures { Puts (row P.width (map P.number patterns.now)) out.old 0 out.new result }
{
    let Some((last, others)) = patterns.split_last() else {
        return 0;
    };
    let mut at = 0;
    for pattern in others {
        at += text::print(*pattern, &mut out[at..]);
        at = put::byte(out, at, b' ');
    }
    let last_len = text::print(*last, &mut out[at..]);
    at + last_len
}
