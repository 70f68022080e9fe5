// Bytes put into a lent buffer.
#![tactic(auto)]

ghost use Rattle.std.specs.Prelude.{[], ◌∷◌, ◌+◌, ◌≤◌, ◌<◌, length};
ghost use Rattle.std.proofs.Math.Seq.{slice};
ghost use Rattle.laws.specs.Puts.{Puts};
ghost use Rattle.rules.specs.Bytes.{byte0};
ghost use Rattle.rules.specs.Layout as rules;

// A buffer and a place travel together here, and no struct holds them: with the lent buffer in a field, each method would have to say that the
// field keeps its reference, and what it left behind it only at the struct's end.

// Puts a byte at a place, and answers the place behind it.
pub fn byte(buf: &mut [u8], at: usize, b: u8) -> usize
    requires { at < length buf.old }
    ensures { Puts (b ∷ []) buf.old at buf.new result }
{
    buf[at] = b;
    at + 1
}

// Puts a digit at a place, and answers the place behind it.
pub fn digit(buf: &mut [u8], at: usize, d: u32) -> usize
    requires at_in_bounds { at < length buf.old }
    requires d_bound { d < 10 }
    ensures { Puts ((byte0 + d) ∷ []) buf.old at buf.new result }
{
    byte(buf, at, b'0' + d as u8)
}

// Puts the bytes of a text at a place, and answers the place behind them.
pub fn bytes(buf: &mut [u8], at: usize, text: &[u8]) -> usize
    requires { at + length text.now ≤ length buf.old }
    ensures { Puts text.now buf.old at buf.new result }
{
    let end = at + text.len();
    buf[at..end].copy_from_slice(text);
    end
}

// Puts n zeros at a place, and answers the place behind them.
pub fn zeros(buf: &mut [u8], at: usize, n: usize) -> usize
    requires { at + n ≤ length buf.old }
    ensures { Puts (rules.zeros n) buf.old at buf.new result }
{
    let end = at + n;
    buf[at..end].fill(b'0');
    end
}

// Puts the bytes between two places `by` places further up, the last first, and answers the place behind them. The library's copy_within would
// have the archive for C need memmove of its caller.
pub fn moved(buf: &mut [u8], from: usize, end: usize, by: usize) -> usize
    requires from_le_end { from ≤ end }
    requires by_in_bounds { end + by ≤ length buf.old }
    ensures { Puts (slice from end buf.old) buf.old (from + by) buf.new result }
{
    for i in (from..end).rev() {
        buf[i + by] = buf[i];
    }
    end + by
}
