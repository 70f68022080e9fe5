// The text of a pattern, put into a buffer with room for it.
#![tactic(auto)]

ghost use Rattle.std.specs.Prelude.{not, ◌+◌, ◌<◌, ◌≤◌, T, eqb, length};
ghost use Rattle.laws.specs.Puts.{Puts};
ghost use Rattle.rules.specs.Pattern.{negative, significand, special, magnitude};
ghost use Rattle.rules.specs.Text.{text, shown};
ghost use Rattle.text.specs.Spelled.{dash, name};

use patterns::Pattern;
use powers::Powers;

pub mod bits;

// Puts a `-` where a number is negative, and answers the place behind it.
fn put_sign(negative: bool, buf: &mut [u8]) -> usize
    requires { 0 < length buf.old }
    ensures { Puts (dash negative) buf.old 0 buf.new result }
{
    if negative {
        return put::byte(buf, 0, b'-');
    }
    0
}

// Puts the name of an infinity or of a NaN, and answers its length.
fn put_name<P: Pattern>(pattern: P, buf: &mut [u8]) -> usize
    requires { 4 ≤ length buf.old }
    ensures { Puts (name (negative P.width (P.number pattern)) (eqb (significand P.width (P.number pattern)) 0)) buf.old 0 buf.new result }
{
    if bits::is_bare(pattern) {
        let at = put_sign(bits::is_negative(pattern), buf);
        return put::bytes(buf, at, b"inf");
    }
    put::bytes(buf, 0, b"NaN")
}

// Puts the text of a finite magnitude, and answers its length.
fn magnitude<P: Powers>(pattern: P, buf: &mut [u8]) -> usize
    requires finite { T (not (special P.width (P.number pattern))) }
    requires in_bounds { 24 ≤ length buf.old }
    ensures { Puts (shown P.width (magnitude P.width (P.number pattern))) buf.old 0 buf.new result }
{
    if bits::is_zero(pattern) {
        return put::bytes(buf, 0, b"0.0");
    }
    let d = grisu::grisu2(pattern, buf);
    layout::prettify(buf, d.len, d.k)
}

// Puts the text of a pattern, and answers its length. The pattern and the buffer stay apart, since the buffer is lent, as in `put`.
pub fn print<P: Powers>(pattern: P, buf: &mut [u8]) -> usize
    requires { 25 ≤ length buf.old }
    ensures { Puts (text P.width (P.number pattern)) buf.old 0 buf.new result }
{
    if bits::is_special(pattern) {
        return put_name(pattern, buf);
    }
    let at = put_sign(bits::is_negative(pattern), buf);
    at + magnitude(pattern, &mut buf[at..])
}
