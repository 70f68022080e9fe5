// The layout of digits and an exponent, in the lent buffer that holds the digits.
#![tactic(auto)]

ghost use Rattle.std.specs.Prelude.{◌≡◌, ◌∷◌, ◌++◌, ◌+◌, ◌≤◌, ◌<◌, nat_abs, pos, length, take, drop};
ghost use Rattle.std.proofs.Math.IntN.{sub_ℕ};
ghost use Rattle.laws.specs.Puts.{Puts};
ghost use Rattle.rules.specs.Bytes.{bytes, byte0, point, letter_e};
ghost use Rattle.rules.specs.Numbers.{plain};
ghost use Rattle.rules.specs.Layout as rules;
ghost use Rattle.rules.specs.Layout.{exponent, layout};
ghost use Rattle.layout.specs.Layout.{Laying};

// Writes a number of up to three digits, and answers how many they are. By hand: the library writes numbers through a formatter, of which the
// proof of each byte would be longer than these lines.
fn write_small(n: u32, buf: &mut [u8]) -> usize
    requires n_bound { n < 1000 }
    requires in_bounds { 3 ≤ length buf.old }
    ensures { Puts (plain n) buf.old 0 buf.new result }
{
    if n < 10 {
        return put::digit(buf, 0, n);
    }
    if n < 100 {
        let at = put::digit(buf, 0, n / 10);
        return put::digit(buf, at, n % 10);
    }
    let tens = put::digit(buf, 0, n / 100);
    let ones = put::digit(buf, tens, n / 10 % 10);
    put::digit(buf, ones, n % 10)
}

// Writes an exponent of up to three digits, and answers its length.
pub fn write_exponent(k: i32, buf: &mut [u8]) -> usize
    requires k_bound { nat_abs k < 1000 }
    requires in_bounds { 4 ≤ length buf.old }
    ensures { Puts (exponent k) buf.old 0 buf.new result }
{
    let n = k.unsigned_abs();
    if k < 0 {
        let at = put::byte(buf, 0, b'-');
        return at + write_small(n, &mut buf[at..]);
    }
    write_small(n, buf)
}

// Puts `e` and an exponent at a place, and answers the place behind them.
fn put_exponent(buf: &mut [u8], at: usize, e: i32) -> usize
    requires e_bound { nat_abs e < 1000 }
    requires at_in_bounds { at + 5 ≤ length buf.old }
    ensures { Puts (letter_e ∷ exponent e) buf.old at buf.new result }
{
    let next = put::byte(buf, at, b'e');
    next + write_exponent(e, &mut buf[next..])
}

// The buffer and the digits' count travel together below, and no struct holds them: with the lent buffer in a field, each method would
// have to say that the field keeps its reference, and what it left behind it only at the struct's end.

// Lays digits out with an exponent: 1e30, and 1234e30 as 1.234e33.
fn scientific(buf: &mut [u8], len: usize, e: i32) -> usize
    requires laying { Laying len (length buf.old) }
    requires e_bound { nat_abs e < 1000 }
    ensures { Puts (rules.scientific (take len buf.old) e) buf.old 0 buf.new result }
{
    if len == 1 {
        return put_exponent(buf, 1, e);
    }
    let end = put::moved(buf, 1, len, 1);
    put::byte(buf, 1, b'.');
    put_exponent(buf, end, e)
}

// Lays digits out with zeros behind them: 1234e7 as 12340000000.0.
fn whole(buf: &mut [u8], len: usize, zeros: usize) -> usize
    requires laying { Laying len (length buf.old) }
    requires zeros_bound { len + zeros ≤ 21 }
    ensures { Puts (take len buf.old ++ (rules.zeros zeros ++ bytes ".0")) buf.old 0 buf.new result }
{
    let next = put::zeros(buf, len, zeros);
    put::bytes(buf, next, b".0")
}

// Lays digits out with a point behind the first kk of them: 1234e-2 as 12.34.
fn inner(buf: &mut [u8], len: usize, kk: usize) -> usize
    requires laying { Laying len (length buf.old) }
    requires kk_lt_len { kk < len }
    ensures { Puts (take kk (take len buf.old) ++ (point ∷ drop kk (take len buf.old))) buf.old 0 buf.new result }
{
    let end = put::moved(buf, kk, len, 1);
    put::byte(buf, kk, b'.');
    end
}

// Lays digits out with zeros between the point and them: 1234e-6 as 0.001234.
fn small(buf: &mut [u8], len: usize, zeros: usize) -> usize
    requires laying { Laying len (length buf.old) }
    requires zeros_bound { zeros < 6 }
    ensures { Puts (byte0 ∷ point ∷ (rules.zeros zeros ++ take len buf.old)) buf.old 0 buf.new result }
{
    let end = put::moved(buf, 0, len, zeros + 2);
    let next = put::byte(buf, 0, b'0');
    let first = put::byte(buf, next, b'.');
    put::zeros(buf, first, zeros);
    end
}

// Lays digits out with the exponent k.
fn upward(buf: &mut [u8], len: usize, k: usize) -> usize
    requires laying { Laying len (length buf.old) }
    requires k_bound { k < 900 }
    ensures { Puts (layout (take len buf.old) (pos k)) buf.old 0 buf.new result }
{
    if len + k <= 21 {
        return whole(buf, len, k);
    }
    scientific(buf, len, (len + k - 1) as i32)
}

// Lays digits out with the exponent -k.
fn downward(buf: &mut [u8], len: usize, k: usize) -> usize
    requires laying { Laying len (length buf.old) }
    requires k_nonzero { 0 < k }
    requires k_bound { k < 900 }
    ensures { Puts (layout (take len buf.old) (sub_ℕ 0 k)) buf.old 0 buf.new result }
{
    if k < len {
        return inner(buf, len, len - k);
    }
    let zeros = k - len;
    if zeros < 6 {
        return small(buf, len, zeros);
    }
    scientific(buf, len, 0 - (zeros + 1) as i32)
}

// Lays the first `len` bytes of the buffer, which are digits, out with the exponent k, and answers the text's length.
pub fn prettify(buf: &mut [u8], len: usize, k: i32) -> usize
    requires laying { Laying len (length buf.old) }
    requires k_bound { nat_abs k < 900 }
    ensures { Puts (layout (take len buf.old) k) buf.old 0 buf.new result }
{
    let n = k.unsigned_abs() as usize;
    if k < 0 {
        return downward(buf, len, n);
    }
    upward(buf, len, n)
}
