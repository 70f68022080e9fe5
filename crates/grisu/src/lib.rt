// The digits of a finite magnitude and its decimal exponent, by the Grisu2 algorithm.
#![tactic(auto)]

ghost use Rattle.std.specs.Prelude.{◌≤◌, ◌<◌, length};
ghost use Rattle.rules.specs.Pattern.{magnitude};
ghost use Rattle.theorems.proofs.Boundaries.{Finite};
ghost use Rattle.grisu.specs.Grisu.{ScaledTo, Decided};

use digits::Scaled;
use diyfp::DiyFp;
use powers::Powers;

// The scaled numbers of a magnitude, and the decimal exponent that their power starts from.
#[derive(Clone, Copy)]
struct Start {
    numbers: Scaled,
    k: i32,
}

// Scales the boundaries and the value of a finite magnitude by one power of ten.
fn scale<P: Powers>(pattern: P) -> Start
    requires { Finite P.width (magnitude P.width (P.number pattern)) }
    ensures { ScaledTo P.width (magnitude P.width (P.number pattern)) result }
{
    let v = DiyFp::from_bits(pattern);
    let b = v.normalized_boundaries::<P>();
    let c = diyfp::get_cached_power::<P>(b.plus.e);
    let w = v.normalize::<P>().times::<P>(c.power);
    let wp = b.plus.times::<P>(c.power);
    let wm = b.minus.times::<P>(c.power);
    let h = wp.f - 1;
    Start {
        numbers: Scaled {
            h,
            w: w.f,
            delta: h - (wm.f + 1),
            x: (0 - wp.e) as u32,
        },
        k: c.k,
    }
}

// How many digits stand, and the exponent k. It is no `Digits` of the crate `digits`, which has the last digit's place: the two would be mistaken
// for one another.
#[derive(Clone, Copy)]
pub struct Decimal {
    pub len: usize,
    pub k: i32,
}

// Writes the digits of a finite magnitude from the buffer's start on.
pub fn grisu2<P: Powers>(pattern: P, buf: &mut [u8]) -> Decimal
    requires finite { Finite P.width (magnitude P.width (P.number pattern)) }
    requires in_bounds { P.digits < length buf.old }
    requires nine { 9 ≤ length buf.old }
    ensures { Decided P.width (magnitude P.width (P.number pattern)) result buf.old buf.new }
{
    let s = scale(pattern);
    let d = s.numbers.digit_gen(buf);
    Decimal {
        len: d.len,
        k: d.place + s.k,
    }
}
