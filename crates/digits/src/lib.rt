// The decimal digits of a scaled magnitude, into a lent buffer.
#![tactic(auto)]

ghost use Rattle.std.specs.Prelude.{length};
ghost use Rattle.rules.specs.Digits.{first};
ghost use Rattle.digits.specs.Digits.{given, Ready, ReadyAbove, EndedAbove, ReadyUnder, EndedUnder, Found, Generated};

// The scaled numbers of a magnitude: its upper boundary h, its value w and the distance delta of its boundaries, each over 2^x.
#[derive(Clone, Copy)]
pub struct Scaled {
    pub h: u64,
    pub w: u64,
    pub delta: u64,
    pub x: u32,
}

// A place at or above zero: how many digits stand, and what is left.
#[derive(Clone, Copy)]
struct Above {
    len: usize,
    kappa: usize,
    rest: u64,
}

// A place below zero: how many digits stand, how far below it is, and what is left.
#[derive(Clone, Copy)]
struct Under {
    len: usize,
    down: usize,
    rest: u64,
    room: u64,
}

// The first place that passes: how many digits stand, where it is, and what the falls go by.
#[derive(Clone, Copy)]
struct First {
    len: usize,
    place: i32,
    unit: u64,
    room: u64,
    distance: u64,
    rest: u64,
}

// How many digits were written, and the place of the last.
#[derive(Clone, Copy)]
pub struct Digits {
    pub len: usize,
    pub place: i32,
}

impl Scaled {
    // Writes the digits at and above zero, down to the first place that passes.
    fn places_above(self, buf: &mut [u8]) -> Above
        requires { ReadyAbove self.h self.delta self.x (length buf.old) }
        ensures { EndedAbove self.h self.delta self.x result.kappa result.len result.rest buf.old buf.new }
    {
        let mut p1 = (self.h >> self.x) as u32;
        let p2 = places::low_bits(self.h, self.x);
        let mut len: usize = 0;
        let mut rest = self.h;
        for kappa in (0..places::count_decimal_digit32(p1)).rev() {
            let s = places::split_digits(p1, kappa);
            len = put::digit(buf, len, s.front);
            p1 = s.back;
            rest = places::shifted(p1 as u64, self.x) + p2;
            if rest <= self.delta {
                return Above { len, kappa, rest };
            }
        }
        Above {
            len,
            kappa: 0,
            rest,
        }
    }

    // Writes the digits below zero behind the others, down to the first place that passes. How many they are is not known before, so the
    // loop goes by what is left, and no range or iterator says it more plainly.
    fn places_under(self, len: usize, buf: &mut [u8]) -> Under
        requires { ReadyUnder self.h self.delta self.x len (length buf.old) }
        ensures { EndedUnder self.h self.delta self.x len result.down result.len result.rest result.room buf.old buf.new }
    {
        let mut rest = places::low_bits(self.h, self.x);
        let mut room = self.delta;
        let mut at = len;
        let mut down: usize = 0;
        while room <= rest {
            let tens = rest * 10;
            at = put::digit(buf, at, (tens >> self.x) as u32);
            rest = places::low_bits(tens, self.x);
            room = room * 10;
            down += 1;
        }
        Under {
            len: at,
            down,
            rest,
            room,
        }
    }

    // Writes the digits of the first place that passes.
    fn first_place(self, buf: &mut [u8]) -> First
        requires { Ready self.h self.w self.delta self.x (length buf.old) }
        ensures { Found (first (given self.h self.w self.delta self.x)) result.len result.place result.unit result.room result.distance result.rest buf.old buf.new }
    {
        let top = self.places_above(buf);
        if top.rest <= self.delta {
            return First {
                len: top.len,
                place: top.kappa as i32,
                unit: places::shifted(places::pow10(top.kappa), self.x),
                room: self.delta,
                distance: self.h - self.w,
                rest: top.rest,
            };
        }
        let low = self.places_under(top.len, buf);
        First {
            len: low.len,
            place: 0 - low.down as i32,
            unit: places::shifted(1, self.x),
            room: low.room,
            distance: places::distance_under(self.h - self.w, low.down),
            rest: low.rest,
        }
    }

    // Writes the digits from the buffer's start on.
    pub fn digit_gen(self, buf: &mut [u8]) -> Digits
        requires { Ready self.h self.w self.delta self.x (length buf.old) }
        ensures { Generated (first (given self.h self.w self.delta self.x)) result.len result.place buf.old buf.new }
    {
        let f = self.first_place(buf);
        let fallen = places::grisu_round(f.unit, f.room, f.distance, f.rest);
        buf[f.len - 1] -= fallen;
        Digits {
            len: f.len,
            place: f.place,
        }
    }
}
