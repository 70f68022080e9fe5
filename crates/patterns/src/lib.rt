// The patterns of binary32 and binary64, u32 and u64, as one kind: what tells the two widths apart stands here, and the code above is written once.
#![tactic(auto)]

ghost use Rattle.std.specs.Prelude.{◌≡◌, ℕ, ◌^◌, ◌<◌};
ghost use Rattle.rules.specs.Width.{Width, w32, w64};
ghost use Rattle.theorems.proofs.Printable.{Printable, printable32, printable64};
ghost use Rattle.patterns.specs.Numbers.{Numbers, numbers32, numbers64};
ghost use Rattle.patterns.specs.Small.{Small, small32, small64};
ghost use Rattle.patterns.specs.Spanned.{Spanned, spanned32, spanned64};

// A type whose values are the patterns of a width.
pub trait Pattern: Copy {
    // The width, and how many digits but one a magnitude's text has at most.
    ghost width: { Width };

    ghost digits: { ℕ };

    // A pattern as a number.
    ghost number: { Self → ℕ };

    ghost SIZE: { ℕ };

    ghost FRACTION: { ℕ };

    ghost BIAS: { ℕ };

    ghost ONES: { ℕ };

    ghost PAIR: { ℕ };

    // How many bits a pattern has, and how many of them its significand.
    const SIZE: u32;

    const FRACTION: u32;

    // What is added to an exponent in a pattern, and the exponent's field of ones.
    const BIAS: u32;

    const ONES: u32;

    // How many bits the significand of a pair has.
    const PAIR: u32;

    // The pattern in a u64.
    fn bits(self) -> u64
        ensures same { result ≡ number self }
        ensures fits { result < 2 ^ width.bits };

    // The pattern that a u64 holds.
    fn pattern(bits: u64) -> Self
        requires { bits < 2 ^ width.bits }
        ensures { number result ≡ bits };

    // The constants are the width's, and no sum of them leaves a word.
    ghost numbers: { Numbers width SIZE FRACTION BIAS ONES PAIR };

    ghost printable: { Printable width digits };

    ghost small: { Small width };

    ghost spanned: { Spanned width };
}

impl Pattern for u32 {
    ghost width = { w32 };

    ghost digits = { 8 };

    ghost number = { λ v. v };

    ghost SIZE = { 32 };

    ghost FRACTION = { 23 };

    ghost BIAS = { 127 };

    ghost ONES = { 255 };

    ghost PAIR = { 32 };

    const SIZE: u32 = 32;

    const FRACTION: u32 = 23;

    const BIAS: u32 = 127;

    const ONES: u32 = 255;

    const PAIR: u32 = 32;

    fn bits(self) -> u64 {
        self as u64
    }

    fn pattern(bits: u64) -> u32 {
        bits as u32
    }

    ghost numbers = { numbers32 };

    ghost printable = { printable32 };

    ghost small = { small32 };

    ghost spanned = { spanned32 };
}

impl Pattern for u64 {
    ghost width = { w64 };

    ghost digits = { 16 };

    ghost number = { λ v. v };

    ghost SIZE = { 64 };

    ghost FRACTION = { 52 };

    ghost BIAS = { 1023 };

    ghost ONES = { 2047 };

    ghost PAIR = { 64 };

    const SIZE: u32 = 64;

    const FRACTION: u32 = 52;

    const BIAS: u32 = 1023;

    const ONES: u32 = 2047;

    const PAIR: u32 = 64;

    fn bits(self) -> u64 {
        self
    }

    fn pattern(bits: u64) -> u64 {
        bits
    }

    ghost numbers = { numbers64 };

    ghost printable = { printable64 };

    ghost small = { small64 };

    ghost spanned = { spanned64 };
}

// The bit that a pattern's significand leaves out.
pub fn hidden_bit<P: Pattern>() -> u64
    ensures { result ≡ 2 ^ P.width.S }
{
    1 << P::FRACTION
}
