// The cached powers of ten: which of them an exponent asks for, and of entry i the significand and the binary exponent.
#![tactic(auto)]

ghost use Rattle.std.specs.Prelude.{◌≡◌, ℕ, ◌<◌, pos, nat_abs, ◌+ℤ◌, length, get_or};
ghost use Rattle.std.proofs.Math.IntN.{sub_ℕ};
ghost use Rattle.std.specs.Int.Signed.{shr_z};
ghost use Rattle.rules.specs.Width.{off};
ghost use Rattle.rules.specs.Power.{k};
ghost use Rattle.powers.specs.Powers.{Served, Indexable};
ghost use Rattle.powers.specs.Tabled.{Tabled, tabled32, tabled64};

use patterns::Pattern;

// The patterns of a width, with its table of powers of ten.
pub trait Powers: Pattern {
    ghost TENS: { ℕ };

    ghost TWOS: { ℕ };

    ghost START: { ℕ };

    // The table's first entry stands for 10^-TENS, and its binary exponent is -TWOS.
    const TENS: u32;

    const TWOS: u32;

    // Where the line starts on which the binary exponents lie.
    const START: usize;

    // The significand of entry i.
    fn significand(i: usize) -> u64
        requires { i < length Self.width.significands }
        ensures { result ≡ get_or Self.width.significands i 0 };

    // The constants are the table's, and the code's two lines lead to its entries.
    ghost tabled: { Tabled Self.width TENS TWOS START };
}

impl Powers for u32 {
    ghost TENS = { 36 };

    ghost TWOS = { 151 };

    ghost START = { 3363 };

    const TENS: u32 = 36;

    const TWOS: u32 = 151;

    const START: usize = 3363;

    // 10^-36, 10^-28, .., 10^52.
    #[tactic(auto, unfolding(rules::specs::Width::w32, rules::specs::Tables::significands32))]
    fn significand(i: usize) -> u64 {
        match i {
            0 => 0xaa242499,
            1 => 0xfd87b5f3,
            2 => 0xbce50865,
            3 => 0x8cbccc09,
            4 => 0xd1b71759,
            5 => 0x9c400000,
            6 => 0xe8d4a510,
            7 => 0xad78ebc6,
            8 => 0x813f3979,
            9 => 0xc097ce7c,
            10 => 0x8f7e32ce,
            _ => 0xd5d238a5,
        }
    }

    ghost tabled = { tabled32 };
}

impl Powers for u64 {
    ghost TENS = { 348 };

    ghost TWOS = { 1220 };

    ghost START = { 7938 };

    const TENS: u32 = 348;

    const TWOS: u32 = 1220;

    const START: usize = 7938;

    // 10^-348, 10^-340, .., 10^340.
    #[tactic(auto, unfolding(rules::specs::Width::w64, rules::specs::Tables::significands64))]
    fn significand(i: usize) -> u64 {
        match i {
            0 => 0xfa8fd5a0081c0288,
            1 => 0xbaaee17fa23ebf76,
            2 => 0x8b16fb203055ac76,
            3 => 0xcf42894a5dce35ea,
            4 => 0x9a6bb0aa55653b2d,
            5 => 0xe61acf033d1a45df,
            6 => 0xab70fe17c79ac6ca,
            7 => 0xff77b1fcbebcdc4f,
            8 => 0xbe5691ef416bd60c,
            9 => 0x8dd01fad907ffc3c,
            10 => 0xd3515c2831559a83,
            11 => 0x9d71ac8fada6c9b5,
            12 => 0xea9c227723ee8bcb,
            13 => 0xaecc49914078536d,
            14 => 0x823c12795db6ce57,
            15 => 0xc21094364dfb5637,
            16 => 0x9096ea6f3848984f,
            17 => 0xd77485cb25823ac7,
            18 => 0xa086cfcd97bf97f4,
            19 => 0xef340a98172aace5,
            20 => 0xb23867fb2a35b28e,
            21 => 0x84c8d4dfd2c63f3b,
            22 => 0xc5dd44271ad3cdba,
            23 => 0x936b9fcebb25c996,
            24 => 0xdbac6c247d62a584,
            25 => 0xa3ab66580d5fdaf6,
            26 => 0xf3e2f893dec3f126,
            27 => 0xb5b5ada8aaff80b8,
            28 => 0x87625f056c7c4a8b,
            29 => 0xc9bcff6034c13053,
            30 => 0x964e858c91ba2655,
            31 => 0xdff9772470297ebd,
            32 => 0xa6dfbd9fb8e5b88f,
            33 => 0xf8a95fcf88747d94,
            34 => 0xb94470938fa89bcf,
            35 => 0x8a08f0f8bf0f156b,
            36 => 0xcdb02555653131b6,
            37 => 0x993fe2c6d07b7fac,
            38 => 0xe45c10c42a2b3b06,
            39 => 0xaa242499697392d3,
            40 => 0xfd87b5f28300ca0e,
            41 => 0xbce5086492111aeb,
            42 => 0x8cbccc096f5088cc,
            43 => 0xd1b71758e219652c,
            44 => 0x9c40000000000000,
            45 => 0xe8d4a51000000000,
            46 => 0xad78ebc5ac620000,
            47 => 0x813f3978f8940984,
            48 => 0xc097ce7bc90715b3,
            49 => 0x8f7e32ce7bea5c70,
            50 => 0xd5d238a4abe98068,
            51 => 0x9f4f2726179a2245,
            52 => 0xed63a231d4c4fb27,
            53 => 0xb0de65388cc8ada8,
            54 => 0x83c7088e1aab65db,
            55 => 0xc45d1df942711d9a,
            56 => 0x924d692ca61be758,
            57 => 0xda01ee641a708dea,
            58 => 0xa26da3999aef774a,
            59 => 0xf209787bb47d6b85,
            60 => 0xb454e4a179dd1877,
            61 => 0x865b86925b9bc5c2,
            62 => 0xc83553c5c8965d3d,
            63 => 0x952ab45cfa97a0b3,
            64 => 0xde469fbd99a05fe3,
            65 => 0xa59bc234db398c25,
            66 => 0xf6c69a72a3989f5c,
            67 => 0xb7dcbf5354e9bece,
            68 => 0x88fcf317f22241e2,
            69 => 0xcc20ce9bd35c78a5,
            70 => 0x98165af37b2153df,
            71 => 0xe2a0b5dc971f303a,
            72 => 0xa8d9d1535ce3b396,
            73 => 0xfb9b7cd9a4a7443c,
            74 => 0xbb764c4ca7a44410,
            75 => 0x8bab8eefb6409c1a,
            76 => 0xd01fef10a657842c,
            77 => 0x9b10a4e5e9913129,
            78 => 0xe7109bfba19c0c9d,
            79 => 0xac2820d9623bf429,
            80 => 0x80444b5e7aa7cf85,
            81 => 0xbf21e44003acdd2d,
            82 => 0x8e679c2f5e44ff8f,
            83 => 0xd433179d9c8cb841,
            84 => 0x9e19db92b4e31ba9,
            85 => 0xeb96bf6ebadf77d9,
            _ => 0xaf87023b9bf0ee6b,
        }
    }

    ghost tabled = { tabled64 };
}

// The table's index: one more than k / 8, where the division rounds down.
pub fn index_of(k: i32) -> usize
    requires { Indexable k }
    ensures { result ≡ nat_abs (shr_z k 8 +ℤ pos 1) }
{
    ((k >> 3) + 1) as usize
}

// k for an upper boundary's exponent e: j + TENS - 1, where j is the smallest whole number with 10^j >= 2^(3 - PAIR - e).
// The fraction 78913 / 2^18 serves for log10(2).
pub fn power_k<P: Powers>(e: i32) -> i32
    requires { Served P.width e }
    ensures { (E : ℕ) → e ≡ sub_ℕ E (off P.width) → result ≡ k P.width E }
{
    (P::TENS - 1) as i32 - (((e + (P::PAIR - 3) as i32) * 78913) >> 18)
}

// The binary exponent of entry i: a step of 10^8 is one of 217706 / 2^13 binary places.
pub fn exponent<P: Powers>(i: usize) -> i32
    requires { i < length P.width.significands }
    ensures { result ≡ sub_ℕ (get_or P.width.exponents i 0) P.width.twos }
{
    ((i * 217706 + P::START) >> 13) as i32 - P::TWOS as i32
}
