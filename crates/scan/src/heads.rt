// What stands at the head of a text: a digit or a sign.
ghost use Rattle.std.specs.Prelude.{◌≡◌};
ghost use Rattle.scan.specs.Signs.{Signs};
ghost use Rattle.scan.specs.Heads.{starts};

// A sign, and the text behind it.
#[derive(Clone, Copy)]
pub struct Signed<'a> {
    pub negative: bool,
    pub rest: &'a [u8],
}

// Whether a text begins with a digit.
pub fn starts(text: &[u8]) -> bool
    ensures { result ≡ starts text.now }
{
    match text {
        [b, ..] => b.is_ascii_digit(),
        [] => false,
    }
}

// The sign at the head of a text.
pub fn sign(text: &[u8]) -> Signed<'_>
    ensures { Signs text.now result.negative result.rest.now }
{
    match text {
        [b'-', rest @ ..] => Signed {
            negative: true,
            rest,
        },
        _ => Signed {
            negative: false,
            rest: text,
        },
    }
}
