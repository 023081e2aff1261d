ghost use Rattle.std.specs.Prelude.{◌≡◌, ◌+◌, ◌*◌, ◌^◌, ◌<◌, ◌≤◌, length, IfSome};
ghost use Rattle.script.specs.Digits.{base_number, digit_char, digit_of, digits, numeral};

/// The bases that scripts and listings write numbers in.
#[derive(Clone, Copy)]
pub(crate) enum Base {
    Ten = 10,
    Sixteen = 16,
}

impl From<Base> for u32 {
    ghost from_gives = { λ base n. n ≡ base_number base };

    fn from(base: Base) -> u32 {
        base as u32
    }
}

/// The digit of a base that a character is. Letters are lowercase.
fn digit(base: Base, c: u8) -> Option<u32>
    ensures value { result ≡ digit_of (base_number base) c }
    ensures bound { IfSome result (λ d. d < base_number base) }
{
    match (base, c) {
        (_, b'0'..=b'9') => Some(u32::from(c - b'0')),
        (Base::Sixteen, b'a'..=b'f') => Some(u32::from(c - b'a' + 10)),
        _ => None,
    }
}

/// The number that one digit more makes of `n`.
fn append(n: u32, base: Base, d: u32) -> u32
    requires { n * base_number base + d < 2 ^ 32 }
    ensures { result ≡ n * base_number base + d }
{
    n * u32::from(base) + d
}

/// The number that characters write, if each is a digit of the base.
pub(crate) fn read_number(base: Base, text: &[u8]) -> Option<u32>
    requires { base_number base ^ length text.now ≤ 2 ^ 32 }
    ensures value { result ≡ numeral (base_number base) text.now }
    ensures bound { IfSome result (λ n. n < base_number base ^ length text.now) }
{
    let mut n = 0;
    for c in text {
        n = append(n, base, digit(base, *c)?);
    }
    Some(n)
}

const DIGITS: [u8; 16] = *b"0123456789abcdef";

/// The character of a digit.
fn digit_char(d: u8) -> u8
    requires { d < 16 }
    ensures { result ≡ digit_char d }
{
    DIGITS[usize::from(d)]
}

/// Writes a number in as many digits as there is room for.
pub(crate) fn write_number(out: &mut [u8], base: Base, n: u32)
    ensures { out.new ≡ digits (base_number base) (length out.old) n }
{
    let base = u32::from(base);
    let mut rest = n;
    // Over a reversed `iter_mut` a proof knows nothing of what was written, so the places go by their indices.
    for i in (0..out.len()).rev() {
        out[i] = digit_char((rest % base) as u8);
        rest /= base;
    }
}
