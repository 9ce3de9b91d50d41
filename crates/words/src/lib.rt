// Words as numbers. What a word says is `text`'s `natural`, `value` and `read_whole`, here in 64 bits; nothing
// requires anything.
#![tactic(auto)]

ghost use Rattle.std.specs.Prelude.{◌+◌, ◌-◌, ◌*◌, ◌^◌, ◌<◌, ◌≡◌, SomeIff};
ghost use Rattle.base.specs.Tests.{all};
ghost use Rattle.text.specs.Number.{value};
ghost use Rattle.text.specs.Number.{digit as digit_byte, natural as natural_text};
ghost use Rattle.text.specs.Reading.{read_whole};
ghost use Rattle.words.specs.Numbers.{fitted, number_of, plus_of, minus_of, whole_of};

// Why a text is no number in decimal of 64 bits.
#[derive(Clone, Copy, Debug, PartialEq, Eq)]
pub enum NumberError {
    // a number, but its magnitude is not below 2^64
    Large,
    Not,
}

// A whole number in decimal by its magnitude: a minus sign stands in front of one below zero, and there is no -0.
#[derive(Clone, Copy, Debug, PartialEq, Eq)]
pub enum Signed {
    Plus(u64),
    Minus(u64),
}

// A number with a digit more behind it, where that is below 2^64.
fn with_digit(v: u64, c: u8) -> Option<u64>
    ensures { SomeIff result (v * 10 + (c - 48) < 2 ^ 64) (v * 10 + (c - 48)) }
{
    v.checked_mul(10)?
        .checked_add(u64::from(c.saturating_sub(b'0')))
}

// The number that digits say.
fn said(t: &[u8]) -> Result<u64, NumberError>
    ensures { result ≡ fitted (value t.now) }
{
    let mut v = 0;
    for c in t {
        v = with_digit(v, *c).ok_or(NumberError::Large)?;
    }
    Ok(v)
}

fn is_digit(c: u8) -> bool
    ensures { result ≡ digit_byte c }
{
    c.is_ascii_digit()
}

fn all_digits(t: &[u8]) -> bool
    ensures { result ≡ all digit_byte t.now }
{
    t.iter().all(|c| is_digit(*c))
}

fn is_natural(t: &[u8]) -> bool
    ensures { result ≡ natural_text t.now }
{
    match t {
        [] => false,
        [c] => is_digit(*c),
        [b'0', ..] => false,
        _ => all_digits(t),
    }
}

// What a text says as a natural number: digits, with no zero in front of another.
#[tactic(auto, unfolding(crate::specs::Numbers::number_of))]
pub fn natural(t: &[u8]) -> Result<u64, NumberError>
    ensures { result ≡ number_of t.now }
{
    if is_natural(t) {
        return said(t);
    }
    Err(NumberError::Not)
}

#[tactic(auto, unfolding(crate::specs::Numbers::plus_of))]
fn plus(n: Result<u64, NumberError>) -> Result<Signed, NumberError>
    ensures { result ≡ plus_of n }
{
    Ok(Signed::Plus(n?))
}

#[tactic(auto, unfolding(crate::specs::Numbers::minus_of))]
fn minus(n: Result<u64, NumberError>) -> Result<Signed, NumberError>
    ensures { result ≡ minus_of n }
{
    let v = n?;
    if v == 0 {
        return Err(NumberError::Not);
    }
    Ok(Signed::Minus(v))
}

// What a text says as a whole number.
pub fn whole(t: &[u8]) -> Result<Signed, NumberError>
    ensures { result ≡ whole_of (read_whole t.now) }
{
    if let [b'-', magnitude @ ..] = t {
        return minus(natural(magnitude));
    }
    plus(natural(t))
}
