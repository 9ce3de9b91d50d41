// Writers whose callers have made room. Each answers the place behind what it wrote.
ghost use Rattle.std.specs.Prelude.{◌≡◌, List, [], ◌∷◌, ◌+◌, ◌-◌, ◌≤◌, ◌<◌, length};
ghost use Rattle.text.specs.Decimal.{whole_text, sign_text};
ghost use Rattle.text.specs.Decimal.{decimal as decimal_of};
ghost use Rattle.text.specs.Put.{Put};

// One byte.
pub fn byte(b: u8, out: &mut [u8], at: usize) -> usize
    requires { at < length out.old }
    ensures { Put out.old at (b ∷ []) result out.new }
{
    out[at] = b;
    at + 1
}

// All of `src`. Byte by byte: the library's copy of a slice would have the archive ask for `memmove`.
pub fn copy(src: &[u8], out: &mut [u8], at: usize) -> usize
    requires { length src.now ≤ length out.old - at }
    ensures { Put out.old at src.now result out.new }
{
    for (j, b) in src.iter().enumerate() {
        out[at + j] = *b;
    }
    at + src.len()
}

// A number in decimal.
pub fn decimal(n: u64, out: &mut [u8], at: usize) -> usize
    requires { length (decimal_of n) ≤ length out.old - at }
    ensures { Put out.old at (decimal_of n) result out.new }
{
    if n < 10 {
        return byte(48 + n as u8, out, at);
    }
    let o = decimal(n / 10, out, at);
    byte(48 + (n % 10) as u8, out, o)
}

// A number in decimal, behind a minus sign where it is below zero.
pub fn number(below: bool, n: u64, out: &mut [u8], at: usize) -> usize
    requires { length (sign_text below n) ≤ length out.old - at }
    ensures { Put out.old at (sign_text below n) result out.new }
{
    if below {
        let o = byte(b'-', out, at);
        return decimal(n, out, o);
    }
    decimal(n, out, at)
}

// A whole number in decimal.
pub fn signed(z: i64, out: &mut [u8], at: usize) -> usize
    requires { length (whole_text z) ≤ length out.old - at }
    ensures { Put out.old at (whole_text z) result out.new }
{
    number(z < 0, z.unsigned_abs(), out, at)
}
