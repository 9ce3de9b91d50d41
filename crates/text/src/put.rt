// Texts put into a lent slice at a place: the place behind is answered, or 18 with no cell changed.
ghost use Rattle.std.specs.Prelude.{◌≡◌, ◌-◌};
ghost use Rattle.text.specs.Decimal.{whole_text, sign_text};
ghost use Rattle.text.specs.Decimal.{decimal as decimal_of};
ghost use Rattle.text.specs.Put.{Places};

use crate::write;
use op::{Refusal, Table};

// How many cells there are from a place on.
pub fn room(size: usize, at: usize) -> usize
    ensures { result ≡ size - at }
{
    size.saturating_sub(at)
}

// All of `src`.
pub fn bytes(src: &[u8], out: &mut [u8], at: usize) -> Result<usize, Refusal>
    ensures { Places out.old at src.now result out.new }
{
    if src.len() <= room(out.len(), at) {
        return Ok(write::copy(src, out, at));
    }
    Err(Refusal::Full(Table::Text))
}

// A number in decimal, behind a minus sign where it is below zero.
fn number(below: bool, n: u64, out: &mut [u8], at: usize) -> Result<usize, Refusal>
    ensures { Places out.old at (sign_text below n) result out.new }
{
    let mut digits = [0u8; 21];
    let end = write::number(below, n, &mut digits, 0);
    bytes(&digits[..end], out, at)
}

// A number in decimal.
pub fn decimal(n: u64, out: &mut [u8], at: usize) -> Result<usize, Refusal>
    ensures { Places out.old at (decimal_of n) result out.new }
{
    number(false, n, out, at)
}

// A whole number in decimal.
pub fn signed(z: i64, out: &mut [u8], at: usize) -> Result<usize, Refusal>
    ensures { Places out.old at (whole_text z) result out.new }
{
    number(z < 0, z.unsigned_abs(), out, at)
}
