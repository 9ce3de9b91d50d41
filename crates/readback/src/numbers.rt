// The numbers of an operand column, in cells that are lent once for all lines.
ghost use Rattle.std.specs.Prelude.{◌≡◌};
ghost use Rattle.text.specs.Reading.{read_whole};
ghost use Rattle.readback.specs.Inner.{narrow_of, small_of, Spells, Begun, Cells};

use crate::fields;
use words::{NumberError, Signed};

// How many numbers a column can have: three in front of 255 keyword names.
pub const MOST: usize = 258;

// One number, where some field can hold it: `Minus(n)` is -1 - n.
#[derive(Clone, Copy)]
pub enum Small {
    Plus(u16),
    Minus(u16),
}

// The numbers of a column: the first `count` cells hold them, each from zero on; where `minus` is set the first is
// -1 less its cell.
#[derive(Clone, Copy)]
pub struct Numbers {
    pub count: usize,
    pub minus: bool,
}

// A whole number in 16 bits and a sign.
fn narrow(z: Result<Signed, NumberError>) -> Option<Small>
    ensures { result ≡ narrow_of z }
{
    match z {
        Ok(Signed::Plus(v)) => {
            if 65535 < v {
                return None;
            }
            Some(Small::Plus(v as u16))
        }
        Ok(Signed::Minus(v)) => {
            if 65536 < v {
                return None;
            }
            if v == 0 {
                return None;
            }
            Some(Small::Minus((v - 1) as u16))
        }
        Err(_) => None,
    }
}

// What a text says as such a number.
fn small_number(t: &[u8]) -> Option<Small>
    ensures { result ≡ small_of (read_whole t.now) }
{
    narrow(words::whole(t))
}

// The first number of a column, which ends at `end`, and those behind it: each stands behind a comma, and none has a
// sign.
fn from_first(c: &[u8], end: usize, minus: bool, first: u16, cells: &mut [u16]) -> Option<Numbers>
    requires { Begun c.now end minus first cells.old }
    ensures { Spells c.now result cells.new }
{
    cells[0] = first;
    // The place in the column is counted, since the library has no iterator over the parts of a slice.
    let mut at = end;
    let mut n = 1;
    while at < c.len() {
        if n == MOST {
            return None;
        }
        let rest = &c[at + 1..];
        let e = fields::cut(rest, b',');
        let number = small_number(&rest[..e])?;
        let Small::Plus(w) = number else {
            return None;
        };
        cells[n] = w;
        n += 1;
        at = at + 1 + e;
    }
    Some(Numbers { count: n, minus })
}

// The numbers of a column: none of `-`, else one or more that are joined by commas.
pub fn read(c: &[u8], cells: &mut [u16]) -> Option<Numbers>
    requires { Cells cells.old }
    ensures { Spells c.now result cells.new }
{
    if fields::is_dash(c) {
        return Some(Numbers {
            count: 0,
            minus: false,
        });
    }
    let e = fields::cut(c, b',');
    let first = small_number(&c[..e]);
    match first {
        Some(Small::Plus(w)) => from_first(c, e, false, w, cells),
        Some(Small::Minus(w)) => from_first(c, e, true, w, cells),
        None => None,
    }
}
