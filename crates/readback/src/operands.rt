// The operand that a column's numbers say, by the opcode's shape. The cells hold the numbers as `numbers` leaves them.
ghost use Rattle.std.specs.Prelude.{◌≡◌, drop};
ghost use Rattle.readback.specs.Operands.{first, plain_at, signed_at};
ghost use Rattle.readback.specs.Inner.{sign_first, told_of, spoken_by};

use op::{Operand, Shape};

// An operand, and the cell from which on the keyword names stand, the last cells.
#[derive(Clone, Copy)]
pub struct Spoken {
    pub operand: Operand,
    pub names: usize,
}

// The number at a place. Only the first may be below zero: -1 less its cell.
fn number_at(minus: bool, cells: &[u16], i: usize) -> Option<i32>
    ensures { result ≡ first (drop i (sign_first minus cells.now)) }
{
    let n = i32::from(*cells.get(i)?);
    if minus && i == 0 {
        return Some(-1 - n);
    }
    Some(n)
}

// The same where a field of its kind can hold it.
#[tactic(auto, unfolding(crate::specs::Operands::plain_at, crate::specs::Operands::and_then))]
fn byte(minus: bool, cells: &[u16], i: usize) -> Option<u8>
    ensures { result ≡ plain_at 256 i (sign_first minus cells.now) }
{
    u8::try_from(number_at(minus, cells, i)?).ok()
}

#[tactic(auto, unfolding(crate::specs::Operands::plain_at, crate::specs::Operands::and_then))]
fn word(minus: bool, cells: &[u16], i: usize) -> Option<u16>
    ensures { result ≡ plain_at 65536 i (sign_first minus cells.now) }
{
    u16::try_from(number_at(minus, cells, i)?).ok()
}

#[tactic(auto, unfolding(crate::specs::Operands::signed_at, crate::specs::Operands::and_then))]
fn tiny(minus: bool, cells: &[u16]) -> Option<i8>
    ensures { result ≡ signed_at 128 0 (sign_first minus cells.now) }
{
    i8::try_from(number_at(minus, cells, 0)?).ok()
}

#[tactic(auto, unfolding(crate::specs::Operands::signed_at, crate::specs::Operands::and_then))]
fn short(minus: bool, cells: &[u16]) -> Option<i16>
    ensures { result ≡ signed_at 32768 0 (sign_first minus cells.now) }
{
    i16::try_from(number_at(minus, cells, 0)?).ok()
}

// An operand, if behind its numbers stand as many names as it counts.
fn told(operand: Operand, places: usize, names: u8, count: usize) -> Option<Spoken>
    ensures { result ≡ told_of operand places names count }
{
    if count < places {
        return None;
    }
    if count - places != names as usize {
        return None;
    }
    Some(Spoken {
        operand,
        names: places,
    })
}

// The operand of a shape that the numbers say, with its names.
#[tactic(auto, unfolding(crate::specs::Operands::operand_for, crate::specs::Operands::and_then, crate::specs::Inner::spoken_of))]
pub fn of_shape(shape: Shape, minus: bool, cells: &[u16]) -> Option<Spoken>
    ensures { result ≡ spoken_by shape minus cells.now }
{
    let n = cells.len();
    match shape {
        Shape::None => told(Operand::None, 0, 0, n),
        Shape::U8 => told(Operand::U8(byte(minus, cells, 0)?), 1, 0, n),
        Shape::I8 => told(Operand::I8(tiny(minus, cells)?), 1, 0, n),
        Shape::U16 => told(Operand::U16(word(minus, cells, 0)?), 1, 0, n),
        Shape::Offset => told(Operand::Offset(short(minus, cells)?), 1, 0, n),
        Shape::U8U8 => {
            let a = byte(minus, cells, 0)?;
            let b = byte(minus, cells, 1)?;
            told(Operand::U8U8(a, b), 2, 0, n)
        }
        Shape::U16U8 => {
            let a = word(minus, cells, 0)?;
            let b = byte(minus, cells, 1)?;
            told(Operand::U16U8(a, b), 2, 0, n)
        }
        Shape::U16U16 => {
            let a = word(minus, cells, 0)?;
            let b = word(minus, cells, 1)?;
            told(Operand::U16U16(a, b), 2, 0, n)
        }
        Shape::U16U8U8 => {
            let a = word(minus, cells, 0)?;
            let b = byte(minus, cells, 1)?;
            let d = byte(minus, cells, 2)?;
            told(Operand::U16U8U8(a, b, d), 3, 0, n)
        }
        Shape::CallKw => {
            let positional = byte(minus, cells, 0)?;
            let names = byte(minus, cells, 1)?;
            told(Operand::CallKw { positional, names }, 2, names, n)
        }
        Shape::CallAttrKw => {
            let attribute = word(minus, cells, 0)?;
            let positional = byte(minus, cells, 1)?;
            let names = byte(minus, cells, 2)?;
            let operand = Operand::CallAttrKw {
                attribute,
                positional,
                names,
            };
            told(operand, 3, names, n)
        }
        Shape::U16U16U8 => {
            let a = word(minus, cells, 0)?;
            let b = word(minus, cells, 1)?;
            let d = byte(minus, cells, 2)?;
            told(Operand::U16U16U8(a, b, d), 3, 0, n)
        }
    }
}
