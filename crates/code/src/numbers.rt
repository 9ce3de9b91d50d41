// The numbers of an instruction, each read by itself from the code behind `at`, by the opcode's shape: for those who need
// no operand. 0 stands for a byte that is not there.
ghost use Rattle.std.specs.Prelude.{◌≡◌, ◌<◌, length, drop, get_or};
ghost use Rattle.op.specs.Effects.{former_of, last_of};
ghost use Rattle.code.specs.Bytes.{word_at};
ghost use Rattle.code.specs.Decode.{operand_in, names_in, size_by_names};

use op::{Shape, shapes};

// The byte `i` of the instruction.
fn byte(code: &[u8], at: usize, i: usize) -> u8
    requires { at < length code.now }
    ensures { result ≡ get_or (drop at code.now) i 0 }
{
    if code.len() - at <= i {
        return 0;
    }
    code[at + i]
}

// The little-endian word at its byte `i`.
pub fn word(code: &[u8], at: usize, i: usize) -> u16
    requires { (at < length code.now) × (i < 6) }
    ensures { result ≡ word_at (drop at code.now) i }
{
    u16::from_le_bytes([byte(code, at, i), byte(code, at, i + 1)])
}

// How many keyword names it has.
fn names(code: &[u8], at: usize, shape: Shape) -> u8
    requires { at < length code.now }
    ensures { result ≡ names_in (operand_in shape (drop at code.now)) }
{
    match shape {
        Shape::CallKw => byte(code, at, 2),
        Shape::CallAttrKw => byte(code, at, 4),
        _ => 0,
    }
}

// Its size, whether or not the code has as much.
pub fn size(code: &[u8], at: usize, shape: Shape) -> usize
    requires { at < length code.now }
    ensures { result ≡ size_by_names shape (drop at code.now) }
{
    shapes::instruction_size(shape, names(code, at, shape))
}

// The last number of its operand, where an effect goes by it.
pub fn last(code: &[u8], at: usize, shape: Shape) -> u16
    requires { at < length code.now }
    ensures { result ≡ last_of (operand_in shape (drop at code.now)) }
{
    match shape {
        Shape::None => 0,
        Shape::U8 => byte(code, at, 1) as u16,
        Shape::I8 => 0,
        Shape::U16 => word(code, at, 1),
        Shape::Offset => 0,
        Shape::U8U8 => byte(code, at, 2) as u16,
        Shape::U16U8 => byte(code, at, 3) as u16,
        Shape::U16U16 => word(code, at, 3),
        Shape::U16U8U8 => byte(code, at, 4) as u16,
        Shape::CallKw => byte(code, at, 2) as u16,
        Shape::CallAttrKw => byte(code, at, 4) as u16,
        Shape::U16U16U8 => byte(code, at, 5) as u16,
    }
}

// The number before it, where an effect goes by it.
pub fn former(code: &[u8], at: usize, shape: Shape) -> u8
    requires { at < length code.now }
    ensures { result ≡ former_of (operand_in shape (drop at code.now)) }
{
    match shape {
        Shape::None => 0,
        Shape::U8 => 0,
        Shape::I8 => 0,
        Shape::U16 => 0,
        Shape::Offset => 0,
        Shape::U8U8 => byte(code, at, 1),
        Shape::U16U8 => 0,
        Shape::U16U16 => 0,
        Shape::U16U8U8 => byte(code, at, 3),
        Shape::CallKw => byte(code, at, 1),
        Shape::CallAttrKw => byte(code, at, 3),
        Shape::U16U16U8 => 0,
    }
}
