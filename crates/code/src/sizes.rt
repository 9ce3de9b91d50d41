// The size of an instruction, which is all that a walk goes by: from its opcode's shape, without its operand.
ghost use Rattle.std.specs.Prelude.{◌≡◌, ◌<◌, length, drop, get_or};
ghost use Rattle.op.specs.Opcodes.{last_opcode};
ghost use Rattle.op.specs.Shapes.{shape_of};
ghost use Rattle.code.specs.Decode.{decode, size_in};

use crate::numbers;
use op::{Shape, shapes};

// The size of the instruction of a shape at an offset; 0 where it is cut short.
fn size_by(code: &[u8], at: usize, shape: Shape) -> usize
    requires { (at < length code.now) × (shape_of (get_or code.now at 0) ≡ Ok shape) }
    ensures { result ≡ size_in (decode last_opcode at (drop at code.now)) }
{
    let size = numbers::size(code, at, shape);
    if code.len() - at < size {
        return 0;
    }
    size
}

// The size of the instruction at an offset; 0 where none stands.
pub fn size_at(code: &[u8], at: usize) -> usize
    ensures { result ≡ size_in (decode last_opcode at (drop at code.now)) }
{
    if code.len() <= at {
        return 0;
    }
    let shaped = shapes::operand_shape(code[at]);
    match shaped {
        Ok(shape) => size_by(code, at, shape),
        Err(_) => 0,
    }
}
