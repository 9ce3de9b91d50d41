// The decoder: what stands at an offset of the code. It reads forward from there and looks at nothing before it.
ghost use Rattle.std.specs.Prelude.{◌≡◌, ◌<◌, length, drop};
ghost use Rattle.op.specs.Opcodes.{last_opcode};
ghost use Rattle.code.specs.Decode.{names_in, decode, names_at};

use crate::{Step, steps};
use op::{Operand, Refusal, shapes};

// The instruction at the front of `bytes`, which stand at `at`.
fn first(bytes: &[u8], at: usize) -> Step
    requires { 0 < length bytes.now }
    ensures { result ≡ decode last_opcode at bytes.now }
{
    let Ok(shape) = shapes::operand_shape(bytes[0]) else {
        return Err(Refusal::UnknownOpcodeAt(at));
    };
    steps::shaped_step(bytes, at, shape)
}

// The instruction at an offset: End at or past the code's end; refuses 1, then 22.
pub fn step_at(code: &[u8], at: usize) -> Step
    ensures { result ≡ decode last_opcode at (drop at code.now) }
{
    if code.len() <= at {
        return Ok(None);
    }
    first(&code[at..], at)
}

// The count of an operand's keyword names.
#[inline(always)]
pub fn names_of(operand: Operand) -> usize
    ensures { (result ≡ names_in operand) × (result < 256) }
{
    match operand {
        Operand::None => 0,
        Operand::U8(_) => 0,
        Operand::I8(_) => 0,
        Operand::U16(_) => 0,
        Operand::Offset(_) => 0,
        Operand::U8U8(_, _) => 0,
        Operand::U16U8(_, _) => 0,
        Operand::U16U16(_, _) => 0,
        Operand::U16U8U8(_, _, _) => 0,
        Operand::CallKw {
            positional: _,
            names,
        } => names as usize,
        Operand::CallAttrKw {
            attribute: _,
            positional: _,
            names,
        } => names as usize,
        Operand::U16U16U8(_, _, _) => 0,
    }
}

// The bytes of the keyword names of the instruction at an offset, two for each: the caller's own part of the code.
// Empty on a fault, at the end or without names.
pub fn names_at<'a>(code: &'a [u8], at: usize) -> &'a [u8]
    ensures { result.now ≡ names_at last_opcode (drop at code.now) }
{
    let Ok(found) = step_at(code, at) else {
        return &code[0..0];
    };
    let Some(instr) = found else {
        return &code[0..0];
    };
    let end = at + instr.size;
    let start = end - 2 * names_of(instr.operand);
    &code[start..end]
}
