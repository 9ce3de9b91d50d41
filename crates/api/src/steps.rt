// What a step tells, and instructions given as numbers.
ghost use Rattle.std.specs.Prelude.{◌≡◌, ◌+◌, ◌*◌, ◌<◌, ◌≤◌};
ghost use Rattle.code.specs.Decode.{names_in};
ghost use Rattle.api.specs.Told.{Tells};
ghost use Rattle.api.specs.Steps.{values, values_of, step_told, unwritten, written_answer, WritesGiven};

use crate::{Values, answers, cells};
use code::{Instr, decoder, signs, writer};
use op::{Operand, Refusal, Shape, shapes};

impl Values {
    fn new(a: u16, b: u16, c: u8) -> Values
        ensures { result ≡ values a b c }
    {
        Values { a, b, c }
    }
}

// An operand's values, in byte order.
impl From<Operand> for Values {
    ghost from_gives = { λ operand result. result ≡ values_of operand };

    fn from(operand: Operand) -> Values {
        match operand {
            Operand::None => Values::default(),
            Operand::U8(a) => Values::new(a as u16, 0, 0),
            Operand::I8(x) => Values::new(signs::byte_of(x) as u16, 0, 0),
            Operand::U16(a) => Values::new(a, 0, 0),
            Operand::Offset(x) => Values::new(signs::word_of(x), 0, 0),
            Operand::U8U8(a, b) => Values::new(a as u16, b as u16, 0),
            Operand::U16U8(a, b) => Values::new(a, b as u16, 0),
            Operand::U16U16(a, b) => Values::new(a, b, 0),
            Operand::U16U8U8(a, b, c) => Values::new(a, b as u16, c),
            Operand::CallKw { positional, .. } => Values::new(positional as u16, 0, 0),
            Operand::CallAttrKw {
                attribute,
                positional,
                ..
            } => Values::new(attribute, positional as u16, 0),
            Operand::U16U16U8(a, b, c) => Values::new(a, b, c),
        }
    }
}

// Tells an instruction that stands at an offset.
pub fn tell_instruction(at: usize, instr: Instr, out: &mut [u64]) -> u64
    requires { (at + instr.size < 18446744073709551616) × (2 * names_in instr.operand ≤ instr.size) }
    ensures { Tells (step_told at (Ok (Some instr))) out.old result out.new }
{
    let values = Values::from(instr.operand);
    let shape = Shape::from(instr.operand);
    let names = decoder::names_of(instr.operand);
    let given = [
        instr.opcode as u64,
        instr.size as u64,
        shapes::number(shape) as u64,
        values.a as u64,
        values.b as u64,
        values.c as u64,
        names as u64,
        (at + instr.size - 2 * names) as u64,
    ];
    cells::tell(&given, out)
}

// Why so many names aren't written where there is no operand for them: 1, 7, then 2.
#[tactic(auto, unfolding(op::specs::Opcodes::known))]
pub fn no_write(opcode: u8, names: usize) -> Refusal
    ensures { result ≡ unwritten opcode names }
{
    if op::opcodes::LAST < opcode {
        return Refusal::UnknownOpcode;
    }
    if names <= 255 {
        return Refusal::WrongShape;
    }
    Refusal::TooManyKeywords
}

// A writer's answer.
fn of_written(written: Result<usize, Refusal>) -> u64
    ensures { result ≡ written_answer written }
{
    match written {
        Ok(size) => size as u64,
        Err(refusal) => answers::refused(refusal),
    }
}

// Writes an instruction with a given operand.
pub fn write(out: &mut [u8], opcode: u8, given: Option<Operand>, names: &[u16]) -> u64
    ensures { WritesGiven opcode given names.now out.old result out.new }
{
    match given {
        Some(operand) => of_written(writer::write(out, opcode, operand, names)),
        None => answers::refused(no_write(opcode, names.len())),
    }
}
