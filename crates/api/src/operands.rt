// Operands given as numbers.
ghost use Rattle.std.specs.Prelude.{◌≡◌, cond, ltb};
ghost use Rattle.api.specs.Given.{given_of, unshaped, effect_given, after_given};

use code::signs;
use op::{Effect, Operand, Refusal};

// A byte, if a number is one.
fn byte(x: u16) -> Option<u8>
    ensures { result ≡ cond (ltb x 256) (Some x) None }
{
    u8::try_from(x).ok()
}

// The operand of a shape's number.
#[tactic(auto, unfolding(crate::specs::Given::given_of))]
pub fn operand(shape: u8, a: u16, b: u16, c: u8, names: u8) -> Option<Operand>
    ensures { result ≡ given_of shape a b c names }
{
    match shape {
        0 => Some(Operand::None),
        1 => Some(Operand::U8(byte(a)?)),
        2 => Some(Operand::I8(signs::to_i8(byte(a)?))),
        3 => Some(Operand::U16(a)),
        4 => Some(Operand::Offset(signs::to_i16(a))),
        5 => Some(Operand::U8U8(byte(a)?, byte(b)?)),
        6 => Some(Operand::U16U8(a, byte(b)?)),
        7 => Some(Operand::U16U16(a, b)),
        8 => Some(Operand::U16U8U8(a, byte(b)?, c)),
        9 => Some(Operand::CallKw {
            positional: byte(a)?,
            names,
        }),
        10 => Some(Operand::CallAttrKw {
            attribute: a,
            positional: byte(b)?,
            names,
        }),
        11 => Some(Operand::U16U16U8(a, b, c)),
        _ => None,
    }
}

// Why there is no answer where there is no operand: 1, then 2.
#[tactic(auto, unfolding(op::specs::Opcodes::known))]
fn no_operand(opcode: u8) -> Refusal
    ensures { result ≡ unshaped opcode }
{
    if op::opcodes::LAST < opcode {
        return Refusal::UnknownOpcode;
    }
    Refusal::WrongShape
}

// The effect with a given operand.
pub fn effect(opcode: u8, given: Option<Operand>) -> Result<Effect, Refusal>
    ensures { result ≡ effect_given opcode given }
{
    match given {
        Some(operand) => op::effects::effect(opcode, operand),
        None => Err(no_operand(opcode)),
    }
}

// The depth after falling through with a given operand.
pub fn after(depth: u16, opcode: u8, given: Option<Operand>) -> Result<u16, Refusal>
    ensures { result ≡ after_given depth opcode given }
{
    match given {
        Some(operand) => op::depths::after(depth, opcode, operand),
        None => Err(no_operand(opcode)),
    }
}
