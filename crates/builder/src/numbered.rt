// The emitting calls without a jump by number: the instruction that each comes to. Numbers are given as C gives them;
// one that is too large for its field gives no instruction.
ghost use Rattle.builder.specs.Numbered.{below, instruction_of, load_of, pair_of, plain, store_of};
ghost use Rattle.code.specs.Bytes.{signed};
ghost use Rattle.std.specs.Prelude.{◌≡◌, cond, ltb};

use crate::names;
use code::signs;
use op::{Operand, opcodes};

// The opcode, the name to be checked, 0 without one, and the operand.
#[derive(Clone, Copy, Debug, PartialEq, Eq)]
pub struct Instruction {
    pub opcode: u8,
    pub name: u32,
    pub operand: Operand,
}

// A byte, if a number is one.
fn byte(number: u32) -> Option<u8>
    ensures { result ≡ cond (ltb number 256) (Some number) None }
{
    u8::try_from(number).ok()
}

// A word, if a number is one.
fn word(number: u32) -> Option<u16>
    ensures { result ≡ cond (ltb number 65536) (Some number) None }
{
    u16::try_from(number).ok()
}

// An instruction that names nothing.
fn plain(opcode: u8, operand: Operand) -> Instruction
    ensures { Some result ≡ plain opcode operand }
{
    Instruction {
        opcode,
        name: 0,
        operand,
    }
}

// Two bytes, where both numbers are.
fn pair(opcode: u8, a: u16, b: u32) -> Option<Instruction>
    ensures { result ≡ pair_of opcode a b }
{
    Some(plain(opcode, Operand::U8U8(byte(u32::from(a))?, byte(b)?)))
}

// A byte with a sign, where the number is a byte.
fn signed(opcode: u8, a: u16) -> Option<Instruction>
    ensures { result ≡ below 256 a (plain opcode (Operand.I8 (signed 256 a))) }
{
    let byte = byte(u32::from(a))?;
    Some(plain(opcode, Operand::I8(signs::to_i8(byte))))
}

fn load(slot: u16) -> Instruction
    ensures { Some result ≡ load_of slot }
{
    if slot <= 3 {
        return plain(opcodes::LOAD_LOCAL0 + slot as u8, Operand::None);
    }
    let Ok(byte) = u8::try_from(slot) else {
        return plain(opcodes::LOAD_LOCAL_W, Operand::U16(slot));
    };
    plain(opcodes::LOAD_LOCAL, Operand::U8(byte))
}

fn store(slot: u16) -> Instruction
    ensures { Some result ≡ store_of slot }
{
    let Ok(byte) = u8::try_from(slot) else {
        return plain(opcodes::STORE_LOCAL_W, Operand::U16(slot));
    };
    plain(opcodes::STORE_LOCAL, Operand::U8(byte))
}

// The instruction of a call's number.
#[tactic(auto, unfolding(crate::specs::Numbered::instruction_of))]
pub fn of_call(call: u8, opcode: u8, a: u16, b: u32, c: u8, names: u8) -> Option<Instruction>
    ensures { result ≡ instruction_of call opcode a b c names }
{
    match call {
        0 => Some(plain(opcode, Operand::None)),
        1 => Some(plain(opcode, Operand::U8(byte(u32::from(a))?))),
        2 => signed(opcode, a),
        3 => pair(opcode, a, b),
        4 => Some(plain(opcode, Operand::U16(a))),
        5 => Some(plain(opcode, Operand::U16U16(a, word(b)?))),
        6 => Some(plain(opcode, Operand::U16U8(a, byte(b)?))),
        7 => Some(plain(opcode, Operand::U16U8U8(a, byte(b)?, c))),
        8 => pair(opcodes::CALL_BUILTIN_FUNCTION, a, b),
        9 => pair(opcodes::CALL_BUILTIN_TYPE, a, b),
        10 => Some(plain(
            opcodes::CALL_FUNCTION_KW,
            Operand::CallKw {
                positional: byte(u32::from(a))?,
                names,
            },
        )),
        11 => Some(plain(
            opcodes::CALL_ATTR_KW,
            Operand::CallAttrKw {
                attribute: a,
                positional: byte(b)?,
                names,
            },
        )),
        12 => Some(Instruction {
            opcode: opcodes::RAISE_UNBOUND_LOCAL,
            name: b,
            operand: Operand::U16(names::name_word(b)),
        }),
        13 => Some(Instruction {
            opcode: opcodes::LOAD_GLOBAL_CALLABLE,
            name: b,
            operand: Operand::U16U16(a, names::name_word(b)),
        }),
        14 => Some(Instruction {
            opcode,
            name: b,
            operand: Operand::U16U16U8(a, names::name_word(b), c),
        }),
        15 => Some(load(a)),
        16 => Some(store(a)),
        _ => None,
    }
}
