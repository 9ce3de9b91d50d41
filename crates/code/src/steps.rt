// The step for each shape by itself, so that an opcode's table leads straight to the reads of its shape.
ghost use Rattle.std.specs.Prelude.{◌≡◌, ◌+◌, ◌<◌, length};
ghost use Rattle.code.specs.Bytes.{word_at};
ghost use Rattle.code.specs.Decode.{step_in};

use crate::{Instr, Step, signs};
use op::{Operand, Refusal, Shape};

// The little-endian word at `i`.
fn word_at(bytes: &[u8], i: usize) -> u16
    requires { i + 1 < length bytes.now }
    ensures { result ≡ word_at bytes.now i }
{
    u16::from_le_bytes([bytes[i], bytes[i + 1]])
}

// None: the opcode alone.
fn none_step(bytes: &[u8], at: usize) -> Step
    requires { 0 < length bytes.now }
    ensures { result ≡ step_in at Shape.None bytes.now }
{
    Ok(Some(Instr {
        opcode: bytes[0],
        operand: Operand::None,
        size: 1,
    }))
}

// U8: a byte.
fn u8_step(bytes: &[u8], at: usize) -> Step
    requires { 0 < length bytes.now }
    ensures { result ≡ step_in at Shape.U8 bytes.now }
{
    if bytes.len() < 2 {
        return Err(Refusal::CutShort(at));
    }
    let operand = Operand::U8(bytes[1]);
    Ok(Some(Instr {
        opcode: bytes[0],
        operand,
        size: 2,
    }))
}

// I8: a byte with a sign.
fn i8_step(bytes: &[u8], at: usize) -> Step
    requires { 0 < length bytes.now }
    ensures { result ≡ step_in at Shape.I8 bytes.now }
{
    if bytes.len() < 2 {
        return Err(Refusal::CutShort(at));
    }
    let operand = Operand::I8(signs::to_i8(bytes[1]));
    Ok(Some(Instr {
        opcode: bytes[0],
        operand,
        size: 2,
    }))
}

// U16: a word.
fn u16_step(bytes: &[u8], at: usize) -> Step
    requires { 0 < length bytes.now }
    ensures { result ≡ step_in at Shape.U16 bytes.now }
{
    if bytes.len() < 3 {
        return Err(Refusal::CutShort(at));
    }
    let operand = Operand::U16(word_at(bytes, 1));
    Ok(Some(Instr {
        opcode: bytes[0],
        operand,
        size: 3,
    }))
}

// Offset: a word with a sign.
fn offset_step(bytes: &[u8], at: usize) -> Step
    requires { 0 < length bytes.now }
    ensures { result ≡ step_in at Shape.Offset bytes.now }
{
    if bytes.len() < 3 {
        return Err(Refusal::CutShort(at));
    }
    let operand = Operand::Offset(signs::to_i16(word_at(bytes, 1)));
    Ok(Some(Instr {
        opcode: bytes[0],
        operand,
        size: 3,
    }))
}

// U8U8: two bytes.
fn u8_u8_step(bytes: &[u8], at: usize) -> Step
    requires { 0 < length bytes.now }
    ensures { result ≡ step_in at Shape.U8U8 bytes.now }
{
    if bytes.len() < 3 {
        return Err(Refusal::CutShort(at));
    }
    let operand = Operand::U8U8(bytes[1], bytes[2]);
    Ok(Some(Instr {
        opcode: bytes[0],
        operand,
        size: 3,
    }))
}

// U16U8: a word and a byte.
fn u16_u8_step(bytes: &[u8], at: usize) -> Step
    requires { 0 < length bytes.now }
    ensures { result ≡ step_in at Shape.U16U8 bytes.now }
{
    if bytes.len() < 4 {
        return Err(Refusal::CutShort(at));
    }
    let operand = Operand::U16U8(word_at(bytes, 1), bytes[3]);
    Ok(Some(Instr {
        opcode: bytes[0],
        operand,
        size: 4,
    }))
}

// U16U16: two words.
fn u16_u16_step(bytes: &[u8], at: usize) -> Step
    requires { 0 < length bytes.now }
    ensures { result ≡ step_in at Shape.U16U16 bytes.now }
{
    if bytes.len() < 5 {
        return Err(Refusal::CutShort(at));
    }
    let operand = Operand::U16U16(word_at(bytes, 1), word_at(bytes, 3));
    Ok(Some(Instr {
        opcode: bytes[0],
        operand,
        size: 5,
    }))
}

// U16U8U8: a word and two bytes.
fn u16_u8_u8_step(bytes: &[u8], at: usize) -> Step
    requires { 0 < length bytes.now }
    ensures { result ≡ step_in at Shape.U16U8U8 bytes.now }
{
    if bytes.len() < 5 {
        return Err(Refusal::CutShort(at));
    }
    let operand = Operand::U16U8U8(word_at(bytes, 1), bytes[3], bytes[4]);
    Ok(Some(Instr {
        opcode: bytes[0],
        operand,
        size: 5,
    }))
}

// CallKw: positional count, n, names.
fn call_kw_step(bytes: &[u8], at: usize) -> Step
    requires { 0 < length bytes.now }
    ensures { result ≡ step_in at Shape.CallKw bytes.now }
{
    if bytes.len() < 3 {
        return Err(Refusal::CutShort(at));
    }
    let n = bytes[2];
    let size = 3 + 2 * usize::from(n);
    if bytes.len() < size {
        return Err(Refusal::CutShort(at));
    }
    let operand = Operand::CallKw {
        positional: bytes[1],
        names: n,
    };
    Ok(Some(Instr {
        opcode: bytes[0],
        operand,
        size,
    }))
}

// CallAttrKw: attribute, positional count, n, names.
fn call_attr_kw_step(bytes: &[u8], at: usize) -> Step
    requires { 0 < length bytes.now }
    ensures { result ≡ step_in at Shape.CallAttrKw bytes.now }
{
    if bytes.len() < 5 {
        return Err(Refusal::CutShort(at));
    }
    let n = bytes[4];
    let size = 5 + 2 * usize::from(n);
    if bytes.len() < size {
        return Err(Refusal::CutShort(at));
    }
    let operand = Operand::CallAttrKw {
        attribute: word_at(bytes, 1),
        positional: bytes[3],
        names: n,
    };
    Ok(Some(Instr {
        opcode: bytes[0],
        operand,
        size,
    }))
}

// U16U16U8: two words and a byte.
fn u16_u16_u8_step(bytes: &[u8], at: usize) -> Step
    requires { 0 < length bytes.now }
    ensures { result ≡ step_in at Shape.U16U16U8 bytes.now }
{
    if bytes.len() < 6 {
        return Err(Refusal::CutShort(at));
    }
    let operand = Operand::U16U16U8(word_at(bytes, 1), word_at(bytes, 3), bytes[5]);
    Ok(Some(Instr {
        opcode: bytes[0],
        operand,
        size: 6,
    }))
}

// The instruction of a shape at the front of `bytes`, which stand at `at`: 22 where it is cut short.
pub fn shaped_step(bytes: &[u8], at: usize, shape: Shape) -> Step
    requires { 0 < length bytes.now }
    ensures { result ≡ step_in at shape bytes.now }
{
    match shape {
        Shape::None => none_step(bytes, at),
        Shape::U8 => u8_step(bytes, at),
        Shape::I8 => i8_step(bytes, at),
        Shape::U16 => u16_step(bytes, at),
        Shape::Offset => offset_step(bytes, at),
        Shape::U8U8 => u8_u8_step(bytes, at),
        Shape::U16U8 => u16_u8_step(bytes, at),
        Shape::U16U16 => u16_u16_step(bytes, at),
        Shape::U16U8U8 => u16_u8_u8_step(bytes, at),
        Shape::CallKw => call_kw_step(bytes, at),
        Shape::CallAttrKw => call_attr_kw_step(bytes, at),
        Shape::U16U16U8 => u16_u16_u8_step(bytes, at),
    }
}
