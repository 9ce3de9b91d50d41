// The writer of one instruction, the only place that turns one into bytes. It decides first, and then writes.
ghost use Rattle.std.specs.Prelude.{◌≡◌, [], ◌∷◌, ◌++◌, ◌+◌, ◌*◌, ◌/◌, ◌%◌, ◌≤◌, length};
ghost use Rattle.code.specs.Bytes.{front, word_bytes, names_bytes};
ghost use Rattle.code.specs.Encode.{encode, written_of, Writes};
ghost use Rattle.code.specs.Inner.{Writable};

use crate::{decoder, signs, store};
use op::{Operand, Refusal, Shape, Table, shapes};

// The names, two bytes each.
fn write_names(out: &mut [u8], names: &[u16])
    requires { 2 * length names.now ≤ length out.old }
    ensures { out.new ≡ front (names_bytes names.now) out.old }
{
    for (i, w) in names.iter().enumerate() {
        let [low, high] = store::halves(*w);
        out[2 * i] = low;
        out[2 * i + 1] = high;
    }
}

// CallKw: positional count, n, names.
fn write_call(out: &mut [u8], opcode: u8, positional: u8, n: u8, names: &[u16])
    requires { 3 + 2 * length names.now ≤ length out.old }
    ensures { out.new ≡ front (opcode ∷ positional ∷ n ∷ names_bytes names.now)
        out.old }
{
    store::put(out, &[opcode, positional, n]);
    write_names(&mut out[3..], names);
}

// CallAttrKw: attribute, positional count, n, names.
fn write_attr_call(out: &mut [u8], opcode: u8, attribute: u16, positional: u8, n: u8, names: &[u16])
    requires { 5 + 2 * length names.now ≤ length out.old }
    ensures { out.new ≡ front
        (opcode ∷ word_bytes attribute ++ positional ∷ n ∷ names_bytes names.now) out.old }
{
    let [low, high] = store::halves(attribute);
    store::put(out, &[opcode, low, high, positional, n]);
    write_names(&mut out[5..], names);
}

// The bytes of an instruction.
#[inline(always)]
fn fill(out: &mut [u8], opcode: u8, operand: Operand, names: &[u16])
    requires { Writable operand names.now out.old }
    ensures { out.new ≡ front (encode opcode operand names.now) out.old }
{
    match operand {
        Operand::None => store::put(out, &[opcode]),
        Operand::U8(a) => store::put(out, &[opcode, a]),
        Operand::I8(x) => store::put(out, &[opcode, signs::byte_of(x)]),
        Operand::U16(w) => {
            let [low, high] = store::halves(w);
            store::put(out, &[opcode, low, high]);
        }
        Operand::Offset(x) => {
            let [low, high] = store::halves(signs::word_of(x));
            store::put(out, &[opcode, low, high]);
        }
        Operand::U8U8(a, b) => store::put(out, &[opcode, a, b]),
        Operand::U16U8(w, a) => {
            let [low, high] = store::halves(w);
            store::put(out, &[opcode, low, high, a]);
        }
        Operand::U16U16(w, v) => {
            let [low, high] = store::halves(w);
            let [low_2, high_2] = store::halves(v);
            store::put(out, &[opcode, low, high, low_2, high_2]);
        }
        Operand::U16U8U8(w, a, b) => {
            let [low, high] = store::halves(w);
            store::put(out, &[opcode, low, high, a, b]);
        }
        Operand::CallKw {
            positional,
            names: n,
        } => write_call(out, opcode, positional, n, names),
        Operand::CallAttrKw {
            attribute,
            positional,
            names: n,
        } => write_attr_call(out, opcode, attribute, positional, n, names),
        Operand::U16U16U8(w, v, a) => {
            let [low, high] = store::halves(w);
            let [low_2, high_2] = store::halves(v);
            store::put(out, &[opcode, low, high, low_2, high_2, a]);
        }
    }
}

// The answer: 1, 7, 2, then 18 where the room is less than the size.
#[inline(always)]
fn decide(opcode: u8, operand: Operand, names: usize, room: usize) -> Result<usize, Refusal>
    ensures { result ≡ written_of opcode operand names room }
{
    let shape = shapes::operand_shape(opcode)?;
    if 255 < names {
        return Err(Refusal::TooManyKeywords);
    }
    if shape != Shape::from(operand) {
        return Err(Refusal::WrongShape);
    }
    if decoder::names_of(operand) != names {
        return Err(Refusal::WrongShape);
    }
    let size = shapes::instruction_size(shape, names as u8);
    if room < size {
        return Err(Refusal::Full(Table::Code));
    }
    Ok(size)
}

// Writes an instruction at the front of `out`, and answers its size. A refusal changes nothing.
#[inline(always)]
pub fn write(out: &mut [u8], opcode: u8, operand: Operand, names: &[u16]) -> Result<usize, Refusal>
    ensures { Writes opcode operand names.now out.old result out.new }
{
    let size = decide(opcode, operand, names.len(), out.len())?;
    fill(out, opcode, operand, names);
    Ok(size)
}
