// The fields of a line, and the fault line. Callers have made room; each writer answers the place behind what it wrote.
ghost use Rattle.std.specs.Prelude.{◌≡◌, List, [], ◌∷◌, ◌++◌, ◌+◌, ◌-◌, ◌≤◌, ◌<◌, pos, ◌+ℤ◌, length, drop};
ghost use Rattle.code.specs.Tables.{code_limit};
ghost use Rattle.text.specs.Decimal.{decimal};
ghost use Rattle.text.specs.Fields.{names_text, call_text, tail_text, operands_at, back_text, line_text, fault_text};
ghost use Rattle.text.specs.Put.{Put};
ghost use Rattle.text.specs.Row.{operand_column, target_column, target_of};

use crate::write;
use code::decoder;
use op::Operand;

// A comma and a number.
fn more(n: u64, out: &mut [u8], to: usize) -> usize
    requires { length (44 ∷ decimal n) ≤ length out.old - to }
    ensures { Put out.old to (44 ∷ decimal n) result out.new }
{
    let o = write::byte(b',', out, to);
    write::decimal(n, out, o)
}

// Keyword names, a comma in front of each.
fn names(bytes: &[u8], out: &mut [u8], to: usize) -> usize
    requires { length (names_text bytes.now) ≤ length out.old - to }
    ensures { Put out.old to (names_text bytes.now) result out.new }
{
    let (words, _) = bytes.as_chunks::<2>();
    let mut o = to;
    for word in words {
        o = more(u64::from(u16::from_le_bytes(*word)), out, o);
    }
    o
}

// Two numbers.
fn two(a: u64, b: u64, out: &mut [u8], to: usize) -> usize
    requires { length (operand_column (pos a ∷ pos b ∷ [])) ≤ length out.old - to }
    ensures { Put out.old to (operand_column (pos a ∷ pos b ∷ [])) result out.new }
{
    let o = write::decimal(a, out, to);
    more(b, out, o)
}

// Three numbers.
fn three(a: u64, b: u64, c: u64, out: &mut [u8], to: usize) -> usize
    requires { length (operand_column (pos a ∷ pos b ∷ pos c ∷ [])) ≤ length out.old - to }
    ensures { Put out.old to (operand_column (pos a ∷ pos b ∷ pos c ∷ [])) result out.new }
{
    let o = write::decimal(a, out, to);
    let e = write::byte(b',', out, o);
    two(b, c, out, e)
}

// The operands of a call with keyword names: two counts and the names.
fn call(positional: u64, count: u64, bytes: &[u8], out: &mut [u8], to: usize) -> usize
    requires { length (call_text positional count bytes.now) ≤ length out.old - to }
    ensures { Put out.old to (call_text positional count bytes.now) result out.new }
{
    let o = write::decimal(positional, out, to);
    let e = more(count, out, o);
    names(bytes, out, e)
}

// The same behind an attribute.
fn attr_call(
    attribute: u64,
    positional: u64,
    count: u64,
    bytes: &[u8],
    out: &mut [u8],
    to: usize,
) -> usize
    requires { length (decimal attribute ++ (44 ∷ call_text positional count bytes.now)) ≤ length out.old - to }
    ensures { Put out.old to
        (decimal attribute ++ (44 ∷ call_text positional count bytes.now)) result out.new }
{
    let o = write::decimal(attribute, out, to);
    let e = write::byte(b',', out, o);
    call(positional, count, bytes, out, e)
}

// The operands of the instruction at an offset, in byte order, joined by commas; `-` without any.
fn operands(code: &[u8], at: usize, operand: Operand, out: &mut [u8], to: usize) -> usize
    requires { length (operands_at operand (drop at code.now)) ≤ length out.old - to }
    ensures { Put out.old to (operands_at operand (drop at code.now)) result out.new }
{
    match operand {
        Operand::None => write::byte(b'-', out, to),
        Operand::U8(a) => write::decimal(a as u64, out, to),
        Operand::I8(z) => write::signed(z as i64, out, to),
        Operand::U16(a) => write::decimal(a as u64, out, to),
        Operand::Offset(z) => write::signed(z as i64, out, to),
        Operand::U8U8(a, b) => two(a as u64, b as u64, out, to),
        Operand::U16U8(a, b) => two(a as u64, b as u64, out, to),
        Operand::U16U16(a, b) => two(a as u64, b as u64, out, to),
        Operand::U16U8U8(a, b, c) => three(a as u64, b as u64, c as u64, out, to),
        Operand::CallKw { positional, names } => {
            let bytes = decoder::names_at(code, at);
            call(positional as u64, names as u64, bytes, out, to)
        }
        Operand::CallAttrKw {
            attribute,
            positional,
            names,
        } => {
            let bytes = decoder::names_at(code, at);
            attr_call(
                attribute as u64,
                positional as u64,
                names as u64,
                bytes,
                out,
                to,
            )
        }
        Operand::U16U16U8(a, b, c) => three(a as u64, b as u64, c as u64, out, to),
    }
}

// Where a jump at `at` goes: behind its three bytes, and on by the displacement.
fn jump_target(at: usize, displacement: i16) -> i64
    requires { at ≤ code_limit }
    ensures { result ≡ pos (at + 3) +ℤ displacement }
{
    at as i64 + 3 + displacement as i64
}

// The target of a jump, or `-`.
fn target(at: usize, operand: Operand, out: &mut [u8], to: usize) -> usize
    requires { (at ≤ code_limit) × (length (target_column (target_of at operand)) ≤ length out.old - to) }
    ensures { Put out.old to (target_column (target_of at operand)) result out.new }
{
    let Operand::Offset(displacement) = operand else {
        return write::byte(b'-', out, to);
    };
    write::signed(jump_target(at, displacement), out, to)
}

// A number, and the byte that ends its field.
pub fn ended(n: u64, end: u8, out: &mut [u8], to: usize) -> usize
    requires { length (decimal n ++ (end ∷ [])) ≤ length out.old - to }
    ensures { Put out.old to (decimal n ++ (end ∷ [])) result out.new }
{
    let o = write::decimal(n, out, to);
    write::byte(end, out, o)
}

// A tab, the target and the line's end.
fn tail(at: usize, operand: Operand, out: &mut [u8], to: usize) -> usize
    requires { (at ≤ code_limit) × (length (tail_text at operand) ≤ length out.old - to) }
    ensures { Put out.old to (tail_text at operand) result out.new }
{
    let o = write::byte(b'\t', out, to);
    let e = target(at, operand, out, o);
    write::byte(b'\n', out, e)
}

// All behind the name.
pub fn back(code: &[u8], at: usize, operand: Operand, out: &mut [u8], to: usize) -> usize
    requires { (at ≤ code_limit) × (length (back_text at operand (drop at code.now)) ≤ length out.old - to) }
    ensures { Put out.old to (back_text at operand (drop at code.now)) result
        out.new }
{
    let o = write::byte(b'\t', out, to);
    let e = operands(code, at, operand, out, o);
    tail(at, operand, out, e)
}

// The whole line.
pub fn line(
    code: &[u8],
    at: usize,
    operand: Operand,
    name: &[u8],
    out: &mut [u8],
    to: usize,
) -> usize
    requires { (at ≤ code_limit) ×
        (length (line_text at name.now operand (drop at code.now)) ≤ length out.old - to) }
    ensures { Put out.old to (line_text at name.now operand (drop at code.now))
        result out.new }
{
    let o = ended(at as u64, b'\t', out, to);
    let e = write::copy(name, out, o);
    back(code, at, operand, out, e)
}

// The fault line.
pub fn fault(at: usize, number: u8, out: &mut [u8], to: usize) -> usize
    requires { length (fault_text at number) ≤ length out.old - to }
    ensures { Put out.old to (fault_text at number) result out.new }
{
    let o = write::byte(b'!', out, to);
    let e = write::byte(b'\t', out, o);
    let d = ended(at as u64, b'\t', out, e);
    ended(number as u64, b'\n', out, d)
}
