// One line: its instruction's bytes at the front of the lent room, or 24, 25 or 18.
ghost use Rattle.std.specs.Prelude.{◌≡◌, [], ◌∷◌, ◌≤◌};
ghost use Rattle.text.specs.Reading.{read_fields};
ghost use Rattle.readback.specs.Operands.{and_then};
ghost use Rattle.readback.specs.Formed.{formed, formed_row};
ghost use Rattle.readback.specs.Inner.{Cells};
ghost use Rattle.readback.specs.Lined.{Tells, Storable, Stores, Lines};

use crate::naming::Naming;
use crate::{fields, numbers, operands, placing};
use code::writer;
use op::{Operand, Refusal, shapes};

// An instruction, whose keyword names stand in the cells from `names` to `count`.
#[derive(Clone, Copy)]
pub struct Told {
    pub opcode: u8,
    pub operand: Operand,
    pub names: usize,
    pub count: usize,
}

// What a name and an operand column say.
fn instruction(name: &[u8], column: &[u8], cells: &mut [u16], names: &Naming) -> Option<Told>
    requires { Cells cells.old }
    ensures { Tells name.now column.now result cells.new }
{
    let opcode = names.opcode(name);
    let shaped = shapes::operand_shape(opcode);
    let Ok(shape) = shaped else {
        return None;
    };
    let numbers = numbers::read(column, cells)?;
    let spoken = operands::of_shape(shape, numbers.minus, &cells[..numbers.count])?;
    Some(Told {
        opcode,
        operand: spoken.operand,
        names: spoken.names,
        count: numbers.count,
    })
}

// The bytes of an instruction that is well formed, or 18.
fn store(out: &mut [u8], opcode: u8, operand: Operand, names: &[u16]) -> Result<usize, Refusal>
    requires { Storable opcode operand names.now }
    ensures { Stores opcode operand names.now out.old result out.new }
{
    let written = writer::write(out, opcode, operand, names);
    match written {
        Ok(size) => Ok(size),
        Err(refusal) => Err(refusal),
    }
}

// A line in its four fields.
fn row(
    offset: &[u8],
    name: &[u8],
    column: &[u8],
    target: &[u8],
    at: usize,
    out: &mut [u8],
    cells: &mut [u16],
    names: &Naming,
) -> Result<usize, Refusal>
    requires { (at ≤ 65536) × Cells cells.old }
    ensures { Lines at
        (and_then (read_fields (offset.now ∷ name.now ∷ column.now ∷ target.now ∷ []))
        formed_row) out.old result out.new }
{
    let Some(told) = instruction(name, column, cells, names) else {
        return Err(Refusal::NotALine);
    };
    placing::verdict_on(
        placing::offset(offset, at),
        placing::target(target, at, told.operand),
    )?;
    store(
        out,
        told.opcode,
        told.operand,
        &cells[told.names..told.count],
    )
}

// A line without its end, at an offset. `out` is the room from there on.
pub fn read(
    t: &[u8],
    at: usize,
    out: &mut [u8],
    cells: &mut [u16],
    names: &Naming,
) -> Result<usize, Refusal>
    requires { (at ≤ 65536) × Cells cells.old }
    ensures { Lines at (formed t.now) out.old result out.new }
{
    let a = fields::cut(t, b'\t');
    if t.len() <= a {
        return Err(Refusal::NotALine);
    }
    let from_name = &t[a + 1..];
    let b = fields::cut(from_name, b'\t');
    if from_name.len() <= b {
        return Err(Refusal::NotALine);
    }
    let from_column = &from_name[b + 1..];
    let c = fields::cut(from_column, b'\t');
    if from_column.len() <= c {
        return Err(Refusal::NotALine);
    }
    let target = &from_column[c + 1..];
    if fields::cut(target, b'\t') < target.len() {
        return Err(Refusal::NotALine);
    }
    row(
        &t[..a],
        &from_name[..b],
        &from_column[..c],
        target,
        at,
        out,
        cells,
        names,
    )
}
