// Deciding an emission, on numbers alone, in the order of R28.
ghost use Rattle.std.specs.Prelude.{◌≤◌, ◌&&◌, ◌≡◌};
ghost use Rattle.code.specs.Tables.{code_limit, mark_cells, within};
ghost use Rattle.builder.specs.Locations.{row_fits};
ghost use Rattle.builder.specs.Plan.{behind, enter_of, plan_of, sound_of};
ghost use Rattle.builder.specs.Inner.{also_row, bytes_of, room_of};

use crate::{Core, Location, locations};
use code::{CODE_LIMIT, LOCATION_CELLS, MARK_CELLS, WORD_MAX, decoder};
use op::{Operand, Refusal, Shape, Table, depths, effects, opcodes, shapes};

// What an emitting call is to write: the depth then; a jump's taken depth or displacement, 0 elsewhere; and the size of
// the instruction.
#[derive(Clone, Copy, Debug, PartialEq, Eq)]
pub struct Plan {
    pub after: Option<u16>,
    pub word: u16,
    pub size: usize,
}

// What an emitting call is to do: write, nothing in dead code, or refuse.
pub type Decision = Result<Option<Plan>, Refusal>;

// Whether the counts are within the lent code and locations.
#[inline(always)]
pub fn sound(core: Core, cl: usize, ll: usize) -> bool
    ensures { result ≡ sound_of core cl ll }
{
    if cl < core.code {
        return false;
    }
    if CODE_LIMIT < core.code {
        return false;
    }
    core.locations <= ll / LOCATION_CELLS
}

// The same, and the count of marks within the lent marks.
pub fn sound_with_marks(core: Core, cl: usize, ll: usize, ml: usize) -> bool
    ensures { result ≡ (within mark_cells core.marks ml && sound_of core cl ll) }
{
    if ml / MARK_CELLS < core.marks {
        return false;
    }
    sound(core, cl, ll)
}

// How every emitting call begins: 19, 1, 8, dead code. `sound` is what 19 asks of the call, `name` the name in the
// operand, 0 without one.
#[inline(always)]
pub fn enter(sound: bool, opcode: u8, name: u32, depth: Option<u16>) -> Result<Option<u16>, Refusal>
    ensures { result ≡ enter_of sound opcode name depth }
{
    if !sound {
        return Err(Refusal::Unsound);
    }
    if opcodes::LAST < opcode {
        return Err(Refusal::UnknownOpcode);
    }
    if WORD_MAX < name {
        return Err(Refusal::NameTooLarge);
    }
    Ok(depth)
}

// The depth behind an opcode that falls through to `e`.
#[inline(always)]
fn behind_op(opcode: u8, e: u16) -> Option<u16>
    ensures { result ≡ behind opcode e }
{
    if effects::is_dead_maker(opcode) {
        None
    } else {
        Some(e)
    }
}

// The same plan, where a table has room for the row that goes with it.
#[inline(always)]
pub fn also_row(decision: Decision, free: bool, table: Table) -> Decision
    ensures { result ≡ also_row decision free table }
{
    let Some(plan) = decision? else {
        return Ok(None);
    };
    if free {
        return Ok(Some(plan));
    }
    Err(Refusal::Full(table))
}

// The same plan, where a location that is set has room for its row.
#[inline(always)]
pub fn also_location(
    decision: Decision,
    location: Option<Location>,
    rows: usize,
    ll: usize,
) -> Decision
    ensures { result ≡ also_row decision (row_fits location rows ll) Table.Locations }
{
    also_row(
        decision,
        locations::row_fits(location, rows, ll),
        Table::Locations,
    )
}

// Whether there is room for so many bytes.
#[inline(always)]
fn room(core: Core, size: usize, after: Option<u16>, word: u16, cl: usize) -> Decision
    requires { (core.code ≤ cl) × (core.code ≤ code_limit) }
    ensures { result ≡ room_of core.code size after word cl }
{
    let at = core.code;
    if cl - at < size {
        return Err(Refusal::Full(Table::Code));
    }
    if CODE_LIMIT - at < size {
        return Err(Refusal::Full(Table::Code));
    }
    Ok(Some(Plan { after, word, size }))
}

// What is decided of the bytes, in live code at depth `d`, with `n` keyword names.
#[inline(always)]
pub fn decide_bytes(
    core: Core,
    d: u16,
    opcode: u8,
    operand: Operand,
    n: usize,
    word: u16,
    cl: usize,
) -> Decision
    requires { (core.code ≤ cl) × (core.code ≤ code_limit) }
    ensures { result ≡ bytes_of core.code d opcode operand n word cl }
{
    if 255 < n {
        return Err(Refusal::TooManyKeywords);
    }
    if decoder::names_of(operand) != n {
        return Err(Refusal::WrongShape);
    }
    let next = depths::after(d, opcode, operand)?;
    let size = shapes::instruction_size(Shape::from(operand), n as u8);
    room(core, size, behind_op(opcode, next), word, cl)
}

// What an emitting call is to do; `name` is the name in the operand, 0 without one.
#[inline(always)]
pub fn decide(
    core: Core,
    location: Option<Location>,
    opcode: u8,
    name: u32,
    operand: Operand,
    n: usize,
    cl: usize,
    ll: usize,
) -> Decision
    ensures { result ≡ plan_of core location opcode name operand n cl ll }
{
    let entered = enter(sound(core, cl, ll), opcode, name, core.depth)?;
    let Some(d) = entered else {
        return Ok(None);
    };
    let decision = decide_bytes(core, d, opcode, operand, n, 0, cl);
    also_location(decision, location, core.locations, ll)
}
