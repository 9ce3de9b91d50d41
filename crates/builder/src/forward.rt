// Deciding and writing a jump forward.
ghost use Rattle.builder.specs.Forward.{jump_asked, jump_plan_of};
ghost use Rattle.builder.specs.Inner.{JumpCommitted, JumpGoes, Lives};
ghost use Rattle.std.specs.Prelude.{length, ◌≡◌};

use crate::plan::Decision;
use crate::{Core, Location, emission, marks, plan, tables};
use code::MARK_CELLS;
use op::{Operand, Table, depths};

// What is decided of a forward jump in live code, at depth `d`.
fn decide_jump_live(
    core: Core,
    location: Option<Location>,
    d: u16,
    opcode: u8,
    cl: usize,
    ll: usize,
    ml: usize,
) -> Decision
    requires { Lives (jump_asked core location opcode cl ll ml) d }
    ensures { result ≡ jump_plan_of core location opcode cl ll ml }
{
    let t = depths::taken(d, opcode)?;
    let bytes = plan::decide_bytes(core, d, opcode, Operand::Offset(0), 0, t, cl);
    let located = plan::also_location(bytes, location, core.locations, ll);
    plan::also_row(located, core.marks < ml / MARK_CELLS, Table::Marks)
}

// What a forward jump is to do.
pub fn decide_jump(
    core: Core,
    location: Option<Location>,
    opcode: u8,
    cl: usize,
    ll: usize,
    ml: usize,
) -> Decision
    ensures { result ≡ jump_plan_of core location opcode cl ll ml }
{
    let sound = plan::sound_with_marks(core, cl, ll, ml);
    let entered = plan::enter(sound, opcode, 0, core.depth)?;
    let Some(d) = entered else {
        return Ok(None);
    };
    decide_jump_live(core, location, d, opcode, cl, ll, ml)
}

// The jump with no displacement yet, its location's row, and its mark; the core then.
pub fn commit_jump(
    core: Core,
    location: Option<Location>,
    opcode: u8,
    size: usize,
    after: Option<u16>,
    t: u16,
    code: &mut [u8],
    locations: &mut [u32],
    marks: &mut [u32],
) -> Core
    requires { JumpGoes core location opcode (length code.old) (length locations.old) (length marks.old)
        size }
    ensures { JumpCommitted core location opcode size after t code.old locations.old
        marks.old result code.new locations.new marks.new }
{
    let rows = emission::commit(
        core,
        location,
        opcode,
        Operand::Offset(0),
        &[],
        code,
        locations,
    );
    let row = core.marks;
    let at = core.code;
    let base = row * MARK_CELLS;
    tables::put(&mut marks[base..], &[marks::OPEN, at as u32, t as u32, 0]);
    Core {
        code: at + size,
        locations: rows,
        marks: row + 1,
        depth: after,
    }
}
