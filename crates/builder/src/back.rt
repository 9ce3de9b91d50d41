// Deciding and writing a jump to a target.
ghost use Rattle.std.specs.Prelude.{ℕ, ◌≡◌};
ghost use Rattle.builder.specs.Plan.{emitting_of};
ghost use Rattle.builder.specs.Emission.{core_outcome};
ghost use Rattle.builder.specs.Back.{jump_to_core, to_asked, to_plan_of};
ghost use Rattle.builder.specs.Inner.{Lives, Sound};
ghost use Rattle.op.specs.Depths.{taken_depth_of};

use crate::marks::Mark;
use crate::plan::Decision;
use crate::{Core, JumpTarget, Location, emission, marks, plan};
use code::signs;
use op::{Operand, Refusal, depths};

// What is decided of a jump that arrives at a used mark with depth `e`.
fn decide_spot(
    mark: Mark,
    e: u16,
    core: Core,
    location: Option<Location>,
    d: u16,
    opcode: u8,
    cl: usize,
    ll: usize,
) -> Decision
    requires { Sound core cl ll }
    ensures { (row ml : ℕ) → Lives (to_asked core location opcode (JumpTarget.Row row) mark cl ll ml) d
        → taken_depth_of d opcode ≡ Ok e
        → result ≡ emitting_of (to_asked core location opcode (JumpTarget.Row row) mark cl ll ml) }
{
    match mark {
        Mark::Absent => Err(Refusal::NoSuchMark),
        Mark::Open(_, _) => Err(Refusal::NoSuchMark),
        Mark::Patched(_, _) => Err(Refusal::NoSuchMark),
        Mark::Target(offset, depth) => {
            if e as u32 != depth {
                return Err(Refusal::DepthsDiffer);
            }
            if !marks::is_near(core.code, offset as usize) {
                return Err(Refusal::JumpTooFar);
            }
            let word = marks::bits_of(core.code, offset as usize);
            let decision = plan::decide_bytes(
                core,
                d,
                opcode,
                Operand::Offset(signs::to_i16(word)),
                0,
                word,
                cl,
            );
            plan::also_location(decision, location, core.locations, ll)
        }
    }
}

// What is decided of a jump to a target in live code, at depth `d`.
fn decide_to_live(
    mark: Mark,
    core: Core,
    location: Option<Location>,
    d: u16,
    opcode: u8,
    cl: usize,
    ll: usize,
) -> Decision
    requires { Sound core cl ll }
    ensures { (row ml : ℕ) → Lives (to_asked core location opcode (JumpTarget.Row row) mark cl ll ml) d
        → result ≡ emitting_of (to_asked core location opcode (JumpTarget.Row row) mark cl ll ml) }
{
    let e = depths::taken(d, opcode)?;
    decide_spot(mark, e, core, location, d, opcode, cl, ll)
}

// What a jump to a target is to do.
fn decide_to(
    core: Core,
    location: Option<Location>,
    opcode: u8,
    row: usize,
    cl: usize,
    ll: usize,
    marks: &[u32],
) -> Decision
    ensures { result ≡ to_plan_of core location opcode (JumpTarget.Row row) cl ll marks.now }
{
    if !plan::sound_with_marks(core, cl, ll, marks.len()) {
        return Err(Refusal::Unsound);
    }
    let mark = marks::mark_in(core.marks, marks, row);
    let entered = plan::enter(marks::mark_sound(core.code, mark), opcode, 0, core.depth)?;
    let Some(d) = entered else {
        return Ok(None);
    };
    decide_to_live(mark, core, location, d, opcode, cl, ll)
}

// A jump to a target that was made in dead code, on the core: it is refused, or does nothing.
pub fn jump_nowhere(
    core: Core,
    location: Option<Location>,
    opcode: u8,
    code: &[u8],
    locations: &[u32],
    marks: &[u32],
) -> Result<Core, Refusal>
    ensures { core_outcome result code.now locations.now
        ≡ jump_to_core core location opcode JumpTarget.Dead code.now locations.now
        marks.now }
{
    let sound = plan::sound_with_marks(core, code.len(), locations.len(), marks.len());
    let entered = plan::enter(sound, opcode, 0, core.depth)?;
    let Some(d) = entered else {
        return Ok(core);
    };
    let _ = depths::taken(d, opcode)?;
    Err(Refusal::DeadTarget)
}

// A jump to a target, on the core.
pub fn jump_to_core(
    core: Core,
    location: Option<Location>,
    opcode: u8,
    row: usize,
    code: &mut [u8],
    locations: &mut [u32],
    marks: &[u32],
) -> Result<Core, Refusal>
    ensures { core_outcome result code.new locations.new
        ≡ jump_to_core core location opcode (JumpTarget.Row row) code.old locations.old
        marks.now }
{
    let decision = decide_to(
        core,
        location,
        opcode,
        row,
        code.len(),
        locations.len(),
        marks,
    )?;
    let Some(plan) = decision else {
        return Ok(core);
    };
    let rows = emission::commit(
        core,
        location,
        opcode,
        Operand::Offset(signs::to_i16(plan.word)),
        &[],
        code,
        locations,
    );
    Ok(emission::grown(core, rows, plan.size, plan.after))
}
