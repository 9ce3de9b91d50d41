// The one way in which instructions are emitted: decide, then commit.
ghost use Rattle.std.specs.Prelude.{◌≤◌, ◌+◌, length, [], ◌≡◌};
ghost use Rattle.code.specs.Tables.{code_limit};
ghost use Rattle.builder.specs.Emission.{core_outcome, core_with, emit_core, emit_named, outcome};
ghost use Rattle.builder.specs.Inner.{Committed, Goes};

use crate::{Builder, Core, Location, locations, plan};
use code::writer;
use op::{Operand, Refusal};

// One instruction and its location's row, at the used ends; the rows then used.
#[inline(always)]
pub fn commit(
    core: Core,
    location: Option<Location>,
    opcode: u8,
    operand: Operand,
    kwnames: &[u16],
    code: &mut [u8],
    locations: &mut [u32],
) -> usize
    requires { Goes core location opcode operand (length kwnames.now) (length code.old)
        (length locations.old) }
    ensures { Committed core location opcode operand kwnames.now code.old
        locations.old result code.new locations.new }
{
    let at = core.code;
    let _ = writer::write(&mut code[at..], opcode, operand, kwnames);
    locations::write_location(location, core.locations, at, locations)
}

// The core behind an instruction of so many bytes, with so many location rows.
#[inline(always)]
pub fn grown(core: Core, rows: usize, size: usize, after: Option<u16>) -> Core
    requires { core.code + size ≤ code_limit }
    ensures { result ≡ core_with core rows size after }
{
    Core {
        code: core.code + size,
        locations: rows,
        depth: after,
        ..core
    }
}

// Emission on the core. The slice of names is made anew for `commit`: copied whole it keeps this function a call, with
// the state in memory.
#[inline(always)]
fn emit_core(
    core: Core,
    location: Option<Location>,
    opcode: u8,
    name: u32,
    operand: Operand,
    kwnames: &[u16],
    code: &mut [u8],
    locations: &mut [u32],
) -> Result<Core, Refusal>
    ensures { core_outcome result code.new locations.new
        ≡ emit_core core location opcode name operand kwnames.now code.old
        locations.old }
{
    let decision = plan::decide(
        core,
        location,
        opcode,
        name,
        operand,
        kwnames.len(),
        code.len(),
        locations.len(),
    )?;
    let Some(plan) = decision else {
        return Ok(core);
    };
    let rows = commit(
        core,
        location,
        opcode,
        operand,
        &kwnames[0..],
        code,
        locations,
    );
    Ok(grown(core, rows, plan.size, plan.after))
}

// Emits an instruction with its keyword names, records its location and follows the depth. In dead code nothing
// changes. `name` is the name in the operand, 0 without one.
pub fn emit_with_names(
    b: Builder,
    opcode: u8,
    name: u32,
    operand: Operand,
    kwnames: &[u16],
    code: &mut [u8],
    locations: &mut [u32],
) -> Result<Builder, Refusal>
    ensures { outcome result code.new locations.new
        ≡ emit_named b opcode name operand kwnames.now code.old locations.old }
{
    let core = emit_core(
        b.core, b.location, opcode, name, operand, kwnames, code, locations,
    )?;
    Ok(Builder { core, ..b })
}

// The same of an instruction that has no keyword names.
#[inline(always)]
pub fn emit_with_operand(
    b: Builder,
    opcode: u8,
    name: u32,
    operand: Operand,
    code: &mut [u8],
    locations: &mut [u32],
) -> Result<Builder, Refusal>
    ensures { outcome result code.new locations.new
        ≡ emit_named b opcode name operand [] code.old locations.old }
{
    let core = emit_core(
        b.core,
        b.location,
        opcode,
        name,
        operand,
        &[],
        code,
        locations,
    )?;
    Ok(Builder { core, ..b })
}
