// Deciding and writing a patch.
ghost use Rattle.std.specs.Prelude.{◌≡◌, ◌+◌, ◌≤◌, ◌<◌, ◌/◌, length, true};
ghost use Rattle.code.specs.Tables.{code_limit, jump_size, mark_cells, word_max};
ghost use Rattle.builder.specs.Marks.{mark_sound};
ghost use Rattle.builder.specs.Patch.{mark_plan_of, open_plan};
ghost use Rattle.builder.specs.Inner.{PatchCommitted};

use crate::marks::Mark;
use crate::{Core, marks, tables};
use code::{MARK_CELLS, store};
use op::Refusal;

// What a patch is to write: the depth then, the displacement, and the offset of the jump.
#[derive(Clone, Copy, Debug, PartialEq, Eq)]
pub struct PatchPlan {
    pub after: Option<u16>,
    pub word: u16,
    pub offset: usize,
}

// What a patch is to do: write, nothing of a label that was made in dead code, or refuse.
pub type PatchDecision = Result<Option<PatchPlan>, Refusal>;

// An open label's mark: 11, then 6.
fn decide_open(core: Core, offset: u32, depth: u32) -> PatchDecision
    requires { (core.code ≤ code_limit) × (depth ≤ word_max) }
    ensures { result ≡ open_plan (Mark.Open offset depth) core }
{
    let here = core.depth;
    if !marks::meets_depth(here, depth) {
        return Err(Refusal::DepthsDiffer);
    }
    let from = offset as usize;
    if !marks::is_near(from, core.code) {
        return Err(Refusal::JumpTooFar);
    }
    Ok(Some(PatchPlan {
        after: marks::revive(here, depth as u16),
        word: marks::bits_of(from, core.code),
        offset: from,
    }))
}

// A mark that can be, by its kind.
fn decide_kind(mark: Mark, core: Core) -> PatchDecision
    requires { (core.code ≤ code_limit) × (mark_sound core.code mark ≡ true) }
    ensures { result ≡ open_plan mark core }
{
    match mark {
        Mark::Absent => Err(Refusal::NoSuchMark),
        Mark::Target(_, _) => Err(Refusal::NoSuchMark),
        Mark::Patched(_, _) => Err(Refusal::AlreadyPatched),
        Mark::Open(offset, depth) => decide_open(core, offset, depth),
    }
}

// What a patch of this mark is to do.
pub fn decide_mark(mark: Mark, core: Core) -> PatchDecision
    requires { core.code ≤ code_limit }
    ensures { result ≡ mark_plan_of mark core }
{
    if !marks::mark_sound(core.code, mark) {
        return Err(Refusal::Unsound);
    }
    decide_kind(mark, core)
}

// The displacement behind the opcode, and the mark's new kind; the core then.
pub fn commit_patch(
    core: Core,
    i: usize,
    offset: usize,
    w: u16,
    after: Option<u16>,
    code: &mut [u8],
    marks: &mut [u32],
) -> Core
    requires { (offset + jump_size ≤ length code.old) × (i < length marks.old / mark_cells) }
    ensures { PatchCommitted core i offset w after code.old marks.old result code.new
        marks.new }
{
    let p = offset + 1;
    tables::put(&mut code[p..], &store::halves(w));
    let base = i * MARK_CELLS;
    marks[base] = marks::PATCHED;
    Core {
        depth: after,
        ..core
    }
}
