// Marks: reading and making them, and how far a jump goes.
ghost use Rattle.std.specs.Prelude.{◌≤◌, ◌+◌, ◌/◌, length, ◌≡◌};
ghost use Rattle.builder.specs.Marks.{target_outcome, target_at, any_open, mark_of, mark_in, fits, mark_sound};
ghost use Rattle.builder.specs.Marks.{markable, near, bits, meets, revived};
ghost use Rattle.code.specs.Tables.{code_limit, mark_cells, jump_size};

use crate::{Builder, Core, JumpTarget, tables};
use code::{CODE_LIMIT, JUMP_SIZE, MARK_CELLS, WORD_MAX};
use op::{Refusal, Table};

// A used mark with its offset and depth. Absent: the row is not used, or of no kind.
#[derive(Clone, Copy, Debug, PartialEq, Eq)]
pub enum Mark {
    Absent,
    Open(u32, u32),
    Patched(u32, u32),
    Target(u32, u32),
}

// The kinds of marks.
pub const OPEN: u32 = 1;

pub const PATCHED: u32 = 2;

pub const TARGET: u32 = 3;

// A mark by its kind.
fn mark_of(kind: u32, offset: u32, depth: u32) -> Mark
    ensures { result ≡ mark_of kind offset depth }
{
    if kind == OPEN {
        return Mark::Open(offset, depth);
    }
    if kind == PATCHED {
        return Mark::Patched(offset, depth);
    }
    if kind == TARGET {
        return Mark::Target(offset, depth);
    }
    Mark::Absent
}

// The mark in row `i` of the used `rows`.
pub fn mark_in(rows: usize, marks: &[u32], i: usize) -> Mark
    requires { rows ≤ length marks.now / mark_cells }
    ensures { result ≡ mark_in rows marks.now i }
{
    if rows <= i {
        return Mark::Absent;
    }
    let base = i * MARK_CELLS;
    mark_of(marks[base], marks[base + 1], marks[base + 2])
}

// Whether a mark's depth is one, and its place within the code.
fn fits_code(depth: u32, place: usize, code: usize) -> bool
    ensures { result ≡ fits depth place code }
{
    if WORD_MAX < depth {
        return false;
    }
    place <= code
}

// Whether a mark can be.
pub fn mark_sound(code: usize, mark: Mark) -> bool
    ensures { result ≡ mark_sound code mark }
{
    match mark {
        Mark::Absent => true,
        Mark::Open(offset, depth) => fits_code(depth, offset as usize + JUMP_SIZE, code),
        Mark::Patched(offset, depth) => fits_code(depth, offset as usize + JUMP_SIZE, code),
        Mark::Target(offset, depth) => fits_code(depth, offset as usize, code),
    }
}

// Whether the counts are within the lent code and marks.
pub fn counts_sound(core: Core, cl: usize, ml: usize) -> bool
    ensures { result ≡ markable core cl ml }
{
    if cl < core.code {
        return false;
    }
    if CODE_LIMIT < core.code {
        return false;
    }
    core.marks <= ml / MARK_CELLS
}

// Whether a jump at `from` reaches `to`.
pub fn is_near(from: usize, to: usize) -> bool
    requires { (from ≤ 4294967295) × (to ≤ 4294967295) }
    ensures { result ≡ near from to }
{
    if to + 32768 < from + JUMP_SIZE {
        return false;
    }
    to <= from + JUMP_SIZE + 32767
}

// The 16 bits of the displacement.
pub fn bits_of(from: usize, to: usize) -> u16
    requires { (from + jump_size ≤ to + 65536) × (to ≤ 4294967295) }
    ensures { result ≡ bits from to }
{
    ((to + 65536 - (from + JUMP_SIZE)) % 65536) as u16
}

// Whether a label's depth is the one here; dead code has none.
pub fn meets_depth(here: Option<u16>, depth: u32) -> bool
    ensures { result ≡ meets here depth }
{
    match here {
        None => true,
        Some(e) => e as u32 == depth,
    }
}

// The depth behind a patched label.
pub fn revive(here: Option<u16>, depth: u16) -> Option<u16>
    ensures { result ≡ revived here depth }
{
    match here {
        None => Some(depth),
        Some(e) => Some(e),
    }
}

// Whether one of the first `rows` marks is an open label.
pub fn any_open(rows: usize, marks: &[u32]) -> bool
    requires { rows ≤ length marks.now / mark_cells }
    ensures { result ≡ any_open rows marks.now }
{
    let mut found = false;
    for i in 0..rows {
        found = found | (marks[i * MARK_CELLS] == OPEN);
    }
    found
}

// A target's mark at the used end; `d` is the depth here.
pub fn mark_target(b: Builder, d: u16, marks: &mut [u32]) -> Result<(Builder, JumpTarget), Refusal>
    requires { b.core.code ≤ code_limit }
    ensures { target_outcome result marks.new ≡ target_at (Some d) b marks.old }
{
    let core = b.core;
    let row = core.marks;
    if marks.len() / MARK_CELLS <= row {
        return Err(Refusal::Full(Table::Marks));
    }
    let base = row * MARK_CELLS;
    let at = core.code;
    tables::put(&mut marks[base..], &[TARGET, at as u32, d as u32, 0]);
    let core = Core {
        marks: row + 1,
        ..core
    };
    Ok((Builder { core, ..b }, JumpTarget::Row(row)))
}
