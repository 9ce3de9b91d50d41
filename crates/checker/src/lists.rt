// The list of places still to visit. It stands in the work cells, beside the marks. A place is put on it, or is in
// hand, when it gets its depth; so each is visited once.
// The two lent slices are passed side by side: in a struct of two loans each clause would be longer.
ghost use Rattle.std.specs.Prelude.{◌≡◌, suc, ◌<◌, ◌≤◌, length, replicate};
ghost use Rattle.op.specs.Opcodes.{last_opcode};
ghost use Rattle.code.specs.Tables.{word_max, no_depth};
ghost use Rattle.checker.specs.Cells.{cell};
ghost use Rattle.checker.specs.Promise.{Listed};
ghost use Rattle.checker.specs.Inner.{Marks, Ready, Passes, Expanded, InHand, Followed};
ghost use Rattle.checker.specs.Inner.{Took, StartsIn, Begun, Loaded, Drained, Came};

use crate::visits::{Passed, Visit};
use crate::walks::PLACE_MARK;
use crate::{Reason, visits, walks};
use code::{START_CELLS, flows};

// How far work on places one behind the other came.
#[derive(Clone, Copy)]
struct Ran {
    // how many places wait
    top: usize,
    // how many were visited
    taken: usize,
}

// Takes the entry `last` off the list; its cell keeps the mark.
fn take(work: &mut [u32], last: usize) -> usize
    requires { last < length work.old }
    ensures { Took work.old work.new last result }
{
    let was = work[last];
    let at = was % PLACE_MARK;
    work[last] = was - at;
    at as usize
}

// Visits what stands at an offset that has a depth.
fn expand(
    code: &[u8],
    cells: &mut [u32],
    work: &mut [u32],
    top: usize,
    at: usize,
) -> Result<Passed, Reason>
    requires { Ready cells.old work.old top × (length cells.old ≡ suc (length code.now))
        × (cell cells.old at ≤ word_max) }
    ensures { Passes work.new (λ x y. Expanded last_opcode code.now cells.old
        cells.new work.old x top at y) result }
{
    let depth = cells[at];
    let Ok(found) = flows::flow_at(code, at) else {
        return Ok(Passed { top, next: None });
    };
    let Some(flow) = found else {
        return Ok(Passed { top, next: None });
    };
    Visit { at, depth, flow }.move_on(cells, work, top)
}

// Follows the code from a place in hand, as it falls through, to where it does not or a depth stands already; `taken`
// places were visited before.
fn follow(
    code: &[u8],
    cells: &mut [u32],
    work: &mut [u32],
    mut top: usize,
    mut at: usize,
    mut taken: usize,
) -> Result<Ran, Reason>
    requires { InHand last_opcode code.now cells.old cells.old work.old top at taken
        × (length cells.old ≡ suc (length code.now)) }
    ensures { Followed last_opcode code.now cells.old cells.new
        work.new taken result }
{
    'places: loop {
        let passed = expand(code, cells, work, top, at)?;
        taken += 1;
        top = passed.top;
        let Some(next) = passed.next else {
            return Ok(Ran { top, taken });
        };
        at = next;
    }
}

// The places of the starts get their depths and wait; answers how many wait.
fn begin(starts: &[u32], cells: &mut [u32], work: &mut [u32]) -> Result<usize, Reason>
    requires { Ready cells.old work.old 0 × StartsIn starts.now cells.old }
    ensures { Begun starts.now cells.old cells.new
        work.old work.new result }
{
    let mut top = 0;
    for k in 0..starts.len() / START_CELLS {
        let start = walks::start_at(starts, k);
        top = visits::ask(cells, work, top, start.offset, start.depth)?;
    }
    Ok(top)
}

// Visits what waits, and what is come to from there, until nothing waits, and answers how many places were visited.
fn drain(code: &[u8], cells: &mut [u32], work: &mut [u32], mut top: usize) -> Result<usize, Reason>
    requires { Loaded last_opcode code.now cells.old work.old top
        × (length cells.old ≡ suc (length code.now)) }
    ensures { Drained last_opcode code.now cells.old cells.new result }
{
    let mut taken = 0;
    while 0 < top {
        let last = top - 1;
        let at = take(work, last);
        let ran = follow(code, cells, work, last, at, taken)?;
        top = ran.top;
        taken = ran.taken;
    }
    Ok(taken)
}

// All that follows from the starts, in cells without depths; answers how many places have a depth.
pub fn reach(
    code: &[u8],
    starts: &[u32],
    cells: &mut [u32],
    work: &mut [u32],
) -> Result<usize, Reason>
    requires { (cells.old ≡ replicate (suc (length code.now)) no_depth) × Ready cells.old work.old 0
        × Marks last_opcode code.now work.old × Listed last_opcode code.now starts.now }
    ensures { Came last_opcode code.now starts.now cells.new result }
{
    let top = begin(starts, cells, work)?;
    drain(code, cells, work, top)
}
