// Walks over the code and over the start list.
ghost use Rattle.std.specs.Prelude.{◌≡◌, ℕ, suc, ◌+◌, ◌*◌, ◌<◌, leb, length, drop, get_or};
ghost use Rattle.op.specs.Opcodes.{last_opcode};
ghost use Rattle.code.specs.Decode.{decode};
ghost use Rattle.checker.specs.Inner.{place_mark, stop_of, Walked, StartsTold};

use code::{START_CELLS, Step, WORD_MAX, decoder, sizes};
use op::Refusal;

// What a work cell holds where a place is: more than any offset, so that it stands beside one.
pub const PLACE_MARK: u32 = 2097152;

// A start: an offset, and the depth there.
#[derive(Clone, Copy)]
pub struct Start {
    pub offset: usize,
    pub depth: u32,
}

// What a walk that can go no further has met.
fn stop(code: &[u8], at: usize) -> Result<(), Refusal>
    ensures { result ≡ stop_of (decode last_opcode at (drop at code.now)) }
{
    decoder::step_at(code, at).map(|_| ())
}

// Marks each place in cells of zeros, up to the first fault, if there is one. The steps are of many sizes, so no `for`
// counts them.
pub fn mark_places(code: &[u8], work: &mut [u32]) -> Result<(), Refusal>
    requires { (length work.old ≡ suc (length code.now)) × ((o : ℕ) → get_or work.old o 0 ≡ 0) }
    ensures { Walked last_opcode code.now work.new result }
{
    let mut at = 0;
    loop {
        work[at] = PLACE_MARK;
        let size = sizes::size_at(code, at);
        if size == 0 {
            return stop(code, at);
        }
        at += size;
    }
}

// Whether an offset is marked.
pub fn marked(work: &[u32], o: usize) -> bool
    ensures { result ≡ leb place_mark (get_or work.now o 0) }
{
    work.get(o).is_some_and(|holds| PLACE_MARK <= *holds)
}

// Start k.
pub fn start_at(starts: &[u32], k: usize) -> Start
    requires { 2 * k + 1 < length starts.now }
    ensures offset { result.offset ≡ get_or starts.now (2 * k) 0 }
    ensures depth { result.depth ≡ get_or starts.now (2 * k + 1) 0 }
{
    Start {
        offset: starts[START_CELLS * k] as usize,
        depth: starts[START_CELLS * k + 1],
    }
}

// Whether the start list is one that can be, by the marks.
pub fn starts_fine(work: &[u32], starts: &[u32]) -> bool
    ensures { StartsTold work.now starts.now result }
{
    if starts.len() % START_CELLS != 0 {
        return false;
    }
    for k in 0..starts.len() / START_CELLS {
        let start = start_at(starts, k);
        if WORD_MAX < start.depth || !marked(work, start.offset) {
            return false;
        }
    }
    true
}
