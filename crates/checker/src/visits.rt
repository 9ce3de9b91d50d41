// What one instruction asks of the places that it goes to. A jump's target that gets a depth by it is put on the list;
// the place behind it stays in hand, since it is visited next.
ghost use Rattle.std.specs.Prelude.{◌≡◌, ◌+◌, ◌*◌, ◌<◌, ◌≤◌, length, get_or};
ghost use Rattle.code.specs.Tables.{word_max};
ghost use Rattle.code.specs.declared.Goal.TheVariants.{To};
ghost use Rattle.checker.specs.Inner.{place_mark, Ready, in_hand, Passes, Asked, Handed, Landed, FellInHand, Jumped, Moved};

use crate::{Reason, walks};
use code::{Flow, Goal, WORD_MAX};
use op::Effect;

// An instruction at an offset that has a depth.
#[derive(Clone, Copy)]
pub struct Visit {
    pub at: usize,
    pub depth: u32,
    pub flow: Flow,
}

// How the work on one place went.
#[derive(Clone, Copy)]
pub struct Passed {
    // how many places wait
    pub top: usize,
    // one more, which got its depth and is in hand
    pub next: Option<usize>,
}

// The depth after a change, where it is in range.
fn land(depth: u32, change: Effect) -> Option<u32>
    ensures { Landed depth change result }
{
    let have = u64::from(depth) + u64::from(change.up);
    let need = u64::from(change.down);
    if have < need || u64::from(WORD_MAX) < have - need {
        return None;
    }
    Some((have - need) as u32)
}

// The place `o` is asked to have a depth: it has it, or it has another, or it gets it and is in hand.
fn hold(cells: &mut [u32], o: usize, depth: u32) -> Result<Option<usize>, Reason>
    requires { (o < length cells.old) × (depth ≤ word_max) }
    ensures { Handed cells.old cells.new o depth result }
{
    let was = cells[o];
    if was == depth {
        return Ok(None);
    }
    if was <= WORD_MAX {
        return Err(Reason::TwoDepths {
            place: o,
            one: was,
            other: depth,
        });
    }
    cells[o] = depth;
    Ok(Some(o))
}

// A place is put on the list; answers how many wait then.
fn put(work: &mut [u32], top: usize, o: usize) -> usize
    requires { (top < length work.old) × (get_or work.old top 0 + o < 2 * place_mark) }
    ensures { (work.new ≡ in_hand work.old top o) × (result ≡ top + 1) }
{
    work[top] += o as u32;
    top + 1
}

// The same as `hold`, but what would be in hand waits; answers how many wait.
pub fn ask(
    cells: &mut [u32],
    work: &mut [u32],
    top: usize,
    o: usize,
    depth: u32,
) -> Result<usize, Reason>
    requires { Ready cells.old work.old top × (o < length cells.old) × (depth ≤ word_max) }
    ensures { Asked cells.old cells.new work.old work.new
        top o depth result }
{
    match hold(cells, o, depth)? {
        Some(place) => Ok(put(work, top, place)),
        None => Ok(top),
    }
}

impl Visit {
    // Falling through. The net depth must be in range also where the instruction falls nowhere.
    fn fall(self, cells: &mut [u32]) -> Result<Option<usize>, Reason>
        requires { self.at + self.flow.size < length cells.old }
        ensures { FellInHand self.flow cells.old cells.new self.at self.depth result }
    {
        let Visit { at, depth, flow } = self;
        let behind = land(depth, flow.net).ok_or(Reason::NetOutOfRange { at, depth })?;
        if flow.falls {
            return hold(cells, at + flow.size, behind);
        }
        Ok(None)
    }

    // The taken jump to `t`; answers how many places wait.
    fn jump(
        self,
        cells: &mut [u32],
        work: &mut [u32],
        top: usize,
        t: usize,
    ) -> Result<usize, Reason>
        requires { Ready cells.old work.old top × (self.flow.goal ≡ To t) }
        ensures { Jumped self.flow cells.old cells.new work.old work.new
            top self.at self.depth result }
    {
        let Visit { at, depth, flow } = self;
        if !walks::marked(work, t) {
            return Err(Reason::NoPlace { at, depth });
        }
        let there = land(depth, flow.taken).ok_or(Reason::TakenOutOfRange { at, depth })?;
        ask(cells, work, top, t, there)
    }

    // The same, if the instruction is a jump.
    fn leap(self, cells: &mut [u32], work: &mut [u32], top: usize) -> Result<usize, Reason>
        requires { Ready cells.old work.old top }
        ensures { Jumped self.flow cells.old cells.new work.old work.new
            top self.at self.depth result }
    {
        let Visit { at, depth, flow } = self;
        match flow.goal {
            Goal::Nowhere => Ok(top),
            Goal::To(t) => self.jump(cells, work, top, t),
            Goal::Outside => Err(Reason::NoPlace { at, depth }),
        }
    }

    // Both ways on.
    pub fn move_on(self, cells: &mut [u32], work: &mut [u32], top: usize) -> Result<Passed, Reason>
        requires { Ready cells.old work.old top × (self.at + self.flow.size < length cells.old) }
        ensures { Passes work.new (λ x y. Moved self.flow cells.old cells.new
            work.old x top self.at self.depth y) result }
    {
        let top = self.leap(cells, work, top)?;
        let next = self.fall(cells)?;
        Ok(Passed { top, next })
    }
}
