// What lent cells and the numbers beside them hold.
ghost use Rattle.calls.specs.State.{depth_in, focus_in, kind_in, label_in, location_in, state_cells, state_in, target_in};
ghost use Rattle.calls.specs.Inner.{range_in};
ghost use Rattle.std.specs.Prelude.{◌≡◌, ◌≤◌, length, IfSome};

use crate::{DEAD_DEPTH, DEAD_ROW, STATE_CELLS};
use builder::{Builder, Core, JumpLabel, JumpTarget, Location};
use code::{CodeRange, HandlerKind};

pub fn depth_in(number: u64) -> Option<Option<u16>>
    ensures { result ≡ depth_in number }
{
    if number == DEAD_DEPTH {
        return Some(None);
    }
    let depth = u16::try_from(number).ok()?;
    Some(Some(depth))
}

// A range, if both offsets fit a source.
fn range_in(start: u64, end: u64) -> Option<CodeRange>
    ensures { result ≡ range_in start end }
{
    let start = u32::try_from(start).ok()?;
    let end = u32::try_from(end).ok()?;
    Some(CodeRange { start, end })
}

pub fn focus_in(flag: u64, start: u64, end: u64) -> Option<Option<CodeRange>>
    ensures { result ≡ focus_in flag start end }
{
    match flag {
        0 => Some(None),
        1 => {
            let range = range_in(start, end)?;
            Some(Some(range))
        }
        _ => None,
    }
}

fn location_in(
    set: u64,
    start: u64,
    end: u64,
    focus: Option<Option<CodeRange>>,
) -> Option<Option<Location>>
    ensures { result ≡ location_in set start end focus }
{
    match set {
        0 => Some(None),
        1 => {
            let range = range_in(start, end)?;
            Some(Some(Location {
                range,
                focus: focus?,
            }))
        }
        _ => None,
    }
}

// The state that cells hold.
#[tactic(auto, unfolding(crate::specs::State::state_in))]
pub fn state_in(cells: &[u64]) -> Option<Builder>
    ensures state { result ≡ state_in cells.now }
    ensures enough { IfSome result (λ _. state_cells ≤ length cells.now) }
{
    if cells.len() < STATE_CELLS {
        return None;
    }
    let depth = depth_in(cells[4])?;
    let focus = focus_in(cells[12], cells[13], cells[14]);
    let location = location_in(cells[9], cells[10], cells[11], focus)?;
    let core = Core {
        code: cells[1] as usize,
        locations: cells[2] as usize,
        marks: cells[3] as usize,
        depth,
    };
    Some(Builder {
        core,
        location,
        exceptions: cells[5] as usize,
        constants: cells[6] as usize,
        names: cells[7] as usize,
        starts: cells[8] as usize,
    })
}

// These types are other crates', as `From` and `TryFrom` are, so a function reads each.
pub fn label_in(number: u64) -> JumpLabel
    ensures { result ≡ label_in number }
{
    match number {
        DEAD_ROW => JumpLabel::Dead,
        row => JumpLabel::Row(row as usize),
    }
}

pub fn target_in(number: u64) -> JumpTarget
    ensures { result ≡ target_in number }
{
    match number {
        DEAD_ROW => JumpTarget::Dead,
        row => JumpTarget::Row(row as usize),
    }
}

pub fn kind_in(number: u8) -> Option<HandlerKind>
    ensures { result ≡ kind_in number }
{
    HandlerKind::try_from(u32::from(number)).ok()
}
