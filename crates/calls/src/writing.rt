// What a call leaves in the state's cells, and its answer. A refusal leaves them as they are.
ghost use Rattle.std.specs.Prelude.{◌≤◌, length, ◌≡◌};
ghost use Rattle.builder.specs.Answers.{Accepts, answer_told, depth_number, label_number, target_number};
ghost use Rattle.code.specs.Bytes.{front};
ghost use Rattle.calls.specs.Exports.{Leaves, LeavesCore, look_cells, look_of};
ghost use Rattle.calls.specs.State.{place_of, state_cells};

use crate::{DEAD_DEPTH, DEAD_ROW, Place};
use builder::{Builder, JumpLabel, JumpTarget, Location};
use op::{Refusal, refusals};

// The numbers of three types. They are crate `builder`'s, as `From` is std's, so a crate above both has functions for it; one
// for the two rows would need a trait, which is no plainer.
pub fn depth_number(depth: Option<u16>) -> u64
    ensures { result ≡ depth_number depth }
{
    match depth {
        None => DEAD_DEPTH,
        Some(d) => d as u64,
    }
}

pub fn label_number(label: JumpLabel) -> u64
    ensures { result ≡ label_number label }
{
    match label {
        JumpLabel::Dead => DEAD_ROW,
        JumpLabel::Row(row) => row as u64,
    }
}

pub fn target_number(target: JumpTarget) -> u64
    ensures { result ≡ target_number target }
{
    match target {
        JumpTarget::Dead => DEAD_ROW,
        JumpTarget::Row(row) => row as u64,
    }
}

impl From<Option<Location>> for Place {
    ghost from_gives = { λ location place. place ≡ place_of location };

    fn from(location: Option<Location>) -> Place {
        match location {
            None => Place::default(),
            Some(Location { range, focus }) => {
                let place = Place {
                    set: 1,
                    start: range.start as u64,
                    end: range.end as u64,
                    ..Place::default()
                };
                match focus {
                    None => place,
                    Some(part) => Place {
                        focus: 1,
                        from: part.start as u64,
                        to: part.end as u64,
                        ..place
                    },
                }
            }
        }
    }
}

// The core and a value to the front of cells, and the answer 0.
pub fn accept_core(after: Builder, value: u64, cells: &mut [u64]) -> u64
    requires { state_cells ≤ length cells.old }
    ensures { LeavesCore (Accepts value after) cells.old result cells.new }
{
    let core = after.core;
    cells[..5].copy_from_slice(&[
        value,
        core.code as u64,
        core.locations as u64,
        core.marks as u64,
        depth_number(core.depth),
    ]);
    0
}

// The whole state and a value to the front of cells, and the answer 0.
pub fn accept(after: Builder, value: u64, cells: &mut [u64]) -> u64
    requires { state_cells ≤ length cells.old }
    ensures { Leaves (Accepts value after) cells.old result cells.new }
{
    let core = after.core;
    let place = Place::from(after.location);
    cells[..15].copy_from_slice(&[
        value,
        core.code as u64,
        core.locations as u64,
        core.marks as u64,
        depth_number(core.depth),
        after.exceptions as u64,
        after.constants as u64,
        after.names as u64,
        after.starts as u64,
        place.set,
        place.start,
        place.end,
        place.focus,
        place.from,
        place.to,
    ]);
    0
}

// What an emitting call leaves, which changes the core alone.
pub fn leave_core(answer: Result<Builder, Refusal>, cells: &mut [u64]) -> u64
    requires { state_cells ≤ length cells.old }
    ensures { LeavesCore (answer_told answer) cells.old result cells.new }
{
    match answer {
        Ok(after) => accept_core(after, 0, cells),
        Err(refusal) => refusals::answer(refusal),
    }
}

// What any other call leaves.
pub fn leave(answer: Result<Builder, Refusal>, cells: &mut [u64]) -> u64
    requires { state_cells ≤ length cells.old }
    ensures { Leaves (answer_told answer) cells.old result cells.new }
{
    match answer {
        Ok(after) => accept(after, 0, cells),
        Err(refusal) => refusals::answer(refusal),
    }
}

// What a builder answers about itself, to the front of cells.
pub fn tell(b: Builder, out: &mut [u64])
    requires { look_cells ≤ length out.old }
    ensures { out.new ≡ front (look_of b) out.old }
{
    let range = b.current_position();
    out[..5].copy_from_slice(&[
        b.current_offset() as u64,
        depth_number(b.stack_depth()),
        u64::from(b.is_dead()),
        range.start as u64,
        range.end as u64,
    ]);
}
