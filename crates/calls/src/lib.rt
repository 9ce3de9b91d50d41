// The builder's calls, on numbers and slices of numbers: what C calls to build, by way of crate tokenfinch, which exports
// these functions with their promises. The state is in 17 lent cells, and no call trusts them. Cells that hold no state are
// refused by 19, an argument that the builder's own call cannot be given by 2, and then the call answers as the builder's
// does. A refusal changes no cell.
#![tactic(auto)]

ghost use Rattle.builder.specs.Answers.{answer_told};
ghost use Rattle.calls.specs.Exports.{AddedLeaves, EmitLeaves, JumpLeaves, KeptLeaves, Leaves, PatchLeaves};
ghost use Rattle.calls.specs.Exports.{TargetLeaves, add_const_in, add_exception_in, build_in, current_jump_target_in};
ghost use Rattle.calls.specs.Exports.{emit_in, emit_jump_in, emit_jump_to_in, look, look_in, new_code_region_in, new_in};
ghost use Rattle.calls.specs.Exports.{patch_jump_in, register_local_name_in, register_local_names_in, set_location_in};
ghost use Rattle.std.specs.Prelude.{◌≡◌};

use builder::Builder;
use code::CodeRange;
use op::{Refusal, Table, refusals};

mod reading;
mod writing;

// The cells of a state; the last two are kept for what may come.
pub const STATE_CELLS: usize = 17;

// The numbers that `tfb_look` tells.
pub const LOOK_CELLS: usize = 5;

// The number of a depth that is dead.
pub const DEAD_DEPTH: u64 = 65536;

// The number of a label or a target that is dead.
pub const DEAD_ROW: u64 = 0xFFFF_FFFF_FFFF_FFFF;

// The cells of a location; what is not there is 0.
#[derive(Clone, Copy, Default)]
pub struct Place {
    pub set: u64,
    pub start: u64,
    pub end: u64,
    pub focus: u64,
    pub from: u64,
    pub to: u64,
}

// A new builder: live at a depth, or dead at 65,536.
#[tactic(auto, unfolding(crate::specs::Exports::new_in, crate::specs::Exports::told_depth))]
pub fn tfb_new(depth: u32, state: &mut [u64], starts: &mut [u32]) -> u64
    ensures { KeptLeaves (new_in depth state.old starts.old)
        state.old result state.new starts.new }
{
    if state.len() < STATE_CELLS {
        return refusals::answer(Refusal::Unsound);
    }
    let Some(live) = reading::depth_in(depth as u64) else {
        return refusals::answer(Refusal::WrongShape);
    };
    writing::leave(Builder::new(live, starts), state)
}

// Sets the source location of the instructions to come.
#[tactic(auto, unfolding(crate::specs::Exports::set_location_in, crate::specs::Exports::held, crate::specs::Exports::told_focus))]
pub fn tfb_set_location(
    start: u32,
    end: u32,
    has_focus: u8,
    focus_start: u32,
    focus_end: u32,
    state: &mut [u64],
) -> u64
    ensures { Leaves (answer_told (set_location_in start end has_focus focus_start focus_end
        state.old))
        state.old result state.new }
{
    let Some(before) = reading::state_in(state) else {
        return refusals::answer(Refusal::Unsound);
    };
    let Some(focus) = reading::focus_in(has_focus as u64, focus_start as u64, focus_end as u64)
    else {
        return refusals::answer(Refusal::WrongShape);
    };
    writing::accept(
        before.set_location(CodeRange { start, end }, focus),
        0,
        state,
    )
}

// Any emitting call without a jump, by its number: crates/builder/src/numbered.rt has the list.
#[tactic(auto, unfolding(crate::specs::Exports::emit_in, crate::specs::Exports::held))]
pub fn tfb_emit(
    call: u8,
    opcode: u8,
    a: u16,
    b: u32,
    c: u8,
    names: &[u16],
    state: &mut [u64],
    code: &mut [u8],
    locations: &mut [u32],
) -> u64
    ensures { EmitLeaves (emit_in call opcode a b c names.now state.old
        code.old locations.old)
        state.old result state.new code.new locations.new }
{
    let Some(before) = reading::state_in(state) else {
        return refusals::answer(Refusal::Unsound);
    };
    writing::leave_core(
        before.emit_numbered(call, opcode, a, b, c, names, code, locations),
        state,
    )
}

// A jump forward; its label is the value.
#[tactic(auto, unfolding(crate::specs::Exports::emit_jump_in, crate::specs::Exports::held))]
pub fn tfb_emit_jump(
    opcode: u8,
    state: &mut [u64],
    code: &mut [u8],
    locations: &mut [u32],
    marks: &mut [u32],
) -> u64
    ensures { JumpLeaves (emit_jump_in opcode state.old code.old
        locations.old marks.old)
        state.old result state.new code.new locations.new marks.new }
{
    let Some(before) = reading::state_in(state) else {
        return refusals::answer(Refusal::Unsound);
    };
    match before.emit_jump(opcode, code, locations, marks) {
        Ok((after, label)) => writing::accept_core(after, writing::label_number(label), state),
        Err(refusal) => refusals::answer(refusal),
    }
}

// Has a label's jump go to where the code now ends.
#[tactic(auto, unfolding(crate::specs::Exports::patch_jump_in, crate::specs::Exports::held))]
pub fn tfb_patch_jump(label: u64, state: &mut [u64], code: &mut [u8], marks: &mut [u32]) -> u64
    ensures { PatchLeaves (patch_jump_in label state.old code.old marks.old)
        state.old result state.new code.new marks.new }
{
    let Some(before) = reading::state_in(state) else {
        return refusals::answer(Refusal::Unsound);
    };
    writing::leave_core(
        before.patch_jump(reading::label_in(label), code, marks),
        state,
    )
}

// A jump back to a target.
#[tactic(auto, unfolding(crate::specs::Exports::emit_jump_to_in, crate::specs::Exports::held))]
pub fn tfb_emit_jump_to(
    opcode: u8,
    target: u64,
    state: &mut [u64],
    code: &mut [u8],
    locations: &mut [u32],
    marks: &[u32],
) -> u64
    ensures { EmitLeaves (emit_jump_to_in opcode target state.old code.old
        locations.old marks.now)
        state.old result state.new code.new locations.new }
{
    let Some(before) = reading::state_in(state) else {
        return refusals::answer(Refusal::Unsound);
    };
    writing::leave_core(
        before.emit_jump_to(opcode, reading::target_in(target), code, locations, marks),
        state,
    )
}

// The place here as a target, which is the value.
#[tactic(auto, unfolding(crate::specs::Exports::current_jump_target_in, crate::specs::Exports::held))]
pub fn tfb_current_jump_target(state: &mut [u64], marks: &mut [u32]) -> u64
    ensures { TargetLeaves (current_jump_target_in state.old marks.old)
        state.old result state.new marks.new }
{
    let Some(before) = reading::state_in(state) else {
        return refusals::answer(Refusal::Unsound);
    };
    match before.current_jump_target(marks) {
        Ok((after, target)) => writing::accept_core(after, writing::target_number(target), state),
        Err(refusal) => refusals::answer(refusal),
    }
}

// Names the slots 0, 1, .. before any other name.
#[tactic(auto, unfolding(crate::specs::Exports::register_local_names_in, crate::specs::Exports::held))]
pub fn tfb_register_local_names(names: &[u32], state: &mut [u64], table: &mut [u64]) -> u64
    ensures { KeptLeaves (register_local_names_in names.now state.old table.old)
        state.old result state.new table.new }
{
    let Some(before) = reading::state_in(state) else {
        return refusals::answer(Refusal::Unsound);
    };
    writing::leave(before.register_local_names(names, table), state)
}

// Names a slot that has no name yet.
#[tactic(auto, unfolding(crate::specs::Exports::register_local_name_in, crate::specs::Exports::held))]
pub fn tfb_register_local_name(slot: u16, name: u32, state: &mut [u64], table: &mut [u64]) -> u64
    ensures { KeptLeaves (register_local_name_in slot name state.old table.old)
        state.old result state.new table.new }
{
    let Some(before) = reading::state_in(state) else {
        return refusals::answer(Refusal::Unsound);
    };
    writing::leave(before.register_local_name(slot, name, table), state)
}

// Adds a constant; its index is the value.
#[tactic(auto, unfolding(crate::specs::Exports::add_const_in, crate::specs::Exports::held))]
pub fn tfb_add_const(value: u64, state: &mut [u64], constants: &mut [u64]) -> u64
    ensures { AddedLeaves (add_const_in value state.old constants.old)
        state.old result state.new constants.new }
{
    let Some(before) = reading::state_in(state) else {
        return refusals::answer(Refusal::Unsound);
    };
    match before.add_const(value, constants) {
        Ok((after, index)) => writing::accept(after, index as u64, state),
        Err(refusal) => refusals::answer(refusal),
    }
}

// Adds an exception handler; kind 0 is Consuming, 1 Cleanup.
#[tactic(auto, unfolding(crate::specs::Exports::add_exception_in, crate::specs::Exports::held, crate::specs::Exports::told_kind))]
pub fn tfb_add_exception_entry(
    start: usize,
    end: usize,
    handler: usize,
    stack_depth: u16,
    exception_stack_count: u16,
    kind: u8,
    state: &mut [u64],
    exceptions: &mut [u32],
) -> u64
    ensures { KeptLeaves (add_exception_in start end handler stack_depth exception_stack_count kind
        state.old exceptions.old)
        state.old result state.new exceptions.new }
{
    let Some(before) = reading::state_in(state) else {
        return refusals::answer(Refusal::Unsound);
    };
    let Some(handled) = reading::kind_in(kind) else {
        return refusals::answer(Refusal::WrongShape);
    };
    writing::leave(
        before.add_exception_entry(
            start,
            end,
            handler,
            stack_depth,
            exception_stack_count,
            handled,
            exceptions,
        ),
        state,
    )
}

// Opens a region of live code at a depth.
#[tactic(auto, unfolding(crate::specs::Exports::new_code_region_in, crate::specs::Exports::held))]
pub fn tfb_new_code_region(depth: u16, state: &mut [u64], starts: &mut [u32]) -> u64
    ensures { KeptLeaves (new_code_region_in depth state.old starts.old)
        state.old result state.new starts.new }
{
    let Some(before) = reading::state_in(state) else {
        return refusals::answer(Refusal::Unsound);
    };
    writing::leave(before.new_code_region(depth, starts), state)
}

// Finishes the body: slots without a name get `fill`.
#[tactic(auto, unfolding(crate::specs::Exports::build_in, crate::specs::Exports::held))]
pub fn tfb_build(fill: u32, state: &mut [u64], names: &mut [u64], marks: &[u32]) -> u64
    ensures { KeptLeaves (build_in fill state.old names.old marks.now)
        state.old result state.new names.new }
{
    let Some(before) = reading::state_in(state) else {
        return refusals::answer(Refusal::Unsound);
    };
    writing::leave(before.build(fill, names, marks), state)
}

// What a builder answers about itself: `current_offset`, `stack_depth`, `is_dead` and `current_position`.
#[tactic(auto, unfolding(crate::specs::Exports::look_in, crate::specs::Exports::held))]
pub fn tfb_look(state: &[u64], out: &mut [u64]) -> u64
    ensures { look result out.new ≡ look_in state.now out.old }
{
    let Some(here) = reading::state_in(state) else {
        return refusals::answer(Refusal::Unsound);
    };
    if out.len() < LOOK_CELLS {
        return refusals::answer(Refusal::Full(Table::Text));
    }
    writing::tell(here, out);
    0
}
