// The calls of a builder, whose state is in lent cells: crates/calls/src/lib.rt has what each does.
ghost use Rattle.builder.specs.Answers.{answer_told};
ghost use Rattle.calls.specs.Exports.{AddedLeaves, EmitLeaves, JumpLeaves, KeptLeaves, Leaves, PatchLeaves};
ghost use Rattle.calls.specs.Exports.{TargetLeaves, add_const_in, add_exception_in, build_in, current_jump_target_in};
ghost use Rattle.calls.specs.Exports.{emit_in, emit_jump_in, emit_jump_to_in, look, look_in, new_code_region_in, new_in};
ghost use Rattle.calls.specs.Exports.{patch_jump_in, register_local_name_in, register_local_names_in, set_location_in};
ghost use Rattle.std.specs.Prelude.{◌≡◌};

// A new builder: live at a depth, or dead at 65,536.
#[unsafe(no_mangle)]
pub extern "C" fn tfb_new(depth: u32, state: &mut [u64], starts: &mut [u32]) -> u64
    ensures { KeptLeaves (new_in depth state.old starts.old)
        state.old result state.new starts.new }
{
    calls::tfb_new(depth, state, starts)
}

// Sets the source location of the instructions to come.
#[unsafe(no_mangle)]
pub extern "C" fn tfb_set_location(
    start: u32,
    end: u32,
    has_focus: u8,
    focus_start: u32,
    focus_end: u32,
    state: &mut [u64],
) -> u64
    ensures { Leaves (answer_told (set_location_in start end has_focus focus_start focus_end
        state.old))
        state.old result state.new }
{
    calls::tfb_set_location(start, end, has_focus, focus_start, focus_end, state)
}

// Any emitting call without a jump, by its number: crates/builder/src/numbered.rt has the list.
#[unsafe(no_mangle)]
pub extern "C" fn tfb_emit(
    call: u8,
    opcode: u8,
    a: u16,
    b: u32,
    c: u8,
    names: &[u16],
    state: &mut [u64],
    code: &mut [u8],
    locations: &mut [u32],
) -> u64
    ensures { EmitLeaves (emit_in call opcode a b c names.now state.old
        code.old locations.old)
        state.old result state.new code.new locations.new }
{
    calls::tfb_emit(call, opcode, a, b, c, names, state, code, locations)
}

// A jump forward; its label is the value.
#[unsafe(no_mangle)]
pub extern "C" fn tfb_emit_jump(
    opcode: u8,
    state: &mut [u64],
    code: &mut [u8],
    locations: &mut [u32],
    marks: &mut [u32],
) -> u64
    ensures { JumpLeaves (emit_jump_in opcode state.old code.old
        locations.old marks.old)
        state.old result state.new code.new locations.new marks.new }
{
    calls::tfb_emit_jump(opcode, state, code, locations, marks)
}

// Has a label's jump go to where the code now ends.
#[unsafe(no_mangle)]
pub extern "C" fn tfb_patch_jump(
    label: u64,
    state: &mut [u64],
    code: &mut [u8],
    marks: &mut [u32],
) -> u64
    ensures { PatchLeaves (patch_jump_in label state.old code.old marks.old)
        state.old result state.new code.new marks.new }
{
    calls::tfb_patch_jump(label, state, code, marks)
}

// A jump back to a target.
#[unsafe(no_mangle)]
pub extern "C" fn tfb_emit_jump_to(
    opcode: u8,
    target: u64,
    state: &mut [u64],
    code: &mut [u8],
    locations: &mut [u32],
    marks: &[u32],
) -> u64
    ensures { EmitLeaves (emit_jump_to_in opcode target state.old code.old
        locations.old marks.now)
        state.old result state.new code.new locations.new }
{
    calls::tfb_emit_jump_to(opcode, target, state, code, locations, marks)
}

// The place here as a target, which is the value.
#[unsafe(no_mangle)]
pub extern "C" fn tfb_current_jump_target(state: &mut [u64], marks: &mut [u32]) -> u64
    ensures { TargetLeaves (current_jump_target_in state.old marks.old)
        state.old result state.new marks.new }
{
    calls::tfb_current_jump_target(state, marks)
}

// Names the slots 0, 1, .. before any other name.
#[unsafe(no_mangle)]
pub extern "C" fn tfb_register_local_names(
    names: &[u32],
    state: &mut [u64],
    table: &mut [u64],
) -> u64
    ensures { KeptLeaves (register_local_names_in names.now state.old table.old)
        state.old result state.new table.new }
{
    calls::tfb_register_local_names(names, state, table)
}

// Names a slot that has no name yet.
#[unsafe(no_mangle)]
pub extern "C" fn tfb_register_local_name(
    slot: u16,
    name: u32,
    state: &mut [u64],
    table: &mut [u64],
) -> u64
    ensures { KeptLeaves (register_local_name_in slot name state.old table.old)
        state.old result state.new table.new }
{
    calls::tfb_register_local_name(slot, name, state, table)
}

// Adds a constant; its index is the value.
#[unsafe(no_mangle)]
pub extern "C" fn tfb_add_const(value: u64, state: &mut [u64], constants: &mut [u64]) -> u64
    ensures { AddedLeaves (add_const_in value state.old constants.old)
        state.old result state.new constants.new }
{
    calls::tfb_add_const(value, state, constants)
}

// Adds an exception handler; kind 0 is Consuming, 1 Cleanup.
#[unsafe(no_mangle)]
pub extern "C" fn tfb_add_exception_entry(
    start: usize,
    end: usize,
    handler: usize,
    stack_depth: u16,
    exception_stack_count: u16,
    kind: u8,
    state: &mut [u64],
    exceptions: &mut [u32],
) -> u64
    ensures { KeptLeaves (add_exception_in start end handler stack_depth exception_stack_count kind
        state.old exceptions.old)
        state.old result state.new exceptions.new }
{
    calls::tfb_add_exception_entry(
        start,
        end,
        handler,
        stack_depth,
        exception_stack_count,
        kind,
        state,
        exceptions,
    )
}

// Opens a region of live code at a depth.
#[unsafe(no_mangle)]
pub extern "C" fn tfb_new_code_region(depth: u16, state: &mut [u64], starts: &mut [u32]) -> u64
    ensures { KeptLeaves (new_code_region_in depth state.old starts.old)
        state.old result state.new starts.new }
{
    calls::tfb_new_code_region(depth, state, starts)
}

// Finishes the body: slots without a name get `fill`.
#[unsafe(no_mangle)]
pub extern "C" fn tfb_build(fill: u32, state: &mut [u64], names: &mut [u64], marks: &[u32]) -> u64
    ensures { KeptLeaves (build_in fill state.old names.old marks.now)
        state.old result state.new names.new }
{
    calls::tfb_build(fill, state, names, marks)
}

// What a builder answers about itself: `current_offset`, `stack_depth`, `is_dead` and `current_position`.
#[unsafe(no_mangle)]
pub extern "C" fn tfb_look(state: &[u64], out: &mut [u64]) -> u64
    ensures { look result out.new ≡ look_in state.now out.old }
{
    calls::tfb_look(state, out)
}
