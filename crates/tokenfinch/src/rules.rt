// The rules of the opcodes, the decoder, the writer, the checker and the lookups: crates/api/src/lib.rt has what each does.
ghost use Rattle.std.specs.Prelude.{◌≡◌, length, drop};
ghost use Rattle.op.specs.Opcodes.{last_opcode};
ghost use Rattle.op.specs.Shapes.{shape_of};
ghost use Rattle.op.specs.Effects.{taken_of, net_of, deadness_of};
ghost use Rattle.op.specs.Depths.{taken_depth_of};
ghost use Rattle.op.specs.Flags.{decoded_flags};
ghost use Rattle.fingerprint.specs.Fnv.{fnv1a_of};
ghost use Rattle.fingerprint.specs.Table.{fingerprint};
ghost use Rattle.code.specs.Decode.{decode};
ghost use Rattle.code.specs.Lookups.{location_of, handler_of, constant_of, local_name_of};
ghost use Rattle.api.specs.Answers.{shape_answer, net_answer, dead_answer, depth_answer, size_answer, name_answer};
ghost use Rattle.api.specs.Answers.{name_cells, count_answer};
ghost use Rattle.api.specs.Checks.{ChecksTold, ExplainsTold};
ghost use Rattle.api.specs.Given.{given_of, effect_given, after_given, flags_given, flags_answer};
ghost use Rattle.text.specs.Fitting.{Lists};
ghost use Rattle.text.specs.Lines.{plain_lines, ListsChecked};
ghost use Rattle.api.specs.Listings.{ListingTold};
ghost use Rattle.api.specs.Pairs.{two_told};
ghost use Rattle.api.specs.Told.{Tells};
ghost use Rattle.api.specs.Typed.{ReadsTold};
ghost use Rattle.api.specs.Steps.{step_told, WritesGiven};
ghost use Rattle.api.specs.Tables.{located_told, handled_told, constant_told, name_told};

#[unsafe(no_mangle)]
pub extern "C" fn tf_operand_shape(opcode: u8) -> u64
    ensures { result ≡ shape_answer (shape_of opcode) }
{
    api::tf_operand_shape(opcode)
}

#[unsafe(no_mangle)]
pub extern "C" fn tf_stack_effect(opcode: u8, shape: u8, a: u16, b: u16, c: u8, names: u8) -> u64
    ensures { result ≡ net_answer (net_of (effect_given opcode (given_of shape a b c names))) }
{
    api::tf_stack_effect(opcode, shape, a, b, c, names)
}

#[unsafe(no_mangle)]
pub extern "C" fn tf_jump_taken_stack_effect(opcode: u8) -> u64
    ensures { result ≡ net_answer (net_of (taken_of opcode)) }
{
    api::tf_jump_taken_stack_effect(opcode)
}

#[unsafe(no_mangle)]
pub extern "C" fn tf_makes_dead(opcode: u8) -> u64
    ensures { result ≡ dead_answer (deadness_of opcode) }
{
    api::tf_makes_dead(opcode)
}

#[unsafe(no_mangle)]
pub extern "C" fn tf_depth_after(
    depth: u16,
    opcode: u8,
    shape: u8,
    a: u16,
    b: u16,
    c: u8,
    names: u8,
) -> u64
    ensures { result ≡ depth_answer (after_given depth opcode (given_of shape a b c names)) }
{
    api::tf_depth_after(depth, opcode, shape, a, b, c, names)
}

#[unsafe(no_mangle)]
pub extern "C" fn tf_depth_taken(depth: u16, opcode: u8) -> u64
    ensures { result ≡ depth_answer (taken_depth_of depth opcode) }
{
    api::tf_depth_taken(depth, opcode)
}

#[unsafe(no_mangle)]
pub extern "C" fn tf_instruction_size(opcode: u8, names: u8) -> u64
    ensures { result ≡ size_answer (shape_of opcode) names }
{
    api::tf_instruction_size(opcode, names)
}

#[unsafe(no_mangle)]
pub extern "C" fn tf_opcode_name(opcode: u8, out: &mut [u8]) -> u64
    ensures { (result ≡ name_answer opcode (length out.old))
        × (out.new ≡ name_cells opcode out.old) }
{
    api::tf_opcode_name(opcode, out)
}

#[unsafe(no_mangle)]
pub extern "C" fn tf_assert_flags(comparison: u8) -> u8
    ensures { result ≡ flags_given comparison }
{
    api::tf_assert_flags(comparison)
}

#[unsafe(no_mangle)]
pub extern "C" fn tf_decode_assert_flags(flags: u8) -> u8
    ensures { result ≡ flags_answer (decoded_flags flags) }
{
    api::tf_decode_assert_flags(flags)
}

#[unsafe(no_mangle)]
pub extern "C" fn tf_fingerprint() -> u64
    ensures { result ≡ fingerprint }
{
    api::tf_fingerprint()
}

#[unsafe(no_mangle)]
pub extern "C" fn tf_fnv1a(bytes: &[u8]) -> u64
    ensures { result ≡ fnv1a_of bytes.now }
{
    api::tf_fnv1a(bytes)
}

#[unsafe(no_mangle)]
pub extern "C" fn tf_count_instructions(code: &[u8]) -> u64
    ensures { result ≡ count_answer code.now }
{
    api::tf_count_instructions(code)
}

#[unsafe(no_mangle)]
pub extern "C" fn tf_step(code: &[u8], at: usize, out: &mut [u64]) -> u64
    ensures { Tells (step_told at (decode last_opcode at (drop at code.now))) out.old result
        out.new }
{
    api::tf_step(code, at, out)
}

#[unsafe(no_mangle)]
pub extern "C" fn tf_write(
    out: &mut [u8],
    opcode: u8,
    shape: u8,
    a: u16,
    b: u16,
    c: u8,
    names: &[u16],
) -> u64
    ensures { WritesGiven opcode (given_of shape a b c (length names.now)) names.now
        out.old result out.new }
{
    api::tf_write(out, opcode, shape, a, b, c, names)
}

#[unsafe(no_mangle)]
pub extern "C" fn tf_check(
    mode: u8,
    code: &[u8],
    starts: &[u32],
    depths: &mut [u32],
    work: &mut [u32],
    greatest: &mut u32,
) -> u64
    ensures { ChecksTold mode code.now starts.now depths.old depths.new
        work.old work.new greatest.old greatest.new result }
{
    api::tf_check(mode, code, starts, depths, work, greatest)
}

#[unsafe(no_mangle)]
pub extern "C" fn tf_explain(
    mode: u8,
    code: &[u8],
    starts: &[u32],
    depths: &mut [u32],
    work: &mut [u32],
    greatest: &mut u32,
    told: &mut [u64],
) -> u64
    ensures { ExplainsTold mode code.now starts.now depths.old
        depths.new work.old work.new told.old told.new
        greatest.old greatest.new result }
{
    api::tf_explain(mode, code, starts, depths, work, greatest, told)
}

#[unsafe(no_mangle)]
pub extern "C" fn tf_list(code: &[u8], from: usize, text: &mut [u8], told: &mut [u64]) -> u64
    ensures { ListingTold (Lists (plain_lines code.now from) from text.old)
        text.old told.old result text.new told.new }
{
    api::tf_list(code, from, text, told)
}

#[unsafe(no_mangle)]
pub extern "C" fn tf_check_listing(
    code: &[u8],
    depths: &[u32],
    from: usize,
    text: &mut [u8],
    told: &mut [u64],
) -> u64
    ensures { ListingTold (ListsChecked code.now depths.now from text.old)
        text.old told.old result text.new told.new }
{
    api::tf_check_listing(code, depths, from, text, told)
}

#[unsafe(no_mangle)]
pub extern "C" fn tf_location_for_offset(rows: &[u32], offset: usize, out: &mut [u64]) -> u64
    ensures { Tells (located_told (location_of rows.now offset)) out.old result
        out.new }
{
    api::tf_location_for_offset(rows, offset, out)
}

#[unsafe(no_mangle)]
pub extern "C" fn tf_find_exception_handler(rows: &[u32], offset: u32, out: &mut [u64]) -> u64
    ensures { Tells (handled_told (handler_of rows.now offset)) out.old result
        out.new }
{
    api::tf_find_exception_handler(rows, offset, out)
}

#[unsafe(no_mangle)]
pub extern "C" fn tf_find_in_two(rows: &[u32], offset: u32, out: &mut [u64]) -> u64
    ensures { Tells (two_told rows.now offset) out.old result out.new }
{
    api::tf_find_in_two(rows, offset, out)
}

#[unsafe(no_mangle)]
pub extern "C" fn tf_constant(constants: &[u64], index: usize, out: &mut [u64]) -> u64
    ensures { Tells (constant_told (constant_of constants.now index)) out.old result
        out.new }
{
    api::tf_constant(constants, index, out)
}

#[unsafe(no_mangle)]
pub extern "C" fn tf_local_name(names: &[u64], slot: usize, out: &mut [u64]) -> u64
    ensures { Tells (name_told (local_name_of names.now slot)) out.old result out.new }
{
    api::tf_local_name(names, slot, out)
}

#[unsafe(no_mangle)]
pub extern "C" fn tf_read_listing(text: &[u8], code: &mut [u8]) -> u64
    ensures { ReadsTold text.now code.old result code.new }
{
    api::tf_read_listing(text, code)
}
