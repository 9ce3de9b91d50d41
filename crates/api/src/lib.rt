// The opcode rules, the decoder's step, the instruction writer, the depth checker and the lookups, on numbers and slices of
// numbers: what C and Rust call by way of crate tokenfinch, which exports these functions with their promises.
// include/tokenfinch.h declares them and says in words what they promise here.
#![tactic(auto, unfolding(crate::specs::Told::told_answer, crate::specs::Told::told_cells))]

ghost use Rattle.std.specs.Prelude.{◌≡◌, length, drop};
ghost use Rattle.op.specs.Opcodes.{last_opcode};
ghost use Rattle.op.specs.Shapes.{shape_of};
ghost use Rattle.op.specs.Effects.{taken_of, net_of, deadness_of};
ghost use Rattle.op.specs.Depths.{taken_depth_of};
ghost use Rattle.op.specs.Flags.{decoded_flags};
ghost use Rattle.fingerprint.specs.Fnv.{fnv1a_of};
ghost use Rattle.fingerprint.specs.Table.{fingerprint};
ghost use Rattle.code.specs.Decode.{decode};
ghost use Rattle.code.specs.Lookups.{location_of, handler_of, constant_of, local_name_of};
ghost use Rattle.api.specs.Answers.{shape_answer, net_answer, dead_answer, depth_answer, size_answer, name_answer};
ghost use Rattle.api.specs.Answers.{name_cells, count_answer};
ghost use Rattle.api.specs.Checks.{ChecksTold, ExplainsTold};
ghost use Rattle.api.specs.Given.{given_of, effect_given, after_given, flags_given, flags_answer};
ghost use Rattle.text.specs.Fitting.{Lists};
ghost use Rattle.text.specs.Lines.{plain_lines, ListsChecked};
ghost use Rattle.api.specs.Listings.{ListingTold};
ghost use Rattle.api.specs.Pairs.{two_told};
ghost use Rattle.api.specs.Told.{Tells};
ghost use Rattle.api.specs.Typed.{ReadsTold};
ghost use Rattle.api.specs.Steps.{step_told, WritesGiven};
ghost use Rattle.api.specs.Tables.{located_told, handled_told, constant_told, name_told};

use code::CODE_LIMIT;
use op::{CmpOperator, Refusal, Table};
use text::listing;

mod answers;
mod cells;
mod modes;
mod operands;
mod pairs;
mod parts;
mod reasons;
mod steps;
mod tables;

// An operand's values in byte order, without the keyword count; what is not there is 0.
#[derive(Clone, Copy, Default)]
pub struct Values {
    pub a: u16,
    pub b: u16,
    pub c: u8,
}

pub fn tf_operand_shape(opcode: u8) -> u64
    ensures { result ≡ shape_answer (shape_of opcode) }
{
    match op::shapes::operand_shape(opcode) {
        Ok(shape) => op::shapes::number(shape) as u64,
        Err(refusal) => answers::refused(refusal),
    }
}

pub fn tf_stack_effect(opcode: u8, shape: u8, a: u16, b: u16, c: u8, names: u8) -> u64
    ensures { result ≡ net_answer (net_of (effect_given opcode (given_of shape a b c names))) }
{
    answers::of_effect(operands::effect(opcode, operands::operand(shape, a, b, c, names)))
}

pub fn tf_jump_taken_stack_effect(opcode: u8) -> u64
    ensures { result ≡ net_answer (net_of (taken_of opcode)) }
{
    answers::of_effect(op::effects::taken_effect(opcode))
}

pub fn tf_makes_dead(opcode: u8) -> u64
    ensures { result ≡ dead_answer (deadness_of opcode) }
{
    match op::effects::makes_dead(opcode) {
        Ok(true) => 1,
        Ok(false) => 0,
        Err(refusal) => answers::refused(refusal),
    }
}

pub fn tf_depth_after(depth: u16, opcode: u8, shape: u8, a: u16, b: u16, c: u8, names: u8) -> u64
    ensures { result ≡ depth_answer (after_given depth opcode (given_of shape a b c names)) }
{
    answers::of_depth(operands::after(depth, opcode, operands::operand(shape, a, b, c, names)))
}

pub fn tf_depth_taken(depth: u16, opcode: u8) -> u64
    ensures { result ≡ depth_answer (taken_depth_of depth opcode) }
{
    answers::of_depth(op::depths::taken(depth, opcode))
}

pub fn tf_instruction_size(opcode: u8, names: u8) -> u64
    ensures { result ≡ size_answer (shape_of opcode) names }
{
    match op::shapes::operand_shape(opcode) {
        Ok(shape) => op::shapes::instruction_size(shape, names) as u64,
        Err(refusal) => answers::refused(refusal),
    }
}

#[tactic(auto, unfolding(crate::specs::Answers::name_answer, crate::specs::Answers::name_cells, op::specs::Opcodes::known))]
pub fn tf_opcode_name(opcode: u8, out: &mut [u8]) -> u64
    ensures { (result ≡ name_answer opcode (length out.old))
        × (out.new ≡ name_cells opcode out.old) }
{
    if op::opcodes::LAST < opcode {
        return answers::refused(Refusal::UnknownOpcode);
    }
    let names = op::names::Names::new();
    let name = names.of(opcode);
    if out.len() < name.len() {
        return answers::refused(Refusal::Full(Table::Text));
    }
    out[..name.len()].copy_from_slice(name);
    name.len() as u64
}

#[tactic(auto, unfolding(crate::specs::Given::flags_given))]
pub fn tf_assert_flags(comparison: u8) -> u8
    ensures { result ≡ flags_given comparison }
{
    match CmpOperator::try_from(comparison) {
        Ok(operator) => op::flags::assert_flags(Some(operator)),
        Err(_) if comparison == 10 => op::flags::assert_flags(None),
        Err(_) => 255,
    }
}

pub fn tf_decode_assert_flags(flags: u8) -> u8
    ensures { result ≡ flags_answer (decoded_flags flags) }
{
    match op::flags::decode_assert_flags(flags) {
        Some(compared) => answers::of_compared(compared),
        None => 11,
    }
}

pub fn tf_fingerprint() -> u64
    ensures { result ≡ fingerprint }
{
    fingerprint::opcode_fingerprint()
}

pub fn tf_fnv1a(bytes: &[u8]) -> u64
    ensures { result ≡ fnv1a_of bytes.now }
{
    fingerprint::fnv1a(bytes)
}

#[tactic(auto, unfolding(crate::specs::Answers::count_answer))]
pub fn tf_count_instructions(code: &[u8]) -> u64
    ensures { result ≡ count_answer code.now }
{
    if CODE_LIMIT < code.len() {
        return answers::refused(Refusal::TooLarge);
    }
    match code::reading::count(code) {
        Ok(n) => n as u64,
        Err(stopped) => answers::refused(stopped.refusal),
    }
}

pub fn tf_step(code: &[u8], at: usize, out: &mut [u64]) -> u64
    ensures { Tells (step_told at (decode last_opcode at (drop at code.now))) out.old result
        out.new }
{
    match code::decoder::step_at(code, at) {
        Ok(found) => {
            let Some(instr) = found else {
                return 0;
            };
            steps::tell_instruction(at, instr, out)
        }
        Err(refusal) => answers::refused(refusal),
    }
}

pub fn tf_write(out: &mut [u8], opcode: u8, shape: u8, a: u16, b: u16, c: u8, names: &[u16]) -> u64
    ensures { WritesGiven opcode (given_of shape a b c (length names.now)) names.now
        out.old result out.new }
{
    let Ok(count) = u8::try_from(names.len()) else {
        return answers::refused(steps::no_write(opcode, names.len()));
    };
    steps::write(out, opcode, operands::operand(shape, a, b, c, count), names)
}

pub fn tf_check(
    mode: u8,
    code: &[u8],
    starts: &[u32],
    depths: &mut [u32],
    work: &mut [u32],
    greatest: &mut u32,
) -> u64
    ensures { ChecksTold mode code.now starts.now depths.old depths.new
        work.old work.new greatest.old greatest.new result }
{
    let Some(mode) = modes::of_number(mode) else {
        return answers::refused(Refusal::WrongShape);
    };
    answers::tell_checked(strict::check(mode, code, starts, depths, work), greatest)
}

pub fn tf_explain(
    mode: u8,
    code: &[u8],
    starts: &[u32],
    depths: &mut [u32],
    work: &mut [u32],
    greatest: &mut u32,
    told: &mut [u64],
) -> u64
    ensures { ExplainsTold mode code.now starts.now depths.old
        depths.new work.old work.new told.old told.new
        greatest.old greatest.new result }
{
    if told.len() < 4 {
        return answers::refused(Refusal::Full(Table::Text));
    }
    let Some(mode) = modes::of_number(mode) else {
        return answers::refused(Refusal::WrongShape);
    };
    let verdict = strict::explain(mode, code, starts, depths, work);
    reasons::tell_verdict(verdict, greatest, told)
}

pub fn tf_list(code: &[u8], from: usize, text: &mut [u8], told: &mut [u64]) -> u64
    ensures { ListingTold (Lists (plain_lines code.now from) from text.old)
        text.old told.old result text.new told.new }
{
    if told.len() < 2 {
        return answers::refused(Refusal::Full(Table::Text));
    }
    parts::tell_part(listing::list(code, from, text), told)
}

pub fn tf_check_listing(
    code: &[u8],
    depths: &[u32],
    from: usize,
    text: &mut [u8],
    told: &mut [u64],
) -> u64
    ensures { ListingTold (ListsChecked code.now depths.now from text.old)
        text.old told.old result text.new told.new }
{
    if told.len() < 2 {
        return answers::refused(Refusal::Full(Table::Text));
    }
    parts::tell_part(listing::list_checked(code, depths, from, text), told)
}

pub fn tf_location_for_offset(rows: &[u32], offset: usize, out: &mut [u64]) -> u64
    ensures { Tells (located_told (location_of rows.now offset)) out.old result
        out.new }
{
    match code::lookups::location_for_offset(rows, offset) {
        Some((number, row)) => tables::tell_location(number, row, out),
        None => 0,
    }
}

pub fn tf_find_exception_handler(rows: &[u32], offset: u32, out: &mut [u64]) -> u64
    ensures { Tells (handled_told (handler_of rows.now offset)) out.old result
        out.new }
{
    match code::lookups::find_exception_handler(rows, offset) {
        Some((number, row)) => tables::tell_handler(number, row, out),
        None => 0,
    }
}

#[tactic(auto, unfolding(crate::specs::Pairs::two_told, crate::specs::Told::told_answer, crate::specs::Told::told_cells))]
pub fn tf_find_in_two(rows: &[u32], offset: u32, out: &mut [u64]) -> u64
    ensures { Tells (two_told rows.now offset) out.old result out.new }
{
    if rows.len() < 12 {
        return answers::refused(Refusal::Unsound);
    }
    pairs::find(
        pairs::entry_at(rows, 0),
        pairs::entry_at(rows, 6),
        offset,
        out,
    )
}

pub fn tf_constant(constants: &[u64], index: usize, out: &mut [u64]) -> u64
    ensures { Tells (constant_told (constant_of constants.now index)) out.old result
        out.new }
{
    match code::lookups::constant(constants, index) {
        Some(value) => cells::tell(&[value], out),
        None => 0,
    }
}

pub fn tf_local_name(names: &[u64], slot: usize, out: &mut [u64]) -> u64
    ensures { Tells (name_told (local_name_of names.now slot)) out.old result out.new }
{
    match code::lookups::local_name(names, slot) {
        Some(number) => cells::tell(&[number as u64], out),
        None => 0,
    }
}

pub fn tf_read_listing(text: &[u8], code: &mut [u8]) -> u64
    ensures { ReadsTold text.now code.old result code.new }
{
    answers::of_readback(readback::read_listing(text, code))
}
