// Emits ten million instructions for bench/ to measure, in rounds of one rule each: a constant, a small number, a sum, a store, a
// load, a jump with its patch and a Nop over and over, then a call with keyword names, all with locations. Reads nothing; writes the last rule's size as two
// bytes, so that no work can be left out.
#![tactic(auto)]

use builder::Builder;
use code::CodeRange;
use op::{Refusal, opcodes};
use std::io;

const ROUNDS: u32 = 572;

// Turns of seven instructions a round.
const TURNS: u32 = 2500;

// One turn. Nothing is refused here.
fn turn(
    b: Builder,
    i: u32,
    code: &mut [u8; 65536],
    locations: &mut [u32; 106000],
    marks: &mut [u32; 10000],
) -> Result<Builder, Refusal> {
    let at = CodeRange { start: i, end: i };
    let slot = (i % 300) as u16;
    let constant = (i % 65536) as u16;
    let (b, label) = b
        .set_location(at, None)
        .emit_u16(opcodes::LOAD_CONST, constant, code, locations)?
        .emit_i8(opcodes::LOAD_SMALL_INT, 7, code, locations)?
        .emit(opcodes::BINARY_ADD, code, locations)?
        .emit_store_local(slot, code, locations)?
        .emit_load_local(slot, code, locations)?
        .emit_jump(opcodes::JUMP_IF_FALSE, code, locations, marks)?;
    b.patch_jump(label, code, marks)?
        .emit(opcodes::NOP, code, locations)
}

// A call with keyword names and its return, at the rule's end.
fn ending(
    b: Builder,
    code: &mut [u8; 65536],
    locations: &mut [u32; 106000],
) -> Result<Builder, Refusal> {
    b.emit_load_local(0, code, locations)?
        .emit_load_local(1, code, locations)?
        .emit_call_function_kw(0, &[7], code, locations)?
        .emit(opcodes::RETURN_VALUE, code, locations)
}

// One rule, from a new builder on; its size.
fn rule(
    code: &mut [u8; 65536],
    locations: &mut [u32; 106000],
    marks: &mut [u32; 10000],
    starts: &mut [u32; 2],
) -> Result<usize, Refusal> {
    let mut b = Builder::new(Some(0), starts)?;
    for i in 0..TURNS {
        b = turn(b, i, code, locations, marks)?;
    }
    let whole = ending(b, code, locations)?;
    Ok(whole.current_offset())
}

// All rounds; the last rule's size.
fn rounds(
    code: &mut [u8; 65536],
    locations: &mut [u32; 106000],
    marks: &mut [u32; 10000],
    starts: &mut [u32; 2],
) -> Result<usize, Refusal> {
    let mut size = 0;
    for _ in 0..ROUNDS {
        size = rule(code, locations, marks, starts)?;
    }
    Ok(size)
}

fn main(rt: HostRuntime) -> io::Result<()> {
    let mut code = [0u8; 65536];
    let mut locations = [0u32; 106000];
    let mut marks = [0u32; 10000];
    let mut starts = [0u32; 2];
    let size = rounds(&mut code, &mut locations, &mut marks, &mut starts).unwrap_or(0);
    let low = (size % 256) as u8;
    let high = (size / 256 % 256) as u8;
    let text = [low, high];
    rt.write_all(&text)
}
