// Compiled code: the decoder's step and the writer of one instruction, which are each other's inverse, and the
// lookups and records of code.rs of pydantic/monty. Its tables are lent as plain numbers, six to a row for locations
// and handlers.
#![tactic(auto)]

use op::{Effect, Operand, Refusal};

pub mod decoder;
pub mod entries;
pub mod flows;
pub mod lent;
pub mod lookups;
mod numbers;
pub mod reading;
pub mod signs;
pub mod sizes;
mod steps;
pub mod store;
pub mod writer;

// How much of the lent code can be used.
pub const CODE_LIMIT: usize = 1048576;

// How many cells a row of a lent table has.
pub const LOCATION_CELLS: usize = 6;

pub const EXCEPTION_CELLS: usize = 6;

pub const MARK_CELLS: usize = 4;

pub const START_CELLS: usize = 2;

// The greatest depth, name and constant index.
pub const WORD_MAX: u32 = 65535;

// What a depth slice holds where there is no depth.
pub const NO_DEPTH: u32 = 65536;

// The bytes of a jump.
pub const JUMP_SIZE: usize = 3;

// An instruction that stands in the code, of `size` bytes, keyword names included.
#[derive(Clone, Copy, Debug, PartialEq, Eq)]
pub struct Instr {
    pub opcode: u8,
    pub operand: Operand,
    pub size: usize,
}

// What stands at an offset of the code: an instruction; nothing, at or past the code's end; 1 or 22, with the offset.
pub type Step = Result<Option<Instr>, Refusal>;

// Where a jump goes.
#[derive(Clone, Copy, Debug, PartialEq, Eq)]
pub enum Goal {
    // no jump
    Nowhere,
    // an offset of the code, or its end
    To(usize),
    Outside,
}

// How the instruction at an offset moves on. In this order each field begins a word of eight bytes, so that no copy of a
// flow reads a word across two stores, for which a processor waits.
#[derive(Clone, Copy, Debug, PartialEq, Eq)]
pub struct Flow {
    pub size: usize,
    pub net: Effect,
    // of the taken jump; no change where it is none
    pub taken: Effect,
    pub goal: Goal,
    // whether it falls through
    pub falls: bool,
}

// A code that can't be read to its end: how many instructions stand before the fault, which is 1 or 22.
#[derive(Clone, Copy, Debug, PartialEq, Eq)]
pub struct Stopped {
    pub count: usize,
    pub refusal: Refusal,
}

// A row of the location table: its six numbers, unread.
#[derive(Clone, Copy, Debug, PartialEq, Eq)]
pub struct LocationRow {
    pub offset: u32,
    pub start: u32,
    pub end: u32,
    // 0 or 1
    pub focus_present: u32,
    pub focus_start: u32,
    pub focus_end: u32,
}

// A row of the exception table: its six numbers, unread.
#[derive(Clone, Copy, Debug, PartialEq, Eq)]
pub struct HandlerRow {
    pub start: u32,
    pub end: u32,
    pub handler: u32,
    pub depth: u32,
    pub count: u32,
    // 0 Consuming, 1 Cleanup
    pub kind: u32,
}

// A source range, unread.
#[derive(Clone, Copy, Debug, PartialEq, Eq)]
pub struct CodeRange {
    pub start: u32,
    pub end: u32,
}

// The source location of the instructions from an offset on.
#[derive(Clone, Copy, Debug, PartialEq, Eq)]
pub struct LocationEntry {
    pub bytecode_offset: u32,
    pub range: CodeRange,
    pub focus: Option<CodeRange>,
}

// Whether a handler reads the exception value from the operand stack.
#[derive(Clone, Copy, Debug, PartialEq, Eq)]
pub enum HandlerKind {
    // `except` dispatch and `with`, which read it
    Consuming,
    // only re-raises
    Cleanup,
}

// A protected range of the code, `start` inclusive, `end` exclusive, and its handler.
#[derive(Clone, Copy, Debug, PartialEq, Eq)]
pub struct ExceptionEntry {
    pub start: u32,
    pub end: u32,
    pub handler: u32,
    // the depth to unwind to
    pub stack_depth: u16,
    // the frame's exception-stack depth at the region's entry
    pub exception_stack_count: u16,
    pub kind: HandlerKind,
}
