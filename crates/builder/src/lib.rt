// The builder: CodeBuilder of pydantic/monty's builder.rs. The state goes in and comes out by value, the tables are
// lent, and each call decides before it writes, so that a refusal changes neither.
#![tactic(auto)]

use code::CodeRange;

// The front door: the 33 public calls, and the one that makes an emitting call by its number.
mod calls;

// The order of the refusals, decided on numbers alone.
mod plan;

// What writes an instruction: any, a jump forward and its patch, a jump back.
mod back;
mod emission;
mod forward;
mod patch;

// What the other calls are about, and what all share.
mod exceptions;
mod locations;
mod marks;
mod names;
mod numbered;
mod regions;
mod tables;

// The source location of the instructions to come: the range, and the part of it that a traceback points at.
#[derive(Clone, Copy, Debug, PartialEq, Eq)]
pub struct Location {
    pub range: CodeRange,
    pub focus: Option<CodeRange>,
}

// What emission reads and changes: the used rows of code, locations and marks, and the operand stack's depth before the
// next instruction, none in dead code.
#[derive(Clone, Copy, Debug, PartialEq, Eq)]
pub struct Core {
    pub code: usize,
    pub locations: usize,
    pub marks: usize,
    pub depth: Option<u16>,
}

// The state: the used rows of every table, the depth and the location. Nothing of it is trusted.
#[derive(Clone, Copy, Debug, PartialEq, Eq)]
pub struct Builder {
    pub core: Core,
    pub location: Option<Location>,
    pub exceptions: usize,
    pub constants: usize,
    pub names: usize,
    pub starts: usize,
}

// A forward jump that waits for `patch_jump`: a row of the marks. A label and a target are enums of their own and no
// `Option<usize>`, so that neither can be passed for the other.
#[derive(Clone, Copy, Debug, PartialEq, Eq)]
pub enum JumpLabel {
    Dead,
    Row(usize),
}

// A place to jump back to: a row of the marks.
#[derive(Clone, Copy, Debug, PartialEq, Eq)]
pub enum JumpTarget {
    Dead,
    Row(usize),
}
