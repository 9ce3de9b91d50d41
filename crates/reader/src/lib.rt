// An instruction reader, which holds the code and its place: thin over the decoder's step on a slice and a number.
#![tactic(auto)]

ghost use Rattle.std.specs.Prelude.{◌≡◌, length, drop};
ghost use Rattle.op.specs.Opcodes.{last_opcode};
ghost use Rattle.code.specs.Decode.{decode};
ghost use Rattle.reader.specs.Reader.{after_step};

use code::{Step, decoder};

// The offset behind a step at an offset: behind an instruction that ends in the code, else the same.
fn after(code: &[u8], at: usize, step: Step) -> usize
    ensures { result ≡ after_step (length code.now) at step }
{
    let Ok(Some(instr)) = step else {
        return at;
    };
    if at < code.len() && instr.size <= code.len() - at {
        at + instr.size
    } else {
        at
    }
}

// A code and a place in it.
#[derive(Clone, Copy)]
pub struct InstructionReader<'a> {
    pub code: &'a [u8],
    pub at: usize,
}

impl<'a> InstructionReader<'a> {
    // At an offset of the code.
    pub fn new(code: &'a [u8], at: usize) -> InstructionReader<'a>
        ensures { (result.code ≡ code.entry) × (result.at ≡ at) }
    {
        InstructionReader { code, at }
    }

    // What stands at its place: an instruction, the end, 1 or 22. It does not move.
    pub fn here(self) -> Step
        ensures { result ≡ decode last_opcode self.entry.at (drop self.entry.at self.entry.code.now) }
    {
        decoder::step_at(self.code, self.at)
    }

    // Behind the step that was read at its place, which is not read again: behind an instruction that ends in the
    // code, else it stays.
    pub fn behind(self, step: Step) -> InstructionReader<'a>
        ensures { (result.code ≡ self.entry.code) × (result.at ≡ after_step (length self.entry.code.now) self.entry.at step) }
    {
        let at = after(self.code, self.at, step);
        InstructionReader {
            code: self.code,
            at,
        }
    }
}
