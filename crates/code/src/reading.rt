// A code read from its start to its end or its first fault.
ghost use Rattle.std.specs.Prelude.{◌≡◌};
ghost use Rattle.op.specs.Opcodes.{last_opcode};
ghost use Rattle.code.specs.Reading.{count_of};

use crate::{Stopped, decoder};

// How many instructions a code has.
pub fn count(code: &[u8]) -> Result<usize, Stopped>
    ensures { result ≡ count_of last_opcode code.now }
{
    let mut at = 0;
    let mut n = 0;
    loop {
        let step = decoder::step_at(code, at);
        match step {
            Ok(found) => {
                let Some(instr) = found else {
                    return Ok(n);
                };
                at += instr.size;
                n += 1;
            }
            Err(refusal) => {
                return Err(Stopped { count: n, refusal });
            }
        }
    }
}
