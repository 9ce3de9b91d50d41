// The whole work on the cells of the code and its end.
ghost use Rattle.std.specs.Prelude.{◌≡◌, suc, length, replicate};
ghost use Rattle.op.specs.Opcodes.{last_opcode};
ghost use Rattle.checker.specs.Promise.{Listed};
ghost use Rattle.checker.specs.Inner.{NoFault, Marked, Fitted, Examined};

use crate::{Assignment, Unmet, cells, lists, walks};
use code::{NO_DEPTH, lent};
use op::Refusal;

// The smallest assignment with its count and its greatest depth, or why there is none.
fn solve(
    code: &[u8],
    starts: &[u32],
    cells: &mut [u32],
    work: &mut [u32],
) -> Result<Assignment, Unmet>
    requires { Fitted code.now cells.old work.old × NoFault last_opcode code.now
        × Marked last_opcode code.now work.old × Listed last_opcode code.now starts.now }
    ensures { Examined last_opcode code.now starts.now cells.old
        cells.new result }
{
    lent::fill(cells, NO_DEPTH);
    match lists::reach(code, starts, cells, work) {
        Ok(taken) => Ok(Assignment {
            count: cells::before_last(cells, taken),
            greatest: cells::greatest(cells),
        }),
        Err(why) => {
            lent::fill(cells, NO_DEPTH);
            Err(Unmet::Unsolved(why))
        }
    }
}

// 20, or what the code comes to whose places are marked.
fn settle(
    code: &[u8],
    starts: &[u32],
    cells: &mut [u32],
    work: &mut [u32],
) -> Result<Assignment, Unmet>
    requires { Fitted code.now cells.old work.old × NoFault last_opcode code.now
        × Marked last_opcode code.now work.old }
    ensures { Examined last_opcode code.now starts.now cells.old
        cells.new result }
{
    if !walks::starts_fine(work, starts) {
        return Err(Unmet::Refused(Refusal::BadStarts));
    }
    solve(code, starts, cells, work)
}

// 1 or 22, or the same of code whose places are not marked yet: the work cells are zeros.
fn examine(
    code: &[u8],
    starts: &[u32],
    cells: &mut [u32],
    work: &mut [u32],
) -> Result<Assignment, Unmet>
    requires { Fitted code.now cells.old work.old × (work.old ≡ replicate (suc (length code.now)) 0) }
    ensures { Examined last_opcode code.now starts.now cells.old
        cells.new result }
{
    walks::mark_places(code, work)?;
    settle(code, starts, cells, work)
}

// The same with any work cells, which end with zeros.
pub fn within(
    code: &[u8],
    starts: &[u32],
    cells: &mut [u32],
    work: &mut [u32],
) -> Result<Assignment, Unmet>
    requires { Fitted code.now cells.old work.old }
    ensures { Examined last_opcode code.now starts.now cells.old
        cells.new result × (work.new ≡ replicate (suc (length code.now)) 0) }
{
    lent::fill(work, 0);
    let examined = examine(code, starts, cells, work);
    lent::fill(work, 0);
    examined
}
