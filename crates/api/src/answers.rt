// Answers as numbers.
ghost use Rattle.std.specs.Prelude.{◌≡◌, ◌%◌};
ghost use Rattle.op.specs.Effects.{net_of};
ghost use Rattle.op.specs.Refusals.{half};
ghost use Rattle.api.specs.Answers.{refused, net_answer, depth_answer};
ghost use Rattle.api.specs.Checks.{check_answer, greatest_told};
ghost use Rattle.api.specs.Given.{flags_answer};
ghost use Rattle.api.specs.Typed.{read_answer};

use checker::Assignment;
use op::{CmpOperator, Effect, Refusal};
use readback::BadLine;

// A refusal's answer.
pub fn refused(refusal: Refusal) -> u64
    ensures { result ≡ refused refusal }
{
    op::refusals::answer(refusal)
}

// An effect's answer.
pub fn of_effect(effect: Result<Effect, Refusal>) -> u64
    ensures { result ≡ net_answer (net_of effect) }
{
    match effect {
        Ok(Effect { up, down }) => u64::from(up.wrapping_sub(down)),
        Err(refusal) => refused(refusal),
    }
}

// A depth's answer.
pub fn of_depth(after: Result<u16, Refusal>) -> u64
    ensures { result ≡ depth_answer after }
{
    match after {
        Ok(depth) => depth as u64,
        Err(refusal) => refused(refusal),
    }
}

// Tells what was accepted: the count, and the greatest depth.
pub fn tell_accepted(assignment: Assignment, greatest: &mut u32) -> u64
    ensures { (result ≡ assignment.count) × (greatest.new ≡ assignment.greatest) }
{
    *greatest = assignment.greatest;
    assignment.count as u64
}

// Tells a check's answer.
pub fn tell_checked(checked: Result<Assignment, Refusal>, greatest: &mut u32) -> u64
    ensures { (result ≡ check_answer checked)
        × (greatest.new ≡ greatest_told checked greatest.old) }
{
    match checked {
        Ok(assignment) => tell_accepted(assignment, greatest),
        Err(refusal) => refused(refusal),
    }
}

// A number's lower half.
fn low(n: usize) -> u64
    ensures { result ≡ n % half }
{
    n as u64 % 0x1_0000_0000
}

// The answer of reading a listing: where it is refused, the line stands below the number.
pub fn of_readback(readback: Result<usize, BadLine>) -> u64
    ensures { result ≡ read_answer readback }
{
    match readback {
        Ok(size) => size as u64,
        Err(bad) => op::refusals::number(bad.refusal) as u64 * 0x1_0000_0000 + low(bad.line),
    }
}

// The number of what an assert compares by, 10 for nothing.
pub fn of_compared(compared: Option<CmpOperator>) -> u8
    ensures { result ≡ flags_answer (Some compared) }
{
    match compared {
        None => 10,
        Some(operator) => op::flags::as_operand(operator),
    }
}
