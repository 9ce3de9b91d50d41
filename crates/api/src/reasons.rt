// Why code is not accepted, as it is told.
ghost use Rattle.std.specs.Prelude.{◌≡◌, ◌≤◌, length};
ghost use Rattle.code.specs.Bytes.{front};
ghost use Rattle.strict.specs.Promise.{answer_of};
ghost use Rattle.api.specs.Answers.{refused};
ghost use Rattle.api.specs.Checks.{check_answer, greatest_told, reason_numbers, reason_cells};

use crate::answers;
use checker::{Assignment, Reason};
use op::Refusal;
use strict::Unfit;

// A reason's numbers.
fn numbers_of(reason: Reason) -> [u64; 4]
    ensures { result ≡ reason_numbers reason }
{
    match reason {
        Reason::TwoDepths { place, one, other } => [1, place as u64, one as u64, other as u64],
        Reason::NetOutOfRange { at, depth } => [2, at as u64, depth as u64, 0],
        Reason::TakenOutOfRange { at, depth } => [3, at as u64, depth as u64, 0],
        Reason::NoPlace { at, depth } => [4, at as u64, depth as u64, 0],
    }
}

// Tells a refusal, and why at the front.
fn tell_why(refusal: Refusal, why: [u64; 4], out: &mut [u64]) -> u64
    requires { 4 ≤ length out.old }
    ensures { (result ≡ refused refusal)
        × (out.new ≡ front why out.old) }
{
    out[..4].copy_from_slice(&why);
    answers::refused(refusal)
}

// Tells a check's answer, and on 23 and 26 the reason.
pub fn tell_verdict(verdict: Result<Assignment, Unfit>, greatest: &mut u32, out: &mut [u64]) -> u64
    requires { 4 ≤ length out.old }
    ensures { (result ≡ check_answer (answer_of verdict))
        × (greatest.new ≡ greatest_told (answer_of verdict) greatest.old)
        × (out.new ≡ reason_cells verdict out.old) }
{
    match verdict {
        Ok(assignment) => answers::tell_accepted(assignment, greatest),
        Err(Unfit::Refused(refusal)) => answers::refused(refusal),
        Err(Unfit::Unsolved(reason)) => tell_why(Refusal::NoDepths, numbers_of(reason), out),
        Err(Unfit::TooFew { at, depth, need }) => {
            let why = [5, at as u64, depth as u64, need as u64];
            tell_why(Refusal::TooFewValues(at), why, out)
        }
    }
}
