// The depth checker: whether depths can be given to the instructions of some code, and the smallest such assignment.
#![tactic(auto)]

ghost use Rattle.std.specs.Prelude.{◌≡◌};
ghost use Rattle.op.specs.Opcodes.{last_opcode};
ghost use Rattle.checker.specs.Promise.{Promise, built_sound, BuiltPromise};
ghost use Rattle.checker.specs.Reasons.{Explains};
ghost use Rattle.checker.specs.Inner.{refusal_of};
ghost use Rattle.checker.specs.declared.Unmet.TheVariants.{Refused};

use builder::Builder;
use code::{CODE_LIMIT, START_CELLS};
use op::Refusal;

mod cells;
mod lists;
mod solving;
mod visits;
mod walks;

// An assignment of depths; the depths themselves are in the depth slice.
#[derive(Clone, Copy)]
pub struct Assignment {
    // how many instructions have a depth
    pub count: usize,
    // the greatest depth, the end's among them; 0 where there is none
    pub greatest: u32,
}

// Why no assignment exists. Each depth named is one that the instructions lead to from a start.
#[derive(Clone, Copy)]
pub enum Reason {
    // a place that is brought two depths
    TwoDepths { place: usize, one: u32, other: u32 },
    // an instruction whose depth after falling through leaves 0 to 65,535
    NetOutOfRange { at: usize, depth: u32 },
    // a jump whose taken depth does
    TakenOutOfRange { at: usize, depth: u32 },
    // a jump whose target is no instruction's start and not the end
    NoPlace { at: usize, depth: u32 },
}

// Why a check that says why accepts nothing.
#[derive(Clone, Copy)]
pub enum Unmet {
    // 10, 21, 1 or 22 with the offset, 20
    Refused(Refusal),
    // 23
    Unsolved(Reason),
}

impl From<Refusal> for Unmet {
    ghost from_gives = { λ refusal unmet. unmet ≡ Refused refusal };

    fn from(refusal: Refusal) -> Unmet {
        Unmet::Refused(refusal)
    }
}

// The refusal without the reason.
impl From<Unmet> for Refusal {
    ghost from_gives = { λ unmet refusal. refusal ≡ refusal_of unmet };

    fn from(unmet: Unmet) -> Refusal {
        match unmet {
            Unmet::Refused(refusal) => refusal,
            Unmet::Unsolved(_) => Refusal::NoDepths,
        }
    }
}

// Checks as `check` does, and names a reason with 23. Of several reasons it is the one that is met first.
pub fn explain(
    code: &[u8],
    starts: &[u32],
    depths: &mut [u32],
    work: &mut [u32],
) -> Result<Assignment, Unmet>
    ensures { Explains last_opcode code.now starts.now depths.old
        depths.new work.old work.new result }
{
    if CODE_LIMIT < code.len() {
        return Err(Unmet::Refused(Refusal::TooLarge));
    }
    if depths.len() <= code.len() || work.len() <= code.len() {
        return Err(Unmet::Refused(Refusal::ShortDepths));
    }
    let end = code.len() + 1;
    solving::within(code, starts, &mut depths[..end], &mut work[..end])
}

// Checks the code against its starts, an offset and a depth each; refuses with 10, 21, 1 or 22 with the offset, 20 and
// 23. Where it is accepted, the first code.len() + 1 cells of `depths` hold the smallest assignment, with 65,536 for
// none; on 23 they all hold 65,536; otherwise nothing is written there. As many cells of `work` are used, and end with
// zeros but for 10 and 21.
pub fn check(
    code: &[u8],
    starts: &[u32],
    depths: &mut [u32],
    work: &mut [u32],
) -> Result<Assignment, Refusal>
    ensures { Promise last_opcode code.now starts.now depths.old
        depths.new work.old work.new result }
{
    Ok(explain(code, starts, depths, work)?)
}

// Whether a builder's counts are within the lent code and starts.
fn built_sound(built: Builder, cl: usize, sl: usize) -> bool
    ensures { result ≡ built_sound built cl sl }
{
    let used = built.core.code;
    if cl < used || CODE_LIMIT < used {
        return false;
    }
    built.starts <= sl / START_CELLS
}

// Checks a builder's used code from its used starts: 19 where a count is unsound, then as `check`.
pub fn check_built(
    built: Builder,
    code: &[u8],
    starts: &[u32],
    depths: &mut [u32],
    work: &mut [u32],
) -> Result<Assignment, Refusal>
    ensures { BuiltPromise built code.now starts.now depths.old
        depths.new work.old work.new result }
{
    if !built_sound(built, code.len(), starts.len()) {
        return Err(Refusal::Unsound);
    }
    let core = built.core;
    let n = core.code;
    let m = built.starts * START_CELLS;
    check(&code[..n], &starts[..m], depths, work)
}
