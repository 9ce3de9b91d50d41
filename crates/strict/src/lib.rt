// The depth checker in two modes: the old one, and the strict one, which makes one pass more over the depths that the old
// one has given. It stands on the promise of `checker` alone.
#![tactic(auto)]

ghost use Rattle.std.specs.Prelude.{◌≡◌, ◌<◌, length};
ghost use Rattle.op.specs.Opcodes.{last_opcode};
ghost use Rattle.strict.specs.Promise.{Promise, Explains};
ghost use Rattle.strict.specs.Inner.{FirstShort, Shortened, Judged, unfit_of, refusal_of};

use checker::{Assignment, Reason, Unmet};
use code::{NO_DEPTH, lent};
use op::{Refusal, needs};

// What a check asks of an instruction's depth.
#[derive(Clone, Copy)]
pub enum Mode {
    // that its net effect stays at or above 0
    Net,
    // besides, that the stack holds the values that the instruction needs
    Strict,
}

// Why a check that says why accepts nothing.
#[derive(Clone, Copy)]
pub enum Unfit {
    // 10, 21, 1 or 22 with the offset, 20
    Refused(Refusal),
    // 23
    Unsolved(Reason),
    // 26: of the instructions that have fewer values than they need, the one at the lowest offset
    TooFew { at: usize, depth: u32, need: u8 },
}

impl From<Unmet> for Unfit {
    ghost from_gives = { λ unmet unfit. unfit ≡ unfit_of unmet };

    fn from(unmet: Unmet) -> Unfit {
        match unmet {
            Unmet::Refused(refusal) => Unfit::Refused(refusal),
            Unmet::Unsolved(why) => Unfit::Unsolved(why),
        }
    }
}

// The refusal without the reason.
impl From<Unfit> for Refusal {
    ghost from_gives = { λ unfit refusal. refusal ≡ refusal_of unfit };

    fn from(unfit: Unfit) -> Refusal {
        match unfit {
            Unfit::Refused(refusal) => refusal,
            Unfit::Unsolved(_) => Refusal::NoDepths,
            Unfit::TooFew { at, .. } => Refusal::TooFewValues(at),
        }
    }
}

// The first offset whose cell holds less than its byte needs as an opcode, if there is one.
fn first_short(code: &[u8], cells: &[u32]) -> Option<usize>
    requires { length code.now < length cells.now }
    ensures { FirstShort code.now cells.now result }
{
    code.iter()
        .zip(cells)
        .position(|(opcode, depth)| *depth < u32::from(needs::need(*opcode)))
}

// 26 of the instruction at an offset; no depth is left in its cell.
fn refuse(code: &[u8], depths: &mut [u32], at: usize) -> Unfit
    requires { (length code.now < length depths.old) × (at < length code.now) }
    ensures { Shortened code.now depths.old depths.new at result }
{
    let depth = depths[at];
    let need = needs::need(code[at]);
    let end = code.len() + 1;
    lent::fill(&mut depths[..end], NO_DEPTH);
    Unfit::TooFew { at, depth, need }
}

// What becomes of depths that the old mode accepts.
fn judge(code: &[u8], depths: &mut [u32], assignment: Assignment) -> Result<Assignment, Unfit>
    requires { length code.now < length depths.old }
    ensures { Judged code.now depths.old depths.new assignment result }
{
    match first_short(code, depths) {
        Some(at) => Err(refuse(code, depths, at)),
        None => Ok(assignment),
    }
}

// Checks as `checker::explain` does; in strict mode, where that accepts, 26 of the instruction at the lowest offset that
// has fewer values than it needs. The first code.len() + 1 cells of `depths` then hold 65,536.
pub fn explain(
    mode: Mode,
    code: &[u8],
    starts: &[u32],
    depths: &mut [u32],
    work: &mut [u32],
) -> Result<Assignment, Unfit>
    ensures { Explains mode last_opcode code.now starts.now depths.old
        depths.new work.old work.new result }
{
    let assignment = checker::explain(code, starts, depths, work)?;
    match mode {
        Mode::Net => Ok(assignment),
        Mode::Strict => judge(code, depths, assignment),
    }
}

// The same without the reason; besides what `checker::check` refuses, 26 in strict mode.
pub fn check(
    mode: Mode,
    code: &[u8],
    starts: &[u32],
    depths: &mut [u32],
    work: &mut [u32],
) -> Result<Assignment, Refusal>
    ensures { Promise mode last_opcode code.now starts.now depths.old
        depths.new work.old work.new result }
{
    Ok(explain(mode, code, starts, depths, work)?)
}
