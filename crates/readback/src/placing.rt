// Whether a line's offset and target are those that result.
ghost use Rattle.std.specs.Prelude.{◌≡◌, ◌+◌, ◌≤◌, pos, ◌+ℤ◌};
ghost use Rattle.text.specs.Reading.{read_target, read_whole};
ghost use Rattle.text.specs.Row.{target_of};
ghost use Rattle.readback.specs.Inner.{whole};
ghost use Rattle.readback.specs.Lined.{Aims, offset_of, goal_of, met_of, reached_by, reached_of, matched_of};
ghost use Rattle.readback.specs.Lined.{verdict_of};

use crate::fields;
use code::signs;
use op::{Operand, Refusal};
use words::{NumberError, Signed};

// What a column says: the number that results, another, or nothing that can stand there.
#[derive(Clone, Copy)]
pub enum Met {
    Here,
    Elsewhere,
    Not,
}

// A displacement: `Back(n)` is -1 - n.
#[derive(Clone, Copy)]
pub enum Aim {
    On(u16),
    Back(u16),
}

// The displacement of a jump.
fn aim_of(operand: Operand) -> Option<Aim>
    ensures { Aims operand result }
{
    let Operand::Offset(x) = operand else {
        return None;
    };
    let w = signs::word_of(x);
    if w < 32768 {
        return Some(Aim::On(w));
    }
    Some(Aim::Back(65535 - w))
}

// Where a jump at `at` goes whose displacement is `n`, or -1 - n.
fn goal_of(at: usize, minus: bool, n: u16) -> Signed
    requires { at ≤ 65536 }
    ensures { result ≡ goal_of (pos (at + 3) +ℤ whole minus n) }
{
    let from = at as u64 + 3;
    let by = n as u64;
    if !minus {
        return Signed::Plus(from + by);
    }
    if by < from {
        return Signed::Plus(from - by - 1);
    }
    Signed::Minus(by - from + 1)
}

// Whether a number that was read is a goal.
#[tactic(auto, unfolding(crate::specs::Lined::met_of))]
fn meets(told: Result<Signed, NumberError>, want: Signed) -> Met
    ensures { result ≡ met_of told want }
{
    match told {
        Ok(number) => {
            if number == want {
                return Met::Here;
            }
            Met::Elsewhere
        }
        Err(NumberError::Large) => Met::Elsewhere,
        Err(NumberError::Not) => Met::Not,
    }
}

// A jump's target column.
fn jump(t: &[u8], at: usize, minus: bool, n: u16) -> Met
    requires { at ≤ 65536 }
    ensures { result ≡ reached_by (read_whole t.now) (pos (at + 3) +ℤ whole minus n) }
{
    meets(words::whole(t), goal_of(at, minus, n))
}

// The target column of an instruction at `at`: `-` for all but jumps.
pub fn target(t: &[u8], at: usize, operand: Operand) -> Met
    requires { at ≤ 65536 }
    ensures { result ≡ reached_of (read_target t.now) (target_of at operand) }
{
    let way = aim_of(operand);
    match way {
        Some(Aim::On(n)) => jump(t, at, false, n),
        Some(Aim::Back(n)) => jump(t, at, true, n),
        None => {
            if fields::is_dash(t) {
                return Met::Here;
            }
            Met::Not
        }
    }
}

// The offset column of an instruction at `at`.
pub fn offset(t: &[u8], at: usize) -> Met
    ensures { result ≡ offset_of at t.now }
{
    let n = words::natural(t);
    match n {
        Ok(v) => {
            if v != at as u64 {
                return Met::Elsewhere;
            }
            Met::Here
        }
        Err(NumberError::Large) => Met::Elsewhere,
        Err(NumberError::Not) => Met::Not,
    }
}

// The same with what the offset column says: 24, then 25.
fn matched(target: Met, off: bool) -> Result<(), Refusal>
    ensures { result ≡ matched_of target off }
{
    match target {
        Met::Here => {
            if off {
                return Err(Refusal::Disagrees);
            }
            Ok(())
        }
        Met::Elsewhere => Err(Refusal::Disagrees),
        Met::Not => Err(Refusal::NotALine),
    }
}

// Both columns: 24 where one can't stand there, 25 where one says another number.
pub fn verdict_on(offset: Met, target: Met) -> Result<(), Refusal>
    ensures { result ≡ verdict_of offset target }
{
    match offset {
        Met::Here => matched(target, false),
        Met::Elsewhere => matched(target, true),
        Met::Not => Err(Refusal::NotALine),
    }
}
