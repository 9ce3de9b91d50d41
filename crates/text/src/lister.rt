// Line by line through a code, as far as the lent text has room.
ghost use Rattle.std.specs.Prelude.{◌≡◌, false, List, [], ◌∷◌, ◌++◌, ◌≤◌, length};
ghost use Rattle.text.specs.Lines.{depth_text, column_of};
ghost use Rattle.text.specs.Inner.{went_by, goes_on, Stepped, Steps, Lent, Told, Reading, Fills};
ghost use Rattle.text.specs.Put.{Put};

use crate::{lines, row, write};
use code::{NO_DEPTH, Step};
use op::names::Names;
use op::{Operand, Refusal};
use reader::InstructionReader;

// Whether a listing goes on: there may be more lines, none is left, or one was left for want of room.
#[derive(Clone, Copy, Debug, PartialEq, Eq)]
pub enum Going {
    On,
    Ended,
    Cut,
}

// How far a listing is: the offset of the next line, and the end of the text so far.
#[derive(Clone, Copy, Debug, PartialEq, Eq)]
pub struct Progress {
    pub at: usize,
    pub to: usize,
    pub going: Going,
}

// How far it is behind what became of a line at `at`, which was to stand from `to` on.
fn went(placed: Result<usize, Refusal>, at: usize, to: usize, next: usize, going: Going) -> Progress
    ensures { result ≡ went_by placed at to next going }
{
    match placed {
        Ok(end) => Progress {
            at: next,
            to: end,
            going,
        },
        Err(_) => Progress {
            at,
            to,
            going: Going::Cut,
        },
    }
}

// A depth and a tab.
fn put_depth(depth: u32, out: &mut [u8]) -> usize
    requires { 11 ≤ length out.old }
    ensures { Put out.old 0 (depth_text depth ++ (9 ∷ [])) result out.new × (result ≤ 11) }
{
    if depth == NO_DEPTH {
        let o = write::byte(b'-', out, 0);
        return write::byte(b'\t', out, o);
    }
    row::ended(depth as u64, b'\t', out, 0)
}

// The column in front of the line at an offset, none past the depths.
fn column(depths: &[u32], at: usize, out: &mut [u8]) -> usize
    requires { 11 ≤ length out.old }
    ensures { Put out.old 0 (column_of depths.now at) result out.new × (result ≤ 11) }
{
    if at < depths.len() {
        return put_depth(depths[at], out);
    }
    0
}

// The line of the code's end, where there is a column in front of it.
fn end_line(code: &[u8], at: usize, front: &[u8], out: &mut [u8], to: usize) -> Progress
    requires { Stepped at front.now out.old to }
    ensures { Steps front.now code.now at (Ok None) out.old to result out.new }
{
    if front.len() == 0 {
        return Progress {
            at,
            to,
            going: Going::Ended,
        };
    }
    let placed = lines::line(code, at, Operand::None, front, b"end", out, to);
    went(placed, at, to, at + 1, Going::Ended)
}

// The line of a step that was read at an offset, behind a column.
fn step_line(
    code: &[u8],
    at: usize,
    step: Step,
    front: &[u8],
    names: &Names,
    out: &mut [u8],
    to: usize,
) -> Progress
    requires { Reading code.now at step × Stepped at front.now out.old to }
    ensures { Steps front.now code.now at step out.old to result out.new }
{
    match step {
        Ok(found) => {
            let Some(instr) = found else {
                return end_line(code, at, front, out, to);
            };
            let name = names.of(instr.opcode);
            let placed = lines::line(code, at, instr.operand, front, name, out, to);
            went(placed, at, to, at + instr.size, Going::On)
        }
        Err(refusal) => {
            let placed = lines::fault(at, refusal, out, to);
            went(placed, at, to, code.len() + 1, Going::Ended)
        }
    }
}

// The same with its column from the depths.
fn put_line(
    code: &[u8],
    at: usize,
    step: Step,
    depths: &[u32],
    names: &Names,
    out: &mut [u8],
    to: usize,
) -> Progress
    requires { Reading code.now at step × Lent code.now depths.now out.old to }
    ensures { Told depths.now code.now at out.old to result out.new }
{
    let mut cells = [0u8; 16];
    let n = column(depths, at, &mut cells);
    step_line(code, at, step, &cells[..n], names, out, to)
}

// As many lines as fit, from the offset `at` on, into the text from `to` on. Each instruction is read once.
pub fn fill(
    code: &[u8],
    depths: &[u32],
    names: &Names,
    out: &mut [u8],
    at: usize,
    to: usize,
) -> Progress
    requires { Lent code.now depths.now out.old to }
    ensures { Fills depths.now code.now at out.old to result out.new
        × (goes_on result.going ≡ false) }
{
    let mut reader = InstructionReader::new(code, at);
    let mut p = Progress {
        at,
        to,
        going: Going::On,
    };
    while p.going == Going::On {
        let step = reader.here();
        p = put_line(reader.code, reader.at, step, depths, names, out, p.to);
        reader = reader.behind(step);
    }
    p
}
