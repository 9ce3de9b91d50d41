// The lines of a listing, put into a lent text at a place: the place behind is answered, or 18 with no cell changed.
ghost use Rattle.std.specs.Prelude.{◌≡◌, List, [], ◌∷◌, ◌++◌, ◌≤◌, length, drop};
ghost use Rattle.text.specs.Fields.{line_text, Lean};
ghost use Rattle.text.specs.Listing.{fault_line, first_line};
ghost use Rattle.text.specs.Listing.{header as header_text};
ghost use Rattle.text.specs.Put.{Places};

use crate::{put, row, write};
use op::{Operand, Refusal, Table, refusals};

// The most bytes that are listed where they were not checked.
pub const MOST: usize = 65536;

// No line is longer, its name not counted.
const LONGEST: usize = 1600;

// The header.
fn header(out: &mut [u8], to: usize) -> Result<usize, Refusal>
    ensures { Places out.old to header_text result out.new }
{
    put::bytes(b"offset\tname\toperands\ttarget\n", out, to)
}

// The fault line.
pub fn fault(at: usize, refusal: Refusal, out: &mut [u8], to: usize) -> Result<usize, Refusal>
    ensures { Places out.old to (fault_line at refusal) result out.new }
{
    let mut text = [0u8; 32];
    let end = row::fault(at, refusals::number(refusal), &mut text, 0);
    put::bytes(&text[..end], out, to)
}

// The first line of a listing of so many bytes: the header, or why there is none.
pub fn first(size: usize, out: &mut [u8], to: usize) -> Result<usize, Refusal>
    ensures { Places out.old to (first_line size) result out.new }
{
    if size <= MOST {
        return header(out, to);
    }
    fault(0, Refusal::TooLarge, out, to)
}

// Cells for all of a line but its name.
fn cells() -> [u8; 1600]
    ensures { 1600 ≡ length result }
{
    [0; 1600]
}

// Three texts, one behind the other.
fn joined(
    front: &[u8],
    name: &[u8],
    back: &[u8],
    out: &mut [u8],
    to: usize,
) -> Result<usize, Refusal>
    ensures { Places out.old to (front.now ++ (name.now ++ back.now)) result
        out.new }
{
    let room = put::room(out.len(), to);
    if room < front.len() {
        return Err(Refusal::Full(Table::Text));
    }
    if room - front.len() < name.len() {
        return Err(Refusal::Full(Table::Text));
    }
    if room - front.len() - name.len() < back.len() {
        return Err(Refusal::Full(Table::Text));
    }
    let o = write::copy(front, out, to);
    let e = write::copy(name, out, o);
    Ok(write::copy(back, out, e))
}

// A line where there may be no room for it: it is made apart first.
fn tight(
    code: &[u8],
    at: usize,
    operand: Operand,
    front: &[u8],
    name: &[u8],
    out: &mut [u8],
    to: usize,
) -> Result<usize, Refusal>
    requires { Lean at operand (drop at code.now) × (length front.now ≤ 11) }
    ensures { Places out.old to
        (front.now ++ line_text at name.now operand (drop at code.now)) result
        out.new }
{
    let mut head = [0u8; 24];
    let f = write::copy(front, &mut head, 0);
    let o = row::ended(at as u64, b'\t', &mut head, f);
    let mut back = cells();
    let e = row::back(code, at, operand, &mut back, 0);
    joined(&head[..o], name, &back[..e], out, to)
}

// A line behind a text in front of it. Most callers have room for any line, so that it is written in place.
pub fn line(
    code: &[u8],
    at: usize,
    operand: Operand,
    front: &[u8],
    name: &[u8],
    out: &mut [u8],
    to: usize,
) -> Result<usize, Refusal>
    requires { Lean at operand (drop at code.now) × (length front.now ≤ 11) }
    ensures { Places out.old to
        (front.now ++ line_text at name.now operand (drop at code.now)) result
        out.new }
{
    let room = put::room(out.len(), to);
    if room < name.len() {
        return tight(code, at, operand, front, name, out, to);
    }
    if room - name.len() < LONGEST {
        return tight(code, at, operand, front, name, out, to);
    }
    let o = write::copy(front, out, to);
    Ok(row::line(code, at, operand, name, out, o))
}
