// Listings, made part by part: each call puts as many whole lines as there is room for to the front of the lent text and answers their length and the
// cursor of the next line. The first cursor is 0; no line is left where the length is 0. 18 where there is a line and no room for it, and no cell is changed.
ghost use Rattle.std.specs.Prelude.{◌≡◌, cond, List, [], ◌<◌, leb, length};
ghost use Rattle.text.specs.Fitting.{Lists};
ghost use Rattle.text.specs.Lines.{plain_lines, ListsChecked};
ghost use Rattle.text.specs.Listing.{most};
ghost use Rattle.text.specs.Inner.{Lent, Goes, said_by};

use crate::lister::{Going, Progress};
use crate::{Part, lines, lister, put};
use code::CODE_LIMIT;
use op::names::Names;
use op::{Refusal, Table};

// What is answered where the lines end.
fn said(p: Progress) -> Result<Part, Refusal>
    requires { p.at < 18446744073709551615 }
    ensures { result ≡ said_by p }
{
    if p.going == Going::Cut && p.to == 0 {
        return Err(Refusal::Full(Table::Text));
    }
    Ok(Part {
        length: p.to,
        next: p.at + 1,
    })
}

// The lines from an offset on, behind `to` cells of text.
fn go_on(code: &[u8], depths: &[u32], out: &mut [u8], at: usize, to: usize) -> Result<Part, Refusal>
    requires { Lent code.now depths.now out.old to × (at < 18446744073709551615) }
    ensures { Goes depths.now code.now at out.old to result out.new }
{
    let names = Names::new();
    said(lister::fill(code, depths, &names, out, at, to))
}

// How much of a code of so many bytes is listed: of one that is too long nothing.
fn listed(size: usize) -> usize
    ensures { result ≡ cond (leb size most) size 0 }
{
    if size <= lines::MOST { size } else { 0 }
}

// The plain listing, `listing_of`, from a cursor on.
pub fn list(code: &[u8], from: usize, out: &mut [u8]) -> Result<Part, Refusal>
    ensures { Lists (plain_lines code.now from) from out.old result out.new }
{
    let size = listed(code.len());
    if from == 0 {
        let to = lines::first(code.len(), out, 0)?;
        return go_on(&code[..size], &[], out, 0, to);
    }
    go_on(&code[..size], &[], out, from - 1, 0)
}

// The listing of checked code with its depths, `checked_listing_of`, from a cursor on: 10 over 1,048,576 bytes, 21 for fewer depths than bytes and one.
pub fn list_checked(
    code: &[u8],
    depths: &[u32],
    from: usize,
    out: &mut [u8],
) -> Result<Part, Refusal>
    ensures { ListsChecked code.now depths.now from out.old result
        out.new }
{
    if CODE_LIMIT < code.len() {
        return Err(Refusal::TooLarge);
    }
    if depths.len() <= code.len() {
        return Err(Refusal::ShortDepths);
    }
    let cells = code.len() + 1;
    if from == 0 {
        let to = put::bytes(b"depth\toffset\tname\toperands\ttarget\n", out, 0)?;
        return go_on(code, &depths[..cells], out, 0, to);
    }
    go_on(code, &depths[..cells], out, from - 1, 0)
}
