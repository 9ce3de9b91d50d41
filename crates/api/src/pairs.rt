// Two records of the exception table, given as numbers.
ghost use Rattle.std.specs.Prelude.{◌≡◌, ◌+◌, ◌≤◌, cond, leb, length};
ghost use Rattle.code.specs.Entries.{flat_answer};
ghost use Rattle.api.specs.Pairs.{entry_of, entry_at, both_told};
ghost use Rattle.api.specs.Tables.{handled_told};
ghost use Rattle.api.specs.Told.{Tells};

use crate::{answers, tables};
use code::{ExceptionEntry, HandlerKind, HandlerRow};
use op::Refusal;

// The record that a row holds, if it holds one.
fn entry(row: HandlerRow) -> Option<ExceptionEntry>
    ensures { result ≡ entry_of row.start row.end row.handler row.depth row.count row.kind }
{
    let stack_depth = u16::try_from(row.depth).ok()?;
    let exception_stack_count = u16::try_from(row.count).ok()?;
    let kind = HandlerKind::try_from(row.kind).ok()?;
    Some(ExceptionEntry {
        start: row.start,
        end: row.end,
        handler: row.handler,
        stack_depth,
        exception_stack_count,
        kind,
    })
}

// The record that begins at a place.
#[tactic(auto, unfolding(crate::specs::Pairs::entry_at))]
pub fn entry_at(rows: &[u32], at: usize) -> Option<ExceptionEntry>
    requires { at + 6 ≤ length rows.now }
    ensures { result ≡ entry_at rows.now at }
{
    entry(HandlerRow {
        start: rows[at],
        end: rows[at + 1],
        handler: rows[at + 2],
        depth: rows[at + 3],
        count: rows[at + 4],
        kind: rows[at + 5],
    })
}

// Tells what was found.
fn tell_found(found: Option<(usize, ExceptionEntry)>, out: &mut [u64]) -> u64
    ensures { Tells (handled_told (flat_answer found)) out.old result out.new }
{
    match found {
        Some((number, entry)) => tables::tell_handler(number, HandlerRow::from(entry), out),
        None => 0,
    }
}

// Tells which of two records contains an offset, the first before the second; 19 where one of them is none.
pub fn find(
    first: Option<ExceptionEntry>,
    second: Option<ExceptionEntry>,
    offset: u32,
    out: &mut [u64],
) -> u64
    ensures { Tells (both_told first second offset) out.old result out.new }
{
    let (Some(a), Some(b)) = (first, second) else {
        return answers::refused(Refusal::Unsound);
    };
    tell_found(records::find_in_two(a, b, offset), out)
}
