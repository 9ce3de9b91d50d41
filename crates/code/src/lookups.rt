// The lookups of code.rs. Each is lent just the used rows of its table; a trailing part row is skipped.
ghost use Rattle.std.specs.Prelude.{◌≡◌, ◌<◌};
ghost use Rattle.code.specs.Rows.{row_count, cell};
ghost use Rattle.code.specs.Tables.{exception_cells};
ghost use Rattle.code.specs.Locations.{location_count, location_row};
ghost use Rattle.code.specs.Lookups.{handler_row, first_greater, covers_of, covering, first_covering, location_of};
ghost use Rattle.code.specs.Lookups.{handler_of, constant_of, local_name_of};

use crate::{EXCEPTION_CELLS, HandlerRow, LOCATION_CELLS, LocationRow};

const LARGEST_U32: usize = 4294967295;

// Cell k of a row.
fn cell_of(rows: &[u32], width: usize, row: usize, k: usize) -> u32
    requires { (row < row_count width rows.now) × (k < width) }
    ensures { result ≡ cell width rows.now row k }
{
    rows[row * width + k]
}

// A row of the location table.
fn location_row(rows: &[u32], row: usize) -> LocationRow
    requires { row < location_count rows.now }
    ensures { result ≡ location_row rows.now row }
{
    LocationRow {
        offset: cell_of(rows, LOCATION_CELLS, row, 0),
        start: cell_of(rows, LOCATION_CELLS, row, 1),
        end: cell_of(rows, LOCATION_CELLS, row, 2),
        focus_present: cell_of(rows, LOCATION_CELLS, row, 3),
        focus_start: cell_of(rows, LOCATION_CELLS, row, 4),
        focus_end: cell_of(rows, LOCATION_CELLS, row, 5),
    }
}

// The first row whose offset is greater, or the number of rows. Two rows a turn, so that half as many turns are
// counted.
fn first_greater(rows: &[u32], offset: usize) -> usize
    ensures { result ≡ first_greater rows.now offset }
{
    let count = rows.len() / LOCATION_CELLS;
    let mut row: usize = 0;
    while row + 1 < count {
        if offset < cell_of(rows, LOCATION_CELLS, row, 0) as usize {
            return row;
        }
        if offset < cell_of(rows, LOCATION_CELLS, row + 1, 0) as usize {
            return row + 1;
        }
        row += 2;
    }
    if row == count {
        return count;
    }
    if offset < cell_of(rows, LOCATION_CELLS, row, 0) as usize {
        return row;
    }
    count
}

// The row before the first row whose offset is greater, or the last row if none is. A scan, and no binary search as
// in the Rust, so that this holds of offsets in any order too.
pub fn location_for_offset(rows: &[u32], offset: usize) -> Option<(usize, LocationRow)>
    ensures { result ≡ location_of rows.now offset }
{
    if LARGEST_U32 < offset {
        return None;
    }
    let row = first_greater(rows, offset).checked_sub(1)?;
    Some((row, location_row(rows, row)))
}

// A row of the exception table.
fn handler_row(rows: &[u32], row: usize) -> HandlerRow
    requires { row < row_count exception_cells rows.now }
    ensures { result ≡ handler_row rows.now row }
{
    HandlerRow {
        start: cell_of(rows, EXCEPTION_CELLS, row, 0),
        end: cell_of(rows, EXCEPTION_CELLS, row, 1),
        handler: cell_of(rows, EXCEPTION_CELLS, row, 2),
        depth: cell_of(rows, EXCEPTION_CELLS, row, 3),
        count: cell_of(rows, EXCEPTION_CELLS, row, 4),
        kind: cell_of(rows, EXCEPTION_CELLS, row, 5),
    }
}

// Whether an offset is in a protected range, whose end is outside.
pub(crate) fn covers(start: u32, end: u32, offset: u32) -> bool
    ensures { result ≡ covers_of start end offset }
{
    if start <= offset {
        return offset < end;
    }
    false
}

// Whether a row's range holds the offset.
fn row_covers(rows: &[u32], row: usize, offset: u32) -> bool
    requires { row < row_count exception_cells rows.now }
    ensures { result ≡ covering rows.now offset row }
{
    let start = cell_of(rows, EXCEPTION_CELLS, row, 0);
    let end = cell_of(rows, EXCEPTION_CELLS, row, 1);
    covers(start, end, offset)
}

// The first row whose range holds the offset, or the number of rows. Two rows a turn, as in `first_greater`.
fn first_covering(rows: &[u32], offset: u32) -> usize
    ensures { result ≡ first_covering rows.now offset }
{
    let count = rows.len() / EXCEPTION_CELLS;
    let mut row: usize = 0;
    while row + 1 < count {
        if row_covers(rows, row, offset) {
            return row;
        }
        if row_covers(rows, row + 1, offset) {
            return row + 1;
        }
        row += 2;
    }
    if row == count {
        return count;
    }
    if row_covers(rows, row, offset) {
        return row;
    }
    count
}

// The first row, in insertion order, with start <= offset < end.
pub fn find_exception_handler(rows: &[u32], offset: u32) -> Option<(usize, HandlerRow)>
    ensures { result ≡ handler_of rows.now offset }
{
    let row = first_covering(rows, offset);
    if row < rows.len() / EXCEPTION_CELLS {
        return Some((row, handler_row(rows, row)));
    }
    None
}

// The constant of that index.
pub fn constant(constants: &[u64], index: usize) -> Option<u64>
    ensures { result ≡ constant_of constants.now index }
{
    constants.get(index).copied()
}

// The name of a local slot; a name's cell holds its number and 1.
pub fn local_name(names: &[u64], slot: usize) -> Option<u32>
    ensures { result ≡ local_name_of names.now slot }
{
    let held = *names.get(slot)?;
    let name = held.checked_sub(1)?;
    u32::try_from(name).ok()
}
