// Source locations: the row that goes with an instruction.
ghost use Rattle.std.specs.Prelude.{◌≤◌, length, true, ◌≡◌};
ghost use Rattle.builder.specs.Locations.{row_fits, locations_after, rows_after};
ghost use Rattle.code.specs.Locations.{location_at, location_numbers};
ghost use Rattle.code.specs.Tables.{code_limit, location_cells};
ghost use Rattle.code.specs.Bytes.{front};

use crate::{Location, tables};
use code::{CodeRange, LOCATION_CELLS};

// Whether a location that is set has room for its row.
#[inline(always)]
pub fn row_fits(location: Option<Location>, rows: usize, ll: usize) -> bool
    ensures { result ≡ row_fits location rows ll }
{
    match location {
        None => true,
        Some(_) => rows < ll / LOCATION_CELLS,
    }
}

// A location's row at the front.
#[inline(always)]
fn write_row(out: &mut [u32], offset: u32, range: CodeRange, focus: Option<CodeRange>)
    requires { location_cells ≤ length out.old }
    ensures { out.new ≡ front (location_numbers (location_at offset range focus)) out.old }
{
    match focus {
        None => tables::put(out, &[offset, range.start, range.end, 0, 0, 0]),
        Some(f) => tables::put(out, &[offset, range.start, range.end, 1, f.start, f.end]),
    }
}

// A location's row at the used end, where a location is set; the rows then used.
#[inline(always)]
pub fn write_location(
    location: Option<Location>,
    rows: usize,
    at: usize,
    locations: &mut [u32],
) -> usize
    requires { (at ≤ code_limit) × (row_fits location rows (length locations.old) ≡ true) }
    ensures { (result ≡ rows_after location rows)
        × (locations.new ≡ locations_after location rows at locations.old) }
{
    let Some(set) = location else {
        return rows;
    };
    let base = rows * LOCATION_CELLS;
    let offset = at as u32;
    write_row(&mut locations[base..], offset, set.range, set.focus);
    rows + 1
}
