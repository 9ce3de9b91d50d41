// What the lookups tell.
ghost use Rattle.api.specs.Told.{Tells};
ghost use Rattle.api.specs.Tables.{located_told, handled_told};

use crate::cells;
use code::{HandlerRow, LocationRow};

// Tells a row of the location table.
pub fn tell_location(number: usize, row: LocationRow, out: &mut [u64]) -> u64
    ensures { Tells (located_told (Some (number, row))) out.old result out.new }
{
    let given = [
        number as u64,
        row.offset as u64,
        row.start as u64,
        row.end as u64,
        row.focus_present as u64,
        row.focus_start as u64,
        row.focus_end as u64,
    ];
    cells::tell(&given, out)
}

// Tells a row of the exception table.
pub fn tell_handler(number: usize, row: HandlerRow, out: &mut [u64]) -> u64
    ensures { Tells (handled_told (Some (number, row))) out.old result out.new }
{
    let given = [
        number as u64,
        row.start as u64,
        row.end as u64,
        row.handler as u64,
        row.depth as u64,
        row.count as u64,
        row.kind as u64,
    ];
    cells::tell(&given, out)
}
