// The cells alone.
ghost use Rattle.std.specs.Prelude.{◌≡◌, ◌-◌, ◌<◌, length, take};
ghost use Rattle.checker.specs.Cells.{held};
ghost use Rattle.checker.specs.Inner.{greatest_in};

use code::{NO_DEPTH, WORD_MAX};

// How many cells before the last hold a depth, of `all` that do.
pub fn before_last(cells: &[u32], all: usize) -> usize
    requires { (0 < length cells.now) × (all ≡ held cells.now) }
    ensures { result ≡ held (take (length cells.now - 1) cells.now) }
{
    let last = cells[cells.len() - 1];
    if last <= WORD_MAX { all - 1 } else { all }
}

// The greatest depth that the cells hold, 0 where they hold none. 65,536, where a cell holds none, counts as 0: by a
// remainder and no test, so that the compiler looks at several cells at once.
pub fn greatest(cells: &[u32]) -> u32
    ensures { result ≡ greatest_in cells.now }
{
    cells
        .iter()
        .fold(0, |most, holds| most.max(*holds % NO_DEPTH))
}
