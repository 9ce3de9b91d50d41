// Lent cells.
ghost use Rattle.std.specs.Prelude.{◌≡◌, length, replicate};

// Each cell gets one value.
#[inline(always)]
pub fn fill(cells: &mut [u32], v: u32)
    ensures { cells.new ≡ replicate (length cells.old) v }
{
    cells.fill(v);
}
