// Cells at the front of a slice, which has room for them.
ghost use Rattle.std.specs.Prelude.{◌≡◌, ◌≤◌, length};
ghost use Rattle.code.specs.Bytes.{front};

// Bytes of code, or cells of a table, one after the other as in `code`, which has its own function, since a public function of
// this project requires nothing.
#[inline(always)]
pub fn put<T: Copy>(out: &mut [T], cells: &[T])
    requires { length cells.now ≤ length out.old }
    ensures { out.new ≡ front cells.now out.old }
{
    for (i, cell) in cells.iter().enumerate() {
        out[i] = *cell;
    }
}
