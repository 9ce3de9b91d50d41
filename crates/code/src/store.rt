// Cells at the front of a slice, which has room for them, and words as bytes.
ghost use Rattle.std.specs.Prelude.{◌≡◌, ◌≤◌, length};
ghost use Rattle.code.specs.Bytes.{front, word_bytes};

// Bytes of code. One after the other: a copy of them all would have them stored in memory first, and wait for that.
#[inline(always)]
pub(crate) fn put<T: Copy>(out: &mut [T], cells: &[T])
    requires { length cells.now ≤ length out.old }
    ensures { out.new ≡ front cells.now out.old }
{
    for (i, cell) in cells.iter().enumerate() {
        out[i] = *cell;
    }
}

// A word's two bytes, the low one first.
#[inline(always)]
pub fn halves(w: u16) -> [u8; 2]
    ensures { result ≡ word_bytes w }
{
    w.to_le_bytes()
}
