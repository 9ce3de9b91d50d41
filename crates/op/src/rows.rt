// Rows of small numbers, one for each opcode: words of eight, the first in the lowest byte. A const array would be made
// anew on the stack at each use; a `match` over words the compiler keeps in read-only memory, byte by byte the row.
ghost use Rattle.std.specs.Prelude.{◌≡◌, ◌<◌};
ghost use Rattle.op.specs.Inner.{number_in};

// The number at a place of a word.
#[inline(always)]
pub fn number_in(word: u64, place: u8) -> u8
    requires { place < 8 }
    ensures { result ≡ number_in word place }
{
    ((word >> (8 * place)) % 256) as u8
}
