// Numbers at the front of lent cells.
ghost use Rattle.api.specs.Told.{numbers, Tells};

use crate::answers;
use op::{Refusal, Table};

// Tells some numbers: 1, or 18 and no change.
pub fn tell(given: &[u64], out: &mut [u64]) -> u64
    ensures { Tells (numbers given.now) out.old result out.new }
{
    if out.len() < given.len() {
        return answers::refused(Refusal::Full(Table::Text));
    }
    out[..given.len()].copy_from_slice(given);
    1
}
