// Parts of listings, as they are told.
ghost use Rattle.api.specs.Listings.{part_told};
ghost use Rattle.api.specs.Told.{Tells};

use crate::{answers, cells};
use op::Refusal;
use text::Part;

// Tells a part's length and the cursor behind it; nothing where no line is left.
pub fn tell_part(listed: Result<Part, Refusal>, out: &mut [u64]) -> u64
    ensures { Tells (part_told listed) out.old result out.new }
{
    match listed {
        Ok(part) if part.length == 0 => 0,
        Ok(part) => cells::tell(&[part.length as u64, part.next as u64], out),
        Err(refusal) => answers::refused(refusal),
    }
}
