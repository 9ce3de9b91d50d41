// The handler lookup of code.rs over a lent slice of records. `code::lookups` has it over flat rows.
#![tactic(auto)]

ghost use Rattle.std.specs.Prelude.{◌≡◌, List, [], ◌∷◌};
ghost use Rattle.code.specs.Entries.{find_from};
ghost use Rattle.code.specs.Entries.{contains as in_entry};

use code::ExceptionEntry;

#[tactic(auto, unfolding(code::specs::Lookups::covers_of))]
fn contains(e: ExceptionEntry, offset: u32) -> bool
    ensures { result ≡ in_entry e offset }
{
    e.start <= offset && offset < e.end
}

// The first entry, in insertion order, that contains the offset, with its number.
pub fn find_exception_handler(
    entries: &[ExceptionEntry],
    offset: u32,
) -> Option<(usize, ExceptionEntry)>
    ensures { result ≡ find_from entries.now offset 0 }
{
    for (i, e) in entries.iter().enumerate() {
        if contains(*e, offset) {
            return Some((i, *e));
        }
    }
    None
}

// The same of two entries, for callers that hold no slice of records.
pub fn find_in_two(
    a: ExceptionEntry,
    b: ExceptionEntry,
    offset: u32,
) -> Option<(usize, ExceptionEntry)>
    ensures { result ≡ find_from (a ∷ b ∷ []) offset 0 }
{
    let entries = [a, b];
    find_exception_handler(&entries, offset)
}
