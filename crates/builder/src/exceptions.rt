// Exceptions: what a row holds.
ghost use Rattle.builder.specs.Exceptions.{offsets_fit};
ghost use Rattle.std.specs.Prelude.{◌≡◌};

// The greatest offset that an exception's row holds.
const OFFSET_MAX: usize = 4294967295;

// Whether the offsets fit a row.
pub fn offsets_fit(start: usize, end: usize, handler: usize) -> bool
    ensures { result ≡ offsets_fit start end handler }
{
    if OFFSET_MAX < start {
        return false;
    }
    if OFFSET_MAX < end {
        return false;
    }
    handler <= OFFSET_MAX
}
