// The checker's modes by number.
ghost use Rattle.std.specs.Prelude.{◌≡◌, cond, leb};
ghost use Rattle.api.specs.Checks.{last_mode, mode_of};

use strict::Mode;

// 0 is the old mode, 1 the strict one, and there is no other. `Mode` is crate `strict`'s, so this is no `TryFrom`.
pub fn of_number(number: u8) -> Option<Mode>
    ensures { result ≡ cond (leb number last_mode) (Some (mode_of number)) None }
{
    match number {
        0 => Some(Mode::Net),
        1 => Some(Mode::Strict),
        _ => None,
    }
}
