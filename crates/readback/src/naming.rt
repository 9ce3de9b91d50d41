// The opcode that a text names. A table has the one opcode whose name can stand at each slot, and a slot is
// found from a name's length and four of its letters, so one comparison decides.
ghost use Rattle.std.specs.Prelude.{◌≡◌, ◌-◌, ◌≤◌, get_or};
ghost use Rattle.text.specs.Reading.{opcode_of};
ghost use Rattle.readback.specs.Inner.{slot_of, slot_table};

use crate::fields;
use op::names::Names;

// No opcode: one past the last.
const NONE: u8 = 131;

// The byte at a place, 0 where there is none.
fn letter(t: &[u8], i: usize) -> usize
    ensures { (result ≡ get_or t.now i 0) × (result ≤ 255) }
{
    usize::from(t.get(i).copied().unwrap_or(0))
}

// The slot of a name.
fn slot(t: &[u8]) -> usize
    ensures { result ≡ slot_of t.now }
{
    let n = t.len();
    let ends = 174 * letter(t, n.saturating_sub(1))
        + 157 * letter(t, n.saturating_sub(2))
        + 167 * letter(t, n.saturating_sub(6));
    (108 * (n % 64) + 98 * letter(t, 0) + ends) % 512
}

// The opcode of each slot: one past the last, or the one whose name has it.
fn slots(names: &Names) -> [u8; 512]
    ensures { result ≡ slot_table }
{
    let mut slots = [NONE; 512];
    for opcode in 0..NONE {
        let at = slot(names.of(opcode));
        slots[at] = opcode;
    }
    slots
}

// The opcodes' names and the opcode of each slot, made once for all lines.
#[derive(Drop)]
pub struct Naming {
    names: Names,
    slots: [u8; 512],
    ghost own: { slots ≡ slot_table },
}

impl Naming {
    pub fn new() -> Naming {
        let names = Names::new();
        let slots = slots(&names);
        Naming { names, slots }
    }

    // The opcode that a text names, or one past the last.
    pub fn opcode(&self, t: &[u8]) -> u8
        ensures { result ≡ opcode_of t.now }
    {
        let k = self.slots[slot(t)];
        if fields::same(self.names.of(k), t) {
            return k;
        }
        NONE
    }
}
