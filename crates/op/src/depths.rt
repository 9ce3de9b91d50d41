// The depth behind an instruction.
ghost use Rattle.std.specs.Prelude.{◌≡◌};
ghost use Rattle.op.specs.Depths.{landing, after_of, taken_depth_of};

use crate::{Effect, Operand, Refusal, effects};

// The depth that an effect leads to; `low` is what a depth below 0 is refused with.
#[inline(always)]
fn land(low: Refusal, depth: u16, effect: Result<Effect, Refusal>) -> Result<u16, Refusal>
    ensures { result ≡ landing low depth effect }
{
    let Effect { up, down } = effect?;
    let high = u64::from(depth) + u64::from(up);
    let Some(behind) = high.checked_sub(u64::from(down)) else {
        return Err(low);
    };
    let Ok(next) = u16::try_from(behind) else {
        return Err(Refusal::DepthTooLarge);
    };
    Ok(next)
}

// The depth after falling through: refuses 1, 2, then 4 or 5.
#[inline(always)]
pub fn after(depth: u16, opcode: u8, operand: Operand) -> Result<u16, Refusal>
    ensures { result ≡ after_of depth opcode operand }
{
    land(
        Refusal::DepthBelowZero,
        depth,
        effects::effect(opcode, operand),
    )
}

// The depth that a taken jump arrives with: refuses 1, 3, then 4 or 5.
pub fn taken(depth: u16, opcode: u8) -> Result<u16, Refusal>
    ensures { result ≡ taken_depth_of depth opcode }
{
    land(
        Refusal::DepthBelowZero,
        depth,
        effects::taken_effect(opcode),
    )
}
