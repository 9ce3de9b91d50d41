// How instructions move on. The checker asks this of each instruction, so an opcode's shape is looked up once and no
// operand is made: bytes are read only where a jump leads by them, or an effect goes by them.
ghost use Rattle.std.specs.Prelude.{◌≡◌, ◌+◌, ◌<◌, ◌≤◌, length, drop, get_or};
ghost use Rattle.op.specs.Effects.{effect_of};
ghost use Rattle.op.specs.Opcodes.{last_opcode};
ghost use Rattle.op.specs.Shapes.{shape_of};
ghost use Rattle.code.specs.Bytes.{signed};
ghost use Rattle.code.specs.Decode.{operand_in};
ghost use Rattle.code.specs.Flow.{goal_by, goal_of, change_of, flow_by, flow_of};

use crate::{Flow, Goal, numbers};
use op::{Effect, Refusal, Shape, effects, shapes};

// What an effect adds and takes away; nothing where it is refused.
fn change_of(effect: Result<Effect, Refusal>) -> Effect
    ensures { result ≡ change_of effect }
{
    match effect {
        Ok(effect) => effect,
        Err(_) => Effect { up: 0, down: 0 },
    }
}

// What the instruction at an offset does to the depth where it falls through.
fn net_at(code: &[u8], at: usize, opcode: u8, shape: Shape) -> Effect
    requires { (at < length code.now) × (shape_of opcode ≡ Ok shape) }
    ensures { result ≡ change_of (effect_of opcode (operand_in shape (drop at code.now))) }
{
    let Ok(fixed) = effects::fixed(opcode) else {
        return Effect { up: 0, down: 0 };
    };
    match fixed {
        Some(effect) => effect,
        None => change_of(effects::by_numbers(
            opcode,
            numbers::former(code, at, shape),
            numbers::last(code, at, shape),
        )),
    }
}

// Where a displacement leads from `next`, in code of `end` bytes, by the word that stands for it.
fn goal_by(next: usize, end: usize, word: usize) -> Goal
    requires { (next ≤ end) × (word < 65536) }
    ensures { result ≡ goal_by next end (signed 65536 word) }
{
    if word < 32768 {
        if word <= end - next {
            return Goal::To(next + word);
        }
        return Goal::Outside;
    }
    let back = 65536 - word;
    if back <= next {
        return Goal::To(next - back);
    }
    Goal::Outside
}

// Where the instruction at an offset jumps, from the one behind it at `next`.
fn goal_at(code: &[u8], at: usize, next: usize, shape: Shape) -> Goal
    requires { (at < length code.now) × (next ≤ length code.now) }
    ensures { result ≡ goal_of next (length code.now) (operand_in shape (drop at code.now)) }
{
    match shape {
        Shape::Offset => goal_by(next, code.len(), numbers::word(code, at, 1) as usize),
        _ => Goal::Nowhere,
    }
}

// How the instruction of a shape and a size at an offset moves on.
fn flow_by(code: &[u8], at: usize, shape: Shape, size: usize) -> Flow
    requires { (at < length code.now) × (shape_of (get_or code.now at 0) ≡ Ok shape)
        × (at + size ≤ length code.now) }
    ensures { result ≡ flow_by (at + size) (length code.now) (get_or code.now at 0)
        (operand_in shape (drop at code.now)) size }
{
    let opcode = code[at];
    let dead = effects::is_dead_maker(opcode);
    let net = net_at(code, at, opcode, shape);
    let goal = goal_at(code, at, at + size, shape);
    let taken = change_of(effects::taken_effect(opcode));
    Flow {
        size,
        net,
        taken,
        goal,
        falls: !dead,
    }
}

// The same, or 22 where it is cut short.
fn shaped_flow(code: &[u8], at: usize, shape: Shape) -> Result<Option<Flow>, Refusal>
    requires { (at < length code.now) × (shape_of (get_or code.now at 0) ≡ Ok shape) }
    ensures { result ≡ flow_of last_opcode at (drop at code.now) }
{
    let size = numbers::size(code, at, shape);
    if code.len() - at < size {
        return Err(Refusal::CutShort(at));
    }
    Ok(Some(flow_by(code, at, shape, size)))
}

// How the instruction at an offset moves on: whether it falls through, what that does to the depth, where it jumps
// and what that does to the depth. The end and refusals are the step's.
pub fn flow_at(code: &[u8], at: usize) -> Result<Option<Flow>, Refusal>
    ensures { result ≡ flow_of last_opcode at (drop at code.now) }
{
    if code.len() <= at {
        return Ok(None);
    }
    let shaped = shapes::operand_shape(code[at]);
    match shaped {
        Ok(shape) => shaped_flow(code, at, shape),
        Err(_) => Err(Refusal::UnknownOpcodeAt(at)),
    }
}
