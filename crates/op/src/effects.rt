// What instructions do to the depth of the stack.
ghost use Rattle.std.specs.Prelude.{◌≡◌, get_or, ◌<◌, ◌-◌};
ghost use Rattle.op.specs.Effects.{effect_by, effect_of, taken_of, net_of, Small, dead_maker, deadness_of, last_of};
ghost use Rattle.op.specs.Effects.{former_of, fixed_of, effect_from};
ghost use Rattle.op.specs.Inner.{rule_no, rule_at, rule_words, no_rules};

use crate::{Effect, Operand, Refusal, Shape, opcodes, rows, shapes};

// The rules of effects, by numbers of our own. They stand in the row of words below: an enum would need a second table, from
// its numbers, only to be matched once.
const MINUS_3: u8 = 0;

const MINUS_2: u8 = 1;

const MINUS_1: u8 = 2;

const SAME: u8 = 3;

const PLUS_1: u8 = 4;

const PLUS_2: u8 = 5;

const MINUS_N: u8 = 6;

const ONE_MINUS_N: u8 = 7;

const ONE_MINUS_2N: u8 = 8;

const N_MINUS_ONE: u8 = 9;

const BOTH: u8 = 10;

const MINUS_BOTH: u8 = 11;

const ONE_MINUS_BOTH: u8 = 12;

const EXTENDED: u8 = 13;

const FORMAT: u8 = 14;

const ASSERT: u8 = 15;

const ASSERT_FAILED: u8 = 16;

const MATCH_KEYS: u8 = 17;

// The row of the rules' numbers, eight opcodes a word.
#[inline(always)]
fn word(eight: u8) -> u64
    ensures { result ≡ get_or rule_words eight no_rules }
{
    match eight {
        0 => 0x04_04_04_04_03_03_04_02, // Pop to LoadFalse
        1 => 0x02_04_04_04_04_04_04_04, // LoadSmallInt to StoreLocal
        2 => 0x02_04_03_02_04_02_04_02, // StoreLocalW to BinaryAdd
        3 => 0x02_02_02_02_02_02_02_02, // BinarySub to BinaryOr
        4 => 0x02_02_02_02_02_02_02_02, // BinaryXor to CompareLe
        5 => 0x03_03_02_02_02_02_02_02, // CompareGt to UnaryNeg
        6 => 0x02_02_02_02_02_02_03_03, // UnaryPos to InplaceMod
        7 => 0x07_07_02_02_02_02_02_02, // InplacePow to BuildTuple
        8 => 0x02_03_02_01_07_0e_07_08, // BuildDict to DictMerge
        9 => 0x01_03_03_00_02_01_02_02, // ListAppend to StoreAttr
        10 => 0x0d_0d_0b_06_0b_07_07_06, // CallFunction to CallAttrExtended
        11 => 0x07_04_03_02_02_02_02_03, // Jump to MakeFunction
        12 => 0x09_03_02_03_03_03_02_0c, // MakeClosure to UnpackSequence
        13 => 0x02_02_03_05_03_04_03_0a, // UnpackEx to SetExtend
        14 => 0x10_0f_02_03_03_04_03_04, // BeforeWith to AssertFailed
        15 => 0x04_11_04_03_02_04_03_04, // BuildCell to MatchClass
        16 => 0x03_03_03_03_03_01_03_05, // MatchAttr to RaiseFrom
        _ => 0x03_03_03_03_03_03_03_03,
    }
}

// The number of an opcode's rule; SAME where there is no such opcode.
#[inline(always)]
fn rule_number(opcode: u8) -> u8
    ensures { result ≡ rule_no opcode }
{
    rows::number_in(word(opcode / 8), opcode % 8)
}

// A rule's effect, by the operand's former and last number.
#[inline(always)]
fn rule_effect(rule: u8, m: u32, n: u32) -> Effect
    requires { (m < 256) × (n < 65536) }
    ensures { result ≡ effect_by (rule_at rule) m n }
{
    match rule {
        MINUS_3 => Effect { up: 0, down: 3 },
        MINUS_2 => Effect { up: 0, down: 2 },
        MINUS_1 => Effect { up: 0, down: 1 },
        SAME => Effect { up: 0, down: 0 },
        PLUS_1 => Effect { up: 1, down: 0 },
        PLUS_2 => Effect { up: 2, down: 0 },
        MINUS_N => Effect { up: 0, down: n },
        ONE_MINUS_N => Effect { up: 1, down: n },
        ONE_MINUS_2N => Effect { up: 1, down: 2 * n },
        N_MINUS_ONE => Effect { up: n, down: 1 },
        BOTH => Effect { up: m + n, down: 0 },
        MINUS_BOTH => Effect { up: 0, down: m + n },
        ONE_MINUS_BOTH => Effect { up: 1, down: m + n },
        EXTENDED => Effect {
            up: 0,
            down: 1 + n % 2,
        },
        FORMAT => Effect {
            up: 0,
            down: n / 4 % 2,
        },
        ASSERT => Effect {
            up: 0,
            down: 1 + n / 16 % 2,
        },
        ASSERT_FAILED => Effect {
            up: 0,
            down: 2 + n / 16 % 2,
        },
        _ => {
            if n == 1 {
                Effect { up: 0, down: 1 }
            } else {
                Effect { up: 2, down: 0 }
            }
        }
    }
}

// An operand's last number: its count, flags or mode.
#[inline(always)]
fn last(operand: Operand) -> u32
    ensures { (result ≡ last_of operand) × (result < 65536) }
{
    match operand {
        Operand::None => 0,
        Operand::U8(a) => a as u32,
        Operand::I8(_) => 0,
        Operand::U16(a) => a as u32,
        Operand::Offset(_) => 0,
        Operand::U8U8(_, b) => b as u32,
        Operand::U16U8(_, b) => b as u32,
        Operand::U16U16(_, b) => b as u32,
        Operand::U16U8U8(_, _, c) => c as u32,
        Operand::CallKw {
            positional: _,
            names,
        } => names as u32,
        Operand::CallAttrKw {
            attribute: _,
            positional: _,
            names,
        } => names as u32,
        Operand::U16U16U8(_, _, c) => c as u32,
    }
}

// The number before it, where an effect goes by it.
#[inline(always)]
fn former(operand: Operand) -> u32
    ensures { (result ≡ former_of operand) × (result < 256) }
{
    match operand {
        Operand::None => 0,
        Operand::U8(_) => 0,
        Operand::I8(_) => 0,
        Operand::U16(_) => 0,
        Operand::Offset(_) => 0,
        Operand::U8U8(a, _) => a as u32,
        Operand::U16U8(_, _) => 0,
        Operand::U16U16(_, _) => 0,
        Operand::U16U8U8(_, b, _) => b as u32,
        Operand::CallKw {
            positional,
            names: _,
        } => positional as u32,
        Operand::CallAttrKw {
            attribute: _,
            positional,
            names: _,
        } => positional as u32,
        Operand::U16U16U8(_, _, _) => 0,
    }
}

// The effect of an instruction that falls through: refuses 1, then 2.
#[inline(always)]
pub fn effect(opcode: u8, operand: Operand) -> Result<Effect, Refusal>
    ensures { (result ≡ effect_of opcode operand) × Small result }
{
    let shape = shapes::operand_shape(opcode)?;
    if shape != Shape::from(operand) {
        return Err(Refusal::WrongShape);
    }
    Ok(rule_effect(rule_number(opcode), former(operand), last(operand)))
}

// How far `a` is over `b`.
fn over(a: u8, b: u8) -> u32
    ensures { result ≡ a - b }
{
    if a < b {
        return 0;
    }
    (a - b) as u32
}

// What an opcode does to the depth whatever its operand: refuses 1. The first six rules stand in the order of their
// effects, so that those are differences: an arm for each would become a chain of tests.
#[inline(always)]
pub fn fixed(opcode: u8) -> Result<Option<Effect>, Refusal>
    ensures { result ≡ fixed_of opcode }
{
    if opcodes::LAST < opcode {
        return Err(Refusal::UnknownOpcode);
    }
    let rule = rule_number(opcode);
    if PLUS_2 < rule {
        return Ok(None);
    }
    Ok(Some(Effect {
        up: over(rule, SAME),
        down: over(SAME, rule),
    }))
}

// The effect of an opcode by its operand's former and last number, without the operand: refuses 1.
#[inline(always)]
pub fn by_numbers(opcode: u8, former: u8, last: u16) -> Result<Effect, Refusal>
    ensures { (result ≡ effect_from opcode former last) × Small result }
{
    if opcodes::LAST < opcode {
        return Err(Refusal::UnknownOpcode);
    }
    Ok(rule_effect(rule_number(opcode), former as u32, last as u32))
}

// The effect of a taken jump: refuses 1, then 3.
pub fn taken_effect(opcode: u8) -> Result<Effect, Refusal>
    ensures { result ≡ taken_of opcode }
{
    if opcodes::LAST < opcode {
        return Err(Refusal::UnknownOpcode);
    }
    match opcode {
        opcodes::JUMP => Ok(Effect { up: 0, down: 0 }),
        opcodes::JUMP_IF_TRUE => Ok(Effect { up: 0, down: 1 }),
        opcodes::JUMP_IF_FALSE => Ok(Effect { up: 0, down: 1 }),
        opcodes::JUMP_IF_TRUE_OR_POP => Ok(Effect { up: 0, down: 0 }),
        opcodes::JUMP_IF_FALSE_OR_POP => Ok(Effect { up: 0, down: 0 }),
        opcodes::FOR_ITER => Ok(Effect { up: 0, down: 1 }),
        _ => Err(Refusal::NotAJump),
    }
}

// An effect as one signed number.
fn net(effect: Result<Effect, Refusal>) -> Result<i32, Refusal>
    requires { Small effect }
    ensures { result ≡ net_of effect }
{
    match effect {
        Ok(Effect { up, down }) => Ok(up as i32 - down as i32),
        Err(refusal) => Err(refusal),
    }
}

// op.rs, `stack_effect`: refuses 1, then 2.
pub fn stack_effect(opcode: u8, operand: Operand) -> Result<i32, Refusal>
    ensures { result ≡ net_of (effect_of opcode operand) }
{
    net(effect(opcode, operand))
}

// op.rs, `jump_taken_stack_effect`: refuses 1, then 3.
pub fn jump_taken_stack_effect(opcode: u8) -> Result<i32, Refusal>
    ensures { result ≡ net_of (taken_of opcode) }
{
    net(taken_effect(opcode))
}

// Whether the code behind an opcode is dead; no number above the last opcode's makes it so.
pub fn is_dead_maker(opcode: u8) -> bool
    ensures { result ≡ dead_maker opcode }
{
    match opcode {
        opcodes::RETURN_VALUE => true,
        opcodes::RAISE => true,
        opcodes::RERAISE => true,
        opcodes::RAISE_UNBOUND_LOCAL => true,
        opcodes::ASSERT_FAILED => true,
        opcodes::JUMP => true,
        _ => false,
    }
}

// What the code behind an opcode is: refuses 1.
pub fn makes_dead(opcode: u8) -> Result<bool, Refusal>
    ensures { result ≡ deadness_of opcode }
{
    if opcodes::LAST < opcode {
        return Err(Refusal::UnknownOpcode);
    }
    Ok(is_dead_maker(opcode))
}
