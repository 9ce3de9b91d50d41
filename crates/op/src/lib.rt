// The opcode rules: op.rs of pydantic/monty, and CmpOperator of its expressions.rs. Opcodes are numbers, `opcodes` names
// them; a number above the last one is refused by 1 wherever it is given.
#![tactic(auto)]

ghost use Rattle.std.specs.Prelude.{◌≡◌};

pub mod depths;
pub mod effects;
pub mod flags;
pub mod names;
pub mod needs;
pub mod opcodes;
pub mod refusals;
mod rows;
pub mod shapes;

// A lent table, which refusal 18 names.
#[derive(Clone, Copy, Debug, PartialEq, Eq)]
pub enum Table {
    Code,
    Locations,
    Exceptions,
    Constants,
    Names,
    Marks,
    Starts,
    // a lent text
    Text,
}

// A refusal: a case for each number of R27's table, in its order. `refusals::number` gives the number.
#[derive(Clone, Copy, Debug, PartialEq, Eq)]
pub enum Refusal {
    // 1: opcode above the last one, given
    UnknownOpcode,
    // 1: the same, read from code at this offset
    UnknownOpcodeAt(usize),
    // 2: operand shape isn't the opcode's
    WrongShape,
    // 3: jump call with another opcode
    NotAJump,
    // 4: depth after falling through, or a taken depth, below 0
    DepthBelowZero,
    // 5: such a depth above 65,535
    DepthTooLarge,
    // 6: displacement outside its range
    JumpTooFar,
    // 7: over 255 keyword names
    TooManyKeywords,
    // 8: name over 65,535
    NameTooLarge,
    // 9: 65,536 or more constants already held
    TooManyConstants,
    // 10: exception offset, checked code or listed input too large
    TooLarge,
    // 11: a jump meets another depth
    DepthsDiffer,
    // 12: live jump to a Dead target
    DeadTarget,
    // 13: no mark of that kind there
    NoSuchMark,
    // 14: label already patched
    AlreadyPatched,
    // 15: region opened while live
    RegionWhileLive,
    // 16: names already held
    NamesHeld,
    // 17: build with an open label
    OpenLabel,
    // 18: no room in this table
    Full(Table),
    // 19: a count or a mark that can't be
    Unsound,
    // 20: start list that can't be
    BadStarts,
    // 21: depth slice too short
    ShortDepths,
    // 22: instruction cut short, at this offset
    CutShort(usize),
    // 23: no assignment of depths exists
    NoDepths,
    // 24: a line not formed as a listing forms one
    NotALine,
    // 25: an offset or a target that disagrees with what results
    Disagrees,
    // 26: in strict mode, an instruction at this offset that has fewer values on the stack than it needs
    TooFewValues(usize),
}

// The layout of an opcode's operand bytes.
#[derive(Clone, Copy, Debug, PartialEq, Eq)]
pub enum Shape {
    None,
    U8,
    I8,
    U16,
    Offset,
    U8U8,
    U16U8,
    U16U16,
    U16U8U8,
    CallKw,
    CallAttrKw,
    U16U16U8,
}

// An operand, by value. Keyword names travel beside it; here is their count.
#[derive(Clone, Copy, Debug, PartialEq, Eq)]
pub enum Operand {
    None,
    U8(u8),
    I8(i8),
    U16(u16),
    // the displacement from behind the jump
    Offset(i16),
    U8U8(u8, u8),
    U16U8(u16, u8),
    U16U16(u16, u16),
    U16U8U8(u16, u8, u8),
    CallKw {
        positional: u8,
        names: u8,
    },
    CallAttrKw {
        attribute: u16,
        positional: u8,
        names: u8,
    },
    U16U16U8(u16, u16, u8),
}

// What an instruction does to the depth: adds `up` and takes `down` away.
#[derive(Clone, Copy, Debug, PartialEq, Eq)]
pub struct Effect {
    pub up: u32,
    pub down: u32,
}

// The comparison operators of expressions.rs.
#[derive(Clone, Copy, Debug, PartialEq, Eq)]
pub enum CmpOperator {
    Eq,
    NotEq,
    Lt,
    LtE,
    Gt,
    GtE,
    Is,
    IsNot,
    In,
    NotIn,
}
