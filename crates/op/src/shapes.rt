// The shapes of operands and the sizes of instructions.
ghost use Rattle.std.specs.Prelude.{◌≡◌, get_or};
ghost use Rattle.op.specs.Shapes.{Numbers, shape_number, shape_of, operand_shape, shape_no, size_of};
ghost use Rattle.op.specs.Inner.{shape_words, no_shapes};

use crate::{Operand, Refusal, Shape, rows};

// A number that is no shape's.
#[derive(Clone, Copy, Debug, PartialEq, Eq)]
pub struct NoShape(pub u8);

// By the shapes' numbers in op.rs, which are those of the enum's order.
impl TryFrom<u8> for Shape {
    type Error = NoShape;

    ghost try_from_gives = { Numbers };

    #[inline(always)]
    fn try_from(number: u8) -> Result<Self, NoShape> {
        match number {
            0 => Ok(Shape::None),
            1 => Ok(Shape::U8),
            2 => Ok(Shape::I8),
            3 => Ok(Shape::U16),
            4 => Ok(Shape::Offset),
            5 => Ok(Shape::U8U8),
            6 => Ok(Shape::U16U8),
            7 => Ok(Shape::U16U16),
            8 => Ok(Shape::U16U8U8),
            9 => Ok(Shape::CallKw),
            10 => Ok(Shape::CallAttrKw),
            11 => Ok(Shape::U16U16U8),
            _ => Err(NoShape(number)),
        }
    }
}

// Stands for a shape's number where there is no such opcode.
pub const NO_SHAPE: u8 = 12;

// The row of the shapes' numbers, eight opcodes a word.
#[inline(always)]
fn word(eight: u8) -> u64
    ensures { result ≡ get_or shape_words eight no_shapes }
{
    match eight {
        0 => 0x00_00_00_03_00_00_00_00, // Pop to LoadFalse
        1 => 0x01_03_01_00_00_00_00_02, // LoadSmallInt to StoreLocal
        2 => 0x00_07_01_03_03_03_03_03, // StoreLocalW to BinaryAdd
        3 => 0x00_00_00_00_00_00_00_00, // BinarySub to BinaryOr
        4 => 0x00_00_00_00_00_00_00_00, // BinaryXor to CompareLe
        5 => 0x00_00_00_00_00_00_00_00, // CompareGt to UnaryNeg
        6 => 0x00_00_00_00_00_00_00_00, // UnaryPos to InplaceMod
        7 => 0x03_03_00_00_00_00_00_00, // InplacePow to BuildTuple
        8 => 0x03_00_00_00_03_01_03_03, // BuildDict to DictMerge
        9 => 0x03_03_03_00_00_01_01_01, // ListAppend to StoreAttr
        10 => 0x06_01_0a_06_09_05_05_01, // CallFunction to CallAttrExtended
        11 => 0x06_04_00_04_04_04_04_04, // Jump to MakeFunction
        12 => 0x01_00_00_00_00_00_00_08, // MakeClosure to UnpackSequence
        13 => 0x01_01_03_00_07_03_00_05, // UnpackEx to SetExtend
        14 => 0x01_01_03_03_01_00_00_00, // BeforeWith to AssertFailed
        15 => 0x01_01_06_0b_0b_0b_03_00, // BuildCell to MatchClass
        16 => 0x0c_0c_0c_0c_0c_00_01_01, // MatchAttr to RaiseFrom
        _ => 0x0c_0c_0c_0c_0c_0c_0c_0c,
    }
}

// The number of an opcode's shape, or NO_SHAPE.
#[inline(always)]
pub fn shape_number(opcode: u8) -> u8
    ensures { result ≡ shape_no opcode }
{
    rows::number_in(word(opcode / 8), opcode % 8)
}

// An opcode's shape, or 1.
#[inline(always)]
pub fn operand_shape(opcode: u8) -> Result<Shape, Refusal>
    ensures { result ≡ shape_of opcode }
{
    let Ok(shape) = Shape::try_from(shape_number(opcode)) else {
        return Err(Refusal::UnknownOpcode);
    };
    Ok(shape)
}

// A shape's number in op.rs.
#[inline(always)]
pub fn number(shape: Shape) -> u8
    ensures { result ≡ shape_number shape }
{
    shape as u8
}

// An operand's shape, by its name in op.rs.
#[inline(always)]
pub fn of_operand(operand: Operand) -> Shape
    ensures { result ≡ operand_shape operand }
{
    Shape::from(operand)
}

impl From<Operand> for Shape {
    ghost from_gives = { λ operand shape. shape ≡ operand_shape operand };

    #[inline(always)]
    fn from(operand: Operand) -> Shape {
        match operand {
            Operand::None => Shape::None,
            Operand::U8(_) => Shape::U8,
            Operand::I8(_) => Shape::I8,
            Operand::U16(_) => Shape::U16,
            Operand::Offset(_) => Shape::Offset,
            Operand::U8U8(_, _) => Shape::U8U8,
            Operand::U16U8(_, _) => Shape::U16U8,
            Operand::U16U16(_, _) => Shape::U16U16,
            Operand::U16U8U8(_, _, _) => Shape::U16U8U8,
            Operand::CallKw { .. } => Shape::CallKw,
            Operand::CallAttrKw { .. } => Shape::CallAttrKw,
            Operand::U16U16U8(_, _, _) => Shape::U16U16U8,
        }
    }
}

// The sizes by the shapes' numbers, without keyword names: half a byte each, the first in the lowest.
const SIZES: u64 = 0x6535_5433_3221;

// How many bytes an instruction of a shape has, with so many keyword names. An arm for each shape would become a jump
// by a table, which no processor foresees in code whose shapes follow no pattern.
#[inline(always)]
pub fn instruction_size(shape: Shape, names: u8) -> usize
    ensures { result ≡ size_of shape names }
{
    let size = ((SIZES >> (4 * number(shape))) % 16) as usize;
    match shape {
        Shape::CallKw => size + 2 * names as usize,
        Shape::CallAttrKw => size + 2 * names as usize,
        _ => size,
    }
}
