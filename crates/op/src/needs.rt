// How many values an opcode needs on the stack, which strict mode asks for.
ghost use Rattle.std.specs.Prelude.{◌≡◌, get_or};
ghost use Rattle.op.specs.Needs.{need_of};
ghost use Rattle.op.specs.Inner.{need_words, no_needs};

use crate::rows;

// The row of needs, eight opcodes a word.
fn word(eight: u8) -> u64
    ensures { result ≡ get_or need_words eight no_needs }
{
    match eight {
        0 => 0x00_00_00_00_03_02_01_00, // Pop to LoadFalse
        1 => 0x00_00_00_00_00_00_00_00, // LoadSmallInt to StoreLocal
        2 => 0x02_00_00_00_00_00_00_00, // StoreLocalW to BinaryAdd
        3 => 0x02_02_02_02_02_02_02_02, // BinarySub to BinaryOr
        4 => 0x02_02_02_02_02_02_02_02, // BinaryXor to CompareLe
        5 => 0x01_01_02_02_02_02_02_02, // CompareGt to UnaryNeg
        6 => 0x02_02_02_02_02_02_01_01, // UnaryPos to InplaceMod
        7 => 0x00_00_02_02_02_02_02_02, // InplacePow to BuildTuple
        8 => 0x00_00_00_00_00_00_00_00, // BuildDict to DictMerge
        9 => 0x00_00_00_00_02_00_00_00, // ListAppend to StoreAttr
        10 => 0x00_00_00_00_00_00_00_00, // CallFunction to CallAttrExtended
        11 => 0x00_00_00_00_00_00_00_00, // Jump to MakeFunction
        12 => 0x00_00_00_00_00_00_00_00, // MakeClosure to UnpackSequence
        13 => 0x00_00_00_02_00_00_00_00, // UnpackEx to SetExtend
        14 => 0x00_00_00_00_00_00_00_00, // BeforeWith to AssertFailed
        15 => 0x00_00_00_00_00_00_00_00, // BuildCell to MatchClass
        16 => 0x00_00_00_00_00_00_00_00, // MatchAttr to RaiseFrom
        _ => 0x00_00_00_00_00_00_00_00,
    }
}

// An opcode's need; none of a number that is no opcode's.
pub fn need(opcode: u8) -> u8
    ensures { result ≡ need_of opcode }
{
    rows::number_in(word(opcode / 8), opcode % 8)
}
