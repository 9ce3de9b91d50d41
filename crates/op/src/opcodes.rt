// The opcodes, by their numbers.
ghost use Rattle.std.specs.Prelude.{◌≡◌};
ghost use Rattle.op.specs.Opcodes.{opcode_numbers};

pub const POP: u8 = 0;

pub const DUP: u8 = 1;

pub const ROT2: u8 = 2;

pub const ROT3: u8 = 3;

pub const LOAD_CONST: u8 = 4;

pub const LOAD_NONE: u8 = 5;

pub const LOAD_TRUE: u8 = 6;

pub const LOAD_FALSE: u8 = 7;

pub const LOAD_SMALL_INT: u8 = 8;

pub const LOAD_LOCAL0: u8 = 9;

pub const LOAD_LOCAL1: u8 = 10;

pub const LOAD_LOCAL2: u8 = 11;

pub const LOAD_LOCAL3: u8 = 12;

pub const LOAD_LOCAL: u8 = 13;

pub const LOAD_LOCAL_W: u8 = 14;

pub const STORE_LOCAL: u8 = 15;

pub const STORE_LOCAL_W: u8 = 16;

pub const LOAD_GLOBAL: u8 = 17;

pub const STORE_GLOBAL: u8 = 18;

pub const LOAD_CELL: u8 = 19;

pub const STORE_CELL: u8 = 20;

pub const DELETE_LOCAL: u8 = 21;

pub const LOAD_GLOBAL_CALLABLE: u8 = 22;

pub const BINARY_ADD: u8 = 23;

pub const BINARY_SUB: u8 = 24;

pub const BINARY_MUL: u8 = 25;

pub const BINARY_DIV: u8 = 26;

pub const BINARY_FLOOR_DIV: u8 = 27;

pub const BINARY_MOD: u8 = 28;

pub const BINARY_POW: u8 = 29;

pub const BINARY_AND: u8 = 30;

pub const BINARY_OR: u8 = 31;

pub const BINARY_XOR: u8 = 32;

pub const BINARY_LSHIFT: u8 = 33;

pub const BINARY_RSHIFT: u8 = 34;

pub const BINARY_MAT_MUL: u8 = 35;

pub const COMPARE_EQ: u8 = 36;

pub const COMPARE_NE: u8 = 37;

pub const COMPARE_LT: u8 = 38;

pub const COMPARE_LE: u8 = 39;

pub const COMPARE_GT: u8 = 40;

pub const COMPARE_GE: u8 = 41;

pub const COMPARE_IS: u8 = 42;

pub const COMPARE_IS_NOT: u8 = 43;

pub const COMPARE_IN: u8 = 44;

pub const COMPARE_NOT_IN: u8 = 45;

pub const UNARY_NOT: u8 = 46;

pub const UNARY_NEG: u8 = 47;

pub const UNARY_POS: u8 = 48;

pub const UNARY_INVERT: u8 = 49;

pub const INPLACE_ADD: u8 = 50;

pub const INPLACE_SUB: u8 = 51;

pub const INPLACE_MUL: u8 = 52;

pub const INPLACE_DIV: u8 = 53;

pub const INPLACE_FLOOR_DIV: u8 = 54;

pub const INPLACE_MOD: u8 = 55;

pub const INPLACE_POW: u8 = 56;

pub const INPLACE_AND: u8 = 57;

pub const INPLACE_OR: u8 = 58;

pub const INPLACE_XOR: u8 = 59;

pub const INPLACE_LSHIFT: u8 = 60;

pub const INPLACE_RSHIFT: u8 = 61;

pub const BUILD_LIST: u8 = 62;

pub const BUILD_TUPLE: u8 = 63;

pub const BUILD_DICT: u8 = 64;

pub const BUILD_SET: u8 = 65;

pub const FORMAT_VALUE: u8 = 66;

pub const BUILD_FSTRING: u8 = 67;

pub const BUILD_SLICE: u8 = 68;

pub const LIST_EXTEND: u8 = 69;

pub const LIST_TO_TUPLE: u8 = 70;

pub const DICT_MERGE: u8 = 71;

pub const LIST_APPEND: u8 = 72;

pub const SET_ADD: u8 = 73;

pub const DICT_SET_ITEM: u8 = 74;

pub const BINARY_SUBSCR: u8 = 75;

pub const STORE_SUBSCR: u8 = 76;

pub const LOAD_ATTR: u8 = 77;

pub const LOAD_ATTR_IMPORT: u8 = 78;

pub const STORE_ATTR: u8 = 79;

pub const CALL_FUNCTION: u8 = 80;

pub const CALL_BUILTIN_FUNCTION: u8 = 81;

pub const CALL_BUILTIN_TYPE: u8 = 82;

pub const CALL_FUNCTION_KW: u8 = 83;

pub const CALL_ATTR: u8 = 84;

pub const CALL_ATTR_KW: u8 = 85;

pub const CALL_FUNCTION_EXTENDED: u8 = 86;

pub const CALL_ATTR_EXTENDED: u8 = 87;

pub const JUMP: u8 = 88;

pub const JUMP_IF_TRUE: u8 = 89;

pub const JUMP_IF_FALSE: u8 = 90;

pub const JUMP_IF_TRUE_OR_POP: u8 = 91;

pub const JUMP_IF_FALSE_OR_POP: u8 = 92;

pub const GET_ITER: u8 = 93;

pub const FOR_ITER: u8 = 94;

pub const MAKE_FUNCTION: u8 = 95;

pub const MAKE_CLOSURE: u8 = 96;

pub const RAISE: u8 = 97;

pub const RERAISE: u8 = 98;

pub const CLEAR_EXCEPTION: u8 = 99;

pub const CHECK_EXC_MATCH: u8 = 100;

pub const RETURN_VALUE: u8 = 101;

pub const AWAIT: u8 = 102;

pub const UNPACK_SEQUENCE: u8 = 103;

pub const UNPACK_EX: u8 = 104;

pub const NOP: u8 = 105;

pub const LOAD_MODULE: u8 = 106;

pub const LOAD_SUBMODULE: u8 = 107;

pub const DUP2: u8 = 108;

pub const DELETE_GLOBAL: u8 = 109;

pub const DICT_UPDATE: u8 = 110;

pub const SET_EXTEND: u8 = 111;

pub const BEFORE_WITH: u8 = 112;

pub const WITH_EXIT: u8 = 113;

pub const WITH_EXCEPT_START: u8 = 114;

pub const LIFT_TO_TOP: u8 = 115;

pub const RAISE_UNBOUND_LOCAL: u8 = 116;

pub const METHOD_DICT_MERGE: u8 = 117;

pub const ASSERT: u8 = 118;

pub const ASSERT_FAILED: u8 = 119;

pub const BUILD_CELL: u8 = 120;

pub const DELETE_CELL: u8 = 121;

pub const LOAD_NAME: u8 = 122;

pub const STORE_NAME: u8 = 123;

pub const DELETE_NAME: u8 = 124;

pub const MATCH_SHAPE: u8 = 125;

pub const MATCH_KEYS: u8 = 126;

pub const MATCH_CLASS: u8 = 127;

pub const MATCH_ATTR: u8 = 128;

pub const SINK_TOP: u8 = 129;

pub const RAISE_FROM: u8 = 130;

// The last opcode: a number above it is none.
pub const LAST: u8 = RAISE_FROM;

// All of them in the order of `enum Opcode` in op.rs: a name that stood for another number would stand out of order
// here.
pub fn all() -> [u8; 131]
    ensures { result ≡ opcode_numbers }
{
    [
        POP,
        DUP,
        ROT2,
        ROT3,
        LOAD_CONST,
        LOAD_NONE,
        LOAD_TRUE,
        LOAD_FALSE,
        LOAD_SMALL_INT,
        LOAD_LOCAL0,
        LOAD_LOCAL1,
        LOAD_LOCAL2,
        LOAD_LOCAL3,
        LOAD_LOCAL,
        LOAD_LOCAL_W,
        STORE_LOCAL,
        STORE_LOCAL_W,
        LOAD_GLOBAL,
        STORE_GLOBAL,
        LOAD_CELL,
        STORE_CELL,
        DELETE_LOCAL,
        LOAD_GLOBAL_CALLABLE,
        BINARY_ADD,
        BINARY_SUB,
        BINARY_MUL,
        BINARY_DIV,
        BINARY_FLOOR_DIV,
        BINARY_MOD,
        BINARY_POW,
        BINARY_AND,
        BINARY_OR,
        BINARY_XOR,
        BINARY_LSHIFT,
        BINARY_RSHIFT,
        BINARY_MAT_MUL,
        COMPARE_EQ,
        COMPARE_NE,
        COMPARE_LT,
        COMPARE_LE,
        COMPARE_GT,
        COMPARE_GE,
        COMPARE_IS,
        COMPARE_IS_NOT,
        COMPARE_IN,
        COMPARE_NOT_IN,
        UNARY_NOT,
        UNARY_NEG,
        UNARY_POS,
        UNARY_INVERT,
        INPLACE_ADD,
        INPLACE_SUB,
        INPLACE_MUL,
        INPLACE_DIV,
        INPLACE_FLOOR_DIV,
        INPLACE_MOD,
        INPLACE_POW,
        INPLACE_AND,
        INPLACE_OR,
        INPLACE_XOR,
        INPLACE_LSHIFT,
        INPLACE_RSHIFT,
        BUILD_LIST,
        BUILD_TUPLE,
        BUILD_DICT,
        BUILD_SET,
        FORMAT_VALUE,
        BUILD_FSTRING,
        BUILD_SLICE,
        LIST_EXTEND,
        LIST_TO_TUPLE,
        DICT_MERGE,
        LIST_APPEND,
        SET_ADD,
        DICT_SET_ITEM,
        BINARY_SUBSCR,
        STORE_SUBSCR,
        LOAD_ATTR,
        LOAD_ATTR_IMPORT,
        STORE_ATTR,
        CALL_FUNCTION,
        CALL_BUILTIN_FUNCTION,
        CALL_BUILTIN_TYPE,
        CALL_FUNCTION_KW,
        CALL_ATTR,
        CALL_ATTR_KW,
        CALL_FUNCTION_EXTENDED,
        CALL_ATTR_EXTENDED,
        JUMP,
        JUMP_IF_TRUE,
        JUMP_IF_FALSE,
        JUMP_IF_TRUE_OR_POP,
        JUMP_IF_FALSE_OR_POP,
        GET_ITER,
        FOR_ITER,
        MAKE_FUNCTION,
        MAKE_CLOSURE,
        RAISE,
        RERAISE,
        CLEAR_EXCEPTION,
        CHECK_EXC_MATCH,
        RETURN_VALUE,
        AWAIT,
        UNPACK_SEQUENCE,
        UNPACK_EX,
        NOP,
        LOAD_MODULE,
        LOAD_SUBMODULE,
        DUP2,
        DELETE_GLOBAL,
        DICT_UPDATE,
        SET_EXTEND,
        BEFORE_WITH,
        WITH_EXIT,
        WITH_EXCEPT_START,
        LIFT_TO_TOP,
        RAISE_UNBOUND_LOCAL,
        METHOD_DICT_MERGE,
        ASSERT,
        ASSERT_FAILED,
        BUILD_CELL,
        DELETE_CELL,
        LOAD_NAME,
        STORE_NAME,
        DELETE_NAME,
        MATCH_SHAPE,
        MATCH_KEYS,
        MATCH_CLASS,
        MATCH_ATTR,
        SINK_TOP,
        RAISE_FROM,
    ]
}
