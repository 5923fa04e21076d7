// The kinds of a token, by name: what stands in the first of its four words. Numbers and no enum: C lends the list, and an enum would have to be made of its word at each look.
pub const EOF: u32 = 0;

pub const WHITESPACE: u32 = 1;

pub const COMMENT: u32 = 2;

pub const INCLUDE: u32 = 3;

pub const DEFINE: u32 = 4;

pub const POUND: u32 = 5;

pub const MACRO: u32 = 6;

pub const FN: u32 = 7;

pub const TEST: u32 = 8;

pub const FUNCTION: u32 = 9;

pub const EVENT: u32 = 10;

pub const CONSTANT: u32 = 11;

pub const ERROR: u32 = 12;

pub const JUMP_TABLE: u32 = 13;

pub const JUMP_TABLE_PACKED: u32 = 14;

pub const CODE_TABLE: u32 = 15;

pub const TAKES: u32 = 16;

pub const RETURNS: u32 = 17;

pub const VIEW: u32 = 18;

pub const PURE: u32 = 19;

pub const PAYABLE: u32 = 20;

pub const NON_PAYABLE: u32 = 21;

pub const INDEXED: u32 = 22;

pub const CALLDATA: u32 = 23;

pub const MEMORY: u32 = 24;

pub const STORAGE: u32 = 25;

pub const ASSIGN: u32 = 26;

pub const OPEN_PAREN: u32 = 27;

pub const CLOSE_PAREN: u32 = 28;

pub const OPEN_BRACE: u32 = 29;

pub const CLOSE_BRACE: u32 = 30;

pub const OPEN_BRACKET: u32 = 31;

pub const CLOSE_BRACKET: u32 = 32;

pub const LEFT_ANGLE: u32 = 33;

pub const RIGHT_ANGLE: u32 = 34;

pub const COMMA: u32 = 35;

pub const COLON: u32 = 36;

pub const FREE_STORAGE_POINTER: u32 = 37;

pub const IDENT: u32 = 38;

pub const LABEL: u32 = 39;

pub const LITERAL: u32 = 40;

pub const OPCODE: u32 = 41;

pub const NUM: u32 = 42;

pub const STR: u32 = 43;

pub const BUILTIN_FUNCTION: u32 = 44;

pub const PRIMITIVE_TYPE: u32 = 45;

// How many kinds there are: a number is a known kind exactly if it is less.
pub const KINDS: u32 = 46;
