// Numbers of document 01 and of its change requests by name, but for the kinds of a token and for what is a public enum with these numbers (`Wrong`, `LexemeError`,
// `StatementType`, `DefinitionKind`). The enums `Form`, `Location` and `FunctionType` are inside their crates, and have their numbers from here, as who reads a record has. Other refusals, an answer's length, modes, editions, absent words of a record, widths and limits.

// Refusals of a call that reads nothing, or has no room. `simmerotter` alone writes them, into the answer that C lends. They stand here as in specs/Number, by which the door's
// definition (specs/Door) tells 30, 35 and 31.
pub const NOT_WELL_FORMED: u32 = 30;

pub const START_OUTSIDE: u32 = 31;

pub const DEFINITIONS_TOO_SMALL: u32 = 32;

pub const STATEMENTS_TOO_SMALL: u32 = 33;

pub const ARGUMENTS_TOO_SMALL: u32 = 34;

pub const KEPT_TOO_SHORT: u32 = 35;

pub const UNKNOWN_MODE: u32 = 36;

pub const UNKNOWN_EDITION: u32 = 38;

pub const TEXT_TOO_LONG: u32 = 39;

pub const TOKENS_TOO_SHORT: u32 = 43;

// How many numbers an answer has, and how many that of a text that is cut into tokens.
pub const ANSWER_NUMBERS: usize = 7;

pub const LEXED_NUMBERS: usize = 3;

// The modes of a call. Constants beside the enum `Mode` (statements): its `try_from` matches them, and `Mode::Strict as u32` is no pattern.
pub const MODE_LENIENT: u32 = 0;

pub const MODE_STRICT: u32 = 1;

// The types of a name; `NameType` has them with their sizes.
pub const TYPE_NONE: u32 = 0;

pub const TYPE_ADDRESS: u32 = 1;

pub const TYPE_BOOL: u32 = 2;

pub const TYPE_STRING: u32 = 3;

pub const TYPE_BYTES: u32 = 4;

pub const TYPE_UINT: u32 = 5;

pub const TYPE_INT: u32 = 6;

pub const TYPE_BYTES_N: u32 = 7;

// The sizes of a type: the most bits of uint and int, which are also those of the bare ones, and the step between two; the most bytes of bytesN.
pub const WIDEST_BITS: usize = 256;

pub const BITS_STEP: usize = 8;

pub const WIDEST_BYTES: usize = 32;

// The editions of the plain length: constants beside the enum `Edition` (statements), as the modes are.
pub const EDITION_FIRST: u32 = 1;

pub const EDITION_SECOND: u32 = 2;

// A function's type, as A of its record has it.
pub const FUNCTION_VIEW: u32 = 1;

pub const FUNCTION_PURE: u32 = 2;

pub const FUNCTION_PAYABLE: u32 = 3;

pub const FUNCTION_NON_PAYABLE: u32 = 4;

// What a constant's value is. Constants, since `ConstVal` (definitions) holds a place in each variant, so none of it can be written out by `as u32`.
pub const VALUE_LITERAL: u32 = 1;

pub const VALUE_POINTER: u32 = 2;

// The forms of an argument, as its record has them.
pub const ARGUMENT_NAME: u32 = 1;

pub const ARGUMENT_STRING: u32 = 2;

pub const ARGUMENT_LITERAL: u32 = 3;

pub const ARGUMENT_CALL_LITERAL: u32 = 4;

pub const ARGUMENT_CALL_NAME: u32 = 5;

pub const ARGUMENT_CALL_ANGLED: u32 = 6;

// An argument's location.
pub const LOCATION_NONE: u32 = 0;

pub const LOCATION_CALLDATA: u32 = 1;

pub const LOCATION_MEMORY: u32 = 2;

pub const LOCATION_STORAGE: u32 = 3;

// What absent places hold, and the plain length of a body that has none.
pub const NONE: u32 = u32::MAX;

pub const NO_LENGTH: usize = NONE as usize;

// The words of a token and of each record.
pub const TOKEN_WIDTH: usize = 4;

pub const DEFINITION_WIDTH: usize = 14;

pub const STATEMENT_WIDTH: usize = 8;

pub const ARGUMENT_WIDTH: usize = 7;

// The most bytes a text may have, and the most tokens a list.
pub const MOST_BYTES: usize = 1048576;

pub const MOST_TOKENS: usize = 65536;

// The largest opcode byte.
pub const MOST_BYTE: u32 = 255;

// The most bytes of a literal, and the largest number.
pub const LONGEST_LITERAL: usize = 66;

pub const MOST_NUMBER: u32 = u32::MAX;
