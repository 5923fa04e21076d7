// How much there is room for, more than can be needed: docs/CASES.md, "Sizes". Text in bytes, the rest in words.
pub const TEXT_ROOM: usize = 1048577;

// How many numbers of a line stand before the words of the token list: MODE, EDITION, START, KEPT, DEFS, STMTS and ARGS.
pub const BEFORE_WORDS: usize = 7;

pub const TOKENS_ROOM: usize = 262148;

pub const NUMBERS_ROOM: usize = BEFORE_WORDS + TOKENS_ROOM;

pub const KEPT_ROOM: usize = 65544;

pub const DEFINITIONS_ROOM: usize = 393252;

pub const STATEMENTS_ROOM: usize = 524296;

pub const ARGUMENTS_ROOM: usize = 458759;
