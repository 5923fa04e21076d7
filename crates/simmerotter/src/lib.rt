// The library for programs in other languages: both entries and the lexer, their answers as numbers in an array that the caller lends. `simmerotter_c` exports these three
// functions under C's calling convention; the program `cases` calls them here. What is lent comes one slice beside the other, as C lends it.
#![tactic(auto)]

mod values;

ghost use Rattle.simmerotter.specs.Answered.{LexAnswered, FileAnswered, BodyAnswered};

use tokens::number::{ANSWER_NUMBERS, LEXED_NUMBERS};
use values::{body_values, file_values, lexed_values};

// Cuts a text into tokens: `lexer::lex`, its answer as number, cursor, tokens.
pub fn simmerotter_lex(text: &[u8], tokens: &mut [u32], answer: &mut [u64; LEXED_NUMBERS])
    ensures { LexAnswered text.now tokens.old answer.new tokens.new }
{
    let lexed = lexer::lex(text, tokens);
    *answer = lexed_values(lexed);
}

// Reads a whole file in a mode, 0 or 1: `files::read_file`, its answer as number, cursor, definitions, statements, arguments, type, size.
pub fn simmerotter_read_file(
    mode: u32,
    text: &[u8],
    tokens: &[u32],
    kept: &mut [u32],
    definitions: &mut [u32],
    statements: &mut [u32],
    arguments: &mut [u32],
    answer: &mut [u64; ANSWER_NUMBERS],
)
    ensures { FileAnswered mode text.now tokens.now kept.old definitions.old statements.old
        arguments.old answer.new kept.new definitions.new statements.new arguments.new }
{
    let read = files::read_file(mode, text, tokens, kept, definitions, statements, arguments);
    *answer = file_values(read);
}

// Reads one body in a mode from place `start` of the kept tokens, and measures it in an edition, 1 or 2: `statements::read_body`, its answer as number, cursor, statements,
// arguments, plain length, type, size.
pub fn simmerotter_read_body(
    mode: u32,
    edition: u32,
    text: &[u8],
    tokens: &[u32],
    start: usize,
    kept: &mut [u32],
    statements: &mut [u32],
    arguments: &mut [u32],
    answer: &mut [u64; ANSWER_NUMBERS],
)
    ensures { BodyAnswered mode edition text.now tokens.now start kept.old statements.old arguments.old
        answer.new kept.new statements.new arguments.new }
{
    let read = statements::read_body(
        mode, edition, text, tokens, start, kept, statements, arguments,
    );
    *answer = body_values(read);
}
