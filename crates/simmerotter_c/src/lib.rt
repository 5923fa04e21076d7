// The three functions of `simmerotter` under C's calling convention: a crate is a library for Rattle or an archive for C, so the exports stand in a crate of their own, each
// with the promise of the function that it calls. Numbers pass as themselves, a slice as its pointer and its length in elements, the answer's array as its pointer.
// `bindings/c/simmerotter.h` and `bindings/rust` declare the two that read tokens; the lexer is not declared there yet.
#![tactic(auto)]

ghost use Rattle.simmerotter.specs.Answered.{LexAnswered, FileAnswered, BodyAnswered};

use tokens::number::{ANSWER_NUMBERS, LEXED_NUMBERS};

// Cuts a text into tokens.
#[unsafe(no_mangle)]
pub extern "C" fn simmerotter_lex(
    text: &[u8],
    tokens: &mut [u32],
    answer: &mut [u64; LEXED_NUMBERS],
)
    ensures { LexAnswered text.now tokens.old answer.new tokens.new }
{
    simmerotter::simmerotter_lex(text, tokens, answer);
}

// Reads a whole file in a mode.
#[unsafe(no_mangle)]
pub extern "C" fn simmerotter_read_file(
    mode: u32,
    text: &[u8],
    tokens: &[u32],
    kept: &mut [u32],
    definitions: &mut [u32],
    statements: &mut [u32],
    arguments: &mut [u32],
    answer: &mut [u64; ANSWER_NUMBERS],
)
    ensures { FileAnswered mode text.now tokens.now kept.old definitions.old statements.old
        arguments.old answer.new kept.new definitions.new statements.new arguments.new }
{
    simmerotter::simmerotter_read_file(
        mode,
        text,
        tokens,
        kept,
        definitions,
        statements,
        arguments,
        answer,
    );
}

// Reads one body in a mode from place `start` of the kept tokens, and measures it in an edition.
#[unsafe(no_mangle)]
pub extern "C" fn simmerotter_read_body(
    mode: u32,
    edition: u32,
    text: &[u8],
    tokens: &[u32],
    start: usize,
    kept: &mut [u32],
    statements: &mut [u32],
    arguments: &mut [u32],
    answer: &mut [u64; ANSWER_NUMBERS],
)
    ensures { BodyAnswered mode edition text.now tokens.now start kept.old statements.old arguments.old
        answer.new kept.new statements.new arguments.new }
{
    simmerotter::simmerotter_read_body(
        mode, edition, text, tokens, start, kept, statements, arguments, answer,
    );
}
