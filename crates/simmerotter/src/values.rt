// The seven numbers of an entry's answer, as document 01 and request [10] give them, and the three of the lexer's, as request [4] gives them.
//
// All are widened by `as u64`: most are a `usize`, of which there is no `From`, and two forms in one list would be no plainer.
ghost use Rattle.std.specs.Prelude.{◌≡◌, [], ◌∷◌};
ghost use Rattle.tokens.specs.Name.{type_numbers};
ghost use Rattle.grammar.specs.Call.{refusal_of};
ghost use Rattle.files.specs.Call as file;
ghost use Rattle.statements.specs.Call as body;
ghost use Rattle.lexer.specs.Call as lexed;

use files::{FileError, FileRead};
use lexer::LexError;
use statements::{BodyError, BodyRead};
use tokens::number::{ANSWER_NUMBERS, LEXED_NUMBERS};
use tokens::{NameType, Refusal, number, type_numbers};

// A refusal at the door or of a table: it tells no type, and its counts are 0.
fn refusal(number: u32, cursor: usize) -> [u64; ANSWER_NUMBERS]
    ensures { result ≡ number ∷ cursor ∷ 0 ∷ 0 ∷ 0 ∷ 0 ∷ 0 ∷ [] }
{
    [number as u64, cursor as u64, 0, 0, 0, 0, 0]
}

// A refusal of the reading, with the type that it tells. The parameter and the function above both keep their name, `refusal`: edits that must fail say both.
fn refused(refusal: &Refusal, told: Option<NameType>) -> [u64; ANSWER_NUMBERS]
    ensures { result ≡ refusal_of refusal.now.0 refusal.now.1 (type_numbers told) }
{
    let (ty, size) = type_numbers(told);
    [
        refusal.number() as u64,
        refusal.at() as u64,
        0,
        0,
        0,
        ty as u64,
        size as u64,
    ]
}

// Accepted: the cursor and three counts.
fn accepted(cursor: usize, first: usize, second: usize, third: usize) -> [u64; ANSWER_NUMBERS]
    ensures { result ≡ 0 ∷ cursor ∷ first ∷ second ∷ third ∷ 0 ∷ 0 ∷ [] }
{
    [
        0,
        cursor as u64,
        first as u64,
        second as u64,
        third as u64,
        0,
        0,
    ]
}

// Of a file: number, cursor, definitions, statements, arguments, type, size.
pub fn file_values(answer: Result<FileRead, FileError>) -> [u64; ANSWER_NUMBERS]
    ensures { result ≡ file.values answer }
{
    match &answer {
        Ok(read) => accepted(
            read.cursor,
            read.definitions,
            read.statements,
            read.arguments,
        ),
        Err(FileError::UnknownMode) => refusal(number::UNKNOWN_MODE, 0),
        Err(FileError::NotWellFormed(at)) => refusal(number::NOT_WELL_FORMED, *at),
        Err(FileError::KeptTooShort(count)) => refusal(number::KEPT_TOO_SHORT, *count),
        Err(FileError::Refused(why, told)) => refused(why, *told),
        Err(FileError::DefinitionsTooSmall(need)) => refusal(number::DEFINITIONS_TOO_SMALL, *need),
        Err(FileError::StatementsTooSmall(need)) => refusal(number::STATEMENTS_TOO_SMALL, *need),
        Err(FileError::ArgumentsTooSmall(need)) => refusal(number::ARGUMENTS_TOO_SMALL, *need),
    }
}

// Of a body: number, cursor, statements, arguments, plain length, type, size.
pub fn body_values(answer: Result<BodyRead, BodyError>) -> [u64; ANSWER_NUMBERS]
    ensures { result ≡ body.values answer }
{
    match &answer {
        Ok(read) => accepted(
            read.cursor,
            read.statements,
            read.arguments,
            read.length.unwrap_or(number::NO_LENGTH),
        ),
        Err(BodyError::UnknownMode) => refusal(number::UNKNOWN_MODE, 0),
        Err(BodyError::UnknownEdition) => refusal(number::UNKNOWN_EDITION, 0),
        Err(BodyError::NotWellFormed(at)) => refusal(number::NOT_WELL_FORMED, *at),
        Err(BodyError::KeptTooShort(count)) => refusal(number::KEPT_TOO_SHORT, *count),
        Err(BodyError::StartOutside(at)) => refusal(number::START_OUTSIDE, *at),
        Err(BodyError::Refused(why, told)) => refused(why, *told),
        Err(BodyError::StatementsTooSmall(need)) => refusal(number::STATEMENTS_TOO_SMALL, *need),
        Err(BodyError::ArgumentsTooSmall(need)) => refusal(number::ARGUMENTS_TOO_SMALL, *need),
    }
}

// Of a text that is cut: number, cursor, tokens.
pub fn lexed_values(answer: Result<usize, LexError>) -> [u64; LEXED_NUMBERS]
    ensures { result ≡ lexed.values answer }
{
    match answer {
        Err(LexError::TextTooLong) => [number::TEXT_TOO_LONG as u64, 0, 0],
        Err(LexError::Refused(error, cursor)) => [error.number() as u64, cursor as u64, 0],
        Err(LexError::TokensTooShort(need)) => [number::TOKENS_TOO_SHORT as u64, need as u64, 0],
        Ok(count) => [0, 0, count as u64],
    }
}
