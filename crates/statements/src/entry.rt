// The entry for one body.
ghost use Rattle.std.specs.Prelude.{◌≡◌, length, replicate};
ghost use Rattle.tokens.specs.Place.{Place};
ghost use Rattle.grammar.specs.Rules.{asks};
ghost use Rattle.statements.specs.Length.{length_from, length_told};
ghost use Rattle.statements.specs.Call.{BodyCall};
ghost use Rattle.statements.specs.Settled.{Settled, BodyTaken};
ghost use Rattle.tokens.specs.Source.{all};

use crate::body::{cursor_of, is_long, named_once, named_once_long, parse_body};
use crate::choice::{Edition, Mode, UnknownEdition, UnknownMode};
use crate::item::Progress;
use crate::length::plain_length;
use lists::Before;
use tokens::{NameType, Refusal, Source, Unready, clear, clear_behind, number, prepare, type_told};

// What a body call reads: the cursor behind the body, its statements and arguments, and its plain length, if it has one.
#[derive(Clone, Copy, Debug, PartialEq, Eq)]
pub struct BodyRead {
    pub cursor: usize,
    pub statements: usize,
    pub arguments: usize,
    pub length: Option<usize>,
}

// Why it reads none. What the door says is written out, and no variant `Door(Unready)`: `at_door`, `values` and `Own` (specs/Call) go by these. It is
// not compared, as the `Refusal` in it is not.
#[derive(Drop)]
pub enum BodyError {
    // 36 and 38: there is no such mode, no such edition.
    UnknownMode,
    UnknownEdition,
    // 30, 35 and 31, at the door.
    NotWellFormed(usize),
    KeptTooShort(usize),
    StartOutside(usize),
    // 1 to 13 and 22; for 7 the type of the token at its cursor.
    Refused(Refusal, Option<NameType>),
    // 33 and 34: the records needed.
    StatementsTooSmall(usize),
    ArgumentsTooSmall(usize),
}

// `?` in `read_body` makes this error of the three others. `FileError` (files) has two such impls of its own, being another type.
impl From<UnknownMode> for BodyError {
    ghost use Rattle.statements.specs.declared.entry.BodyError.TheVariants as errors;

    ghost from_gives = { λ _ e. e ≡ errors.UnknownMode };

    fn from(_error: UnknownMode) -> BodyError {
        BodyError::UnknownMode
    }
}

impl From<UnknownEdition> for BodyError {
    ghost use Rattle.statements.specs.declared.entry.BodyError.TheVariants as errors;

    ghost from_gives = { λ _ e. e ≡ errors.UnknownEdition };

    fn from(_error: UnknownEdition) -> BodyError {
        BodyError::UnknownEdition
    }
}

impl From<Unready> for BodyError {
    ghost use Rattle.statements.specs.Call.{at_door};

    ghost from_gives = { λ error e. e ≡ at_door error };

    fn from(error: Unready) -> BodyError {
        match error {
            Unready::NotWellFormed(at) => BodyError::NotWellFormed(at),
            Unready::KeptTooShort(count) => BodyError::KeptTooShort(count),
            Unready::StartOutside(start) => BodyError::StartOutside(start),
        }
    }
}

// Both tables zero: no records.
fn clear_both(statements: &mut [u32], arguments: &mut [u32])
    ensures { (statements.new ≡ replicate (length statements.old) 0) × (arguments.new ≡ replicate (length arguments.old) 0) }
{
    clear(statements);
    clear(arguments);
}

// The answer for what was read: only input that is otherwise accepted has a table called small. After every refusal both tables are zero, and else what stands
// behind the records; what is in front was written with them, so it need not be cleared before. Each way out clears for itself: a function that only chooses the answer, with one
// clearing behind it, would be no plainer, since its clause would have to tell the answers apart once more.
fn settle(
    source: &Source,
    short: bool,
    start: usize,
    read: Result<Progress, Refusal>,
    statements: &mut [u32],
    arguments: &mut [u32],
) -> Result<BodyRead, BodyError>
    requires { Place source.now.tokens.now source.now.kept.now start }
    ensures { Settled (all source.now) read
        (length_told (length_from short (all source.now) start))
        statements.old arguments.old result statements.new arguments.new }
{
    match read {
        Err(refusal) => {
            clear_both(statements, arguments);
            let at = refusal.at();
            let told = type_told(source, refusal.number(), at);
            Err(BodyError::Refused(refusal, told))
        }
        Ok(t) => {
            let m = t.statements;
            let n = t.arguments;
            if statements.len() / number::STATEMENT_WIDTH < m {
                clear_both(statements, arguments);
                return Err(BodyError::StatementsTooSmall(m));
            }
            if arguments.len() / number::ARGUMENT_WIDTH < n {
                clear_both(statements, arguments);
                return Err(BodyError::ArgumentsTooSmall(n));
            }
            clear_behind(statements, m, number::STATEMENT_WIDTH);
            clear_behind(arguments, n, number::ARGUMENT_WIDTH);
            Ok(BodyRead {
                cursor: t.at,
                statements: m,
                arguments: n,
                length: plain_length(source, short, start),
            })
        }
    }
}

// The body from a start of the kept list. From here on `strict` and `short`, and no `Mode` and `Edition`: the grammar's rule sets are made of the one (`asks strict`, Rules), as
// clauses of three crates say, and its lengths take the other (`literal_bytes`, PlainLength).
fn reading(
    source: &Source,
    strict: bool,
    short: bool,
    start: usize,
    statements: &mut [u32],
    arguments: &mut [u32],
) -> Result<BodyRead, BodyError>
    requires { Place source.now.tokens.now source.now.kept.now start }
    ensures { BodyTaken (asks strict) short (all source.now) start statements.old arguments.old result statements.new arguments.new }
{
    let s = Progress {
        at: start,
        statements: 0,
        arguments: 0,
    };
    let none = Before {
        statements: 0,
        arguments: 0,
    };
    let body = parse_body(source, strict, s, statements, arguments, none);
    let end = cursor_of(&body);
    let read = if !strict {
        body
    } else if is_long(start, end) {
        named_once_long(source, start, end).and(body)
    } else {
        named_once(source, start, end).and(body)
    };
    settle(source, short, start, read, statements, arguments)
}

// Reads one body from place `start` of the kept tokens, strictly if the mode is 1, and measures it in an edition. Mode, edition and everything lent are tested first; only then
// the kept list is written, and the tables.
pub fn read_body(
    mode: u32,
    edition: u32,
    text: &[u8],
    tokens: &[u32],
    start: usize,
    kept: &mut [u32],
    statements: &mut [u32],
    arguments: &mut [u32],
) -> Result<BodyRead, BodyError>
    ensures { BodyCall mode edition text.now tokens.now start kept.old statements.old arguments.old result kept.new statements.new arguments.new }
{
    let mode = Mode::try_from(mode)?;
    let edition = Edition::try_from(edition)?;
    let count = prepare(text, tokens, start, kept)?;
    let source = Source {
        text,
        tokens,
        kept: &kept[0..count],
    };
    reading(
        &source,
        mode.is_strict(),
        edition.is_second(),
        start,
        statements,
        arguments,
    )
}
