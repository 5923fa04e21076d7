// The file: definitions up to Eof.
ghost use Rattle.std.specs.Prelude.{◌*◌, ◌≤◌, [], true};
ghost use Rattle.tokens.specs.Number.{most_tokens};
ghost use Rattle.tokens.specs.Token.{positions};
ghost use Rattle.grammar.specs.Rules.{asks};
ghost use Rattle.grammar.specs.FileReader as reader;
ghost use Rattle.tokens.specs.Place.{FromDoor};
ghost use Rattle.files.specs.Answers.{behind, Readable, FileParsed};
ghost use Rattle.names.specs.Remembered.{seen};
ghost use Rattle.definitions.specs.Answers.{Reading, DefAdded};
ghost use Rattle.tokens.specs.Source.{all, all_from, count};

use definitions::{DefRead, read_definition};
use lists::Before;
use names::Remembered;
use tokens::{Refusal, Source, Wrong, kind, number, start_of};

// Room for names by the number of tokens: what is made anew for each call should cost no more than the reading. With the largest room alone a file of 60 tokens takes
// some five times as long, and one of 2,000 tokens up to 27 in 100 longer. A name for every eight tokens, which is what the shortest macro takes. `names` has constants of
// these names for a body's labels, with numbers of its own.
const FEW_TOKENS: usize = 1536;

const FEW_NAMES: usize = 192;

const FEW_BUCKETS: usize = 256;

const SOME_TOKENS: usize = 12288;

const SOME_NAMES: usize = 1536;

const SOME_BUCKETS: usize = 2048;

const MANY_NAMES: usize = 8192;

const MANY_BUCKETS: usize = 8192;

// The place of Eof, and how many records there are of each kind. While a file is read, the place of what is next, and the records so far.
#[derive(Clone, Copy, Debug, PartialEq, Eq)]
pub struct FileRead {
    pub cursor: usize,
    pub definitions: usize,
    pub statements: usize,
    pub arguments: usize,
}

// The definition behind what is read. Its reader is lent only what is still free of each table.
//
// `strict`, here and below, and no `Mode`: the rules take the flag (`asks strict`), and a reader asks yes or no. `FromDoor`, below, is asked in clauses and is not in
// `Source`, which can be made of a list that no door wrote (docs/DECISIONS.md, the design pass).
fn next_definition(
    source: &Source,
    strict: bool,
    definitions: &mut [u32],
    statements: &mut [u32],
    arguments: &mut [u32],
    read: FileRead,
) -> Result<DefRead, Refusal>
    requires { Reading source.now.tokens.now source.now.kept.now read.cursor read.cursor (behind read) }
    ensures { DefAdded (all source.now) (positions source.now.tokens.now source.now.kept.now) read.cursor (behind read) (count source.now)
        (reader.top_level (asks strict) read.cursor (all_from source.now read.cursor)) read.definitions read.statements read.arguments
        definitions.old statements.old arguments.old result
        definitions.new statements.new arguments.new }
{
    let definitions_from = start_of(
        definitions.len(),
        read.definitions,
        number::DEFINITION_WIDTH,
    );
    let statements_from = start_of(statements.len(), read.statements, number::STATEMENT_WIDTH);
    let arguments_from = start_of(arguments.len(), read.arguments, number::ARGUMENT_WIDTH);
    let before = Before {
        statements: read.statements,
        arguments: read.arguments,
    };
    read_definition(
        source,
        strict,
        read.cursor,
        &mut definitions[definitions_from..],
        &mut statements[statements_from..],
        &mut arguments[arguments_from..],
        before,
    )
}

// Definitions up to Eof. `names` has room for the names of macros, fns and tests.
fn parse(
    source: &Source,
    strict: bool,
    definitions: &mut [u32],
    statements: &mut [u32],
    arguments: &mut [u32],
    names: &mut Remembered,
) -> Result<FileRead, Refusal>
    requires { Readable source.now.text.now source.now.tokens.now source.now.kept.now (seen names.old) }
    ensures { FileParsed (positions source.now.tokens.now source.now.kept.now) (reader.parse (asks strict) true [] 0 (all source.now))
        definitions.old statements.old arguments.old result
        definitions.new statements.new arguments.new }
{
    let mut read = FileRead {
        cursor: 0,
        definitions: 0,
        statements: 0,
        arguments: 0,
    };
    // counts nothing by hand: each turn goes on to where a definition ended, and both ends are at Eof
    loop {
        if source.kind_at(read.cursor) == kind::EOF {
            if read.cursor < source.kept.len() {
                return Ok(read);
            }
            // no Eof ends the list
            return Err(Refusal::new(Wrong::UnexpectedType, read.cursor));
        }
        let next = next_definition(source, strict, definitions, statements, arguments, read)?;
        let found = next.definition;
        read = FileRead {
            cursor: found.end as usize,
            definitions: read.definitions + 1,
            statements: read.statements + found.statements as usize,
            arguments: read.arguments + next.arguments,
        };
        if found.kind.is_named() && names.check_duplicate(found.name as usize) {
            return Err(Refusal::new(Wrong::DuplicateMacro, found.name as usize));
        }
    }
}

// The same with its own room for as many names, each of which takes at least eight tokens. The loop is lent that room, and not here, so that it is there once. The three
// arrays as in `walk_with` (names), which says why no struct.
fn parse_with<const NAMES: usize, const BUCKETS: usize>(
    source: &Source,
    strict: bool,
    definitions: &mut [u32],
    statements: &mut [u32],
    arguments: &mut [u32],
) -> Result<FileRead, Refusal>
    requires list { FromDoor source.now.tokens.now source.now.kept.now }
    requires names { (count source.now ≤ 8 * NAMES) × (NAMES ≤ most_tokens) }
    requires buckets { (1 ≤ BUCKETS) × (BUCKETS ≤ most_tokens) }
    ensures { FileParsed (positions source.now.tokens.now source.now.kept.now) (reader.parse (asks strict) true [] 0 (all source.now))
        definitions.old statements.old arguments.old result
        definitions.new statements.new arguments.new }
{
    let mut heads = [0; BUCKETS];
    let mut next = [0; NAMES];
    let mut places = [0; NAMES];
    let mut names = Remembered::new(source, &mut heads, &mut next, &mut places);
    parse(
        source,
        strict,
        definitions,
        statements,
        arguments,
        &mut names,
    )
}

// With room by the number of tokens.
pub fn read_definitions(
    source: &Source,
    strict: bool,
    definitions: &mut [u32],
    statements: &mut [u32],
    arguments: &mut [u32],
) -> Result<FileRead, Refusal>
    requires { FromDoor source.now.tokens.now source.now.kept.now }
    ensures { FileParsed (positions source.now.tokens.now source.now.kept.now) (reader.parse (asks strict) true [] 0 (all source.now))
        definitions.old statements.old arguments.old result
        definitions.new statements.new arguments.new }
{
    if source.kept.len() <= FEW_TOKENS {
        return parse_with::<FEW_NAMES, FEW_BUCKETS>(
            source,
            strict,
            definitions,
            statements,
            arguments,
        );
    }
    if source.kept.len() <= SOME_TOKENS {
        return parse_with::<SOME_NAMES, SOME_BUCKETS>(
            source,
            strict,
            definitions,
            statements,
            arguments,
        );
    }
    parse_with::<MANY_NAMES, MANY_BUCKETS>(source, strict, definitions, statements, arguments)
}
