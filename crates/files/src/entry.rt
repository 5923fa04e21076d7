// The entry for a whole file.
ghost use Rattle.std.specs.Prelude.{◌≡◌, true, length, replicate};
ghost use Rattle.tokens.specs.Lent.{cleared_behind};
ghost use Rattle.tokens.specs.Token.{positions};
ghost use Rattle.grammar.specs.Rules.{asks};
ghost use Rattle.grammar.specs.FileReader.{file_at};
ghost use Rattle.tokens.specs.Number.{definition_width, statement_width, argument_width};
ghost use Rattle.tokens.specs.Place.{FromDoor};
ghost use Rattle.files.specs.Call.{FileCall};
ghost use Rattle.files.specs.Taken.{FileTaken};
ghost use Rattle.tokens.specs.Source.{all};

use crate::file::{FileRead, read_definitions};
use statements::{Mode, UnknownMode};
use tokens::{NameType, Refusal, Source, Unready, clear, clear_behind, number, prepare, type_told};

// Why a file call reads none. What the door says is written out, as in `BodyError`, and no variant `Door(Unready)`: `at_door`, `values` and `Own` (specs/Call) go by these.
// No comparison is derived, since `Refusal` has none.
#[derive(Drop)]
pub enum FileError {
    // 36: there is no such mode.
    UnknownMode,
    // 30 and 35, at the door.
    NotWellFormed(usize),
    KeptTooShort(usize),
    // 1 to 22; for 7 the type of the token at its cursor.
    Refused(Refusal, Option<NameType>),
    // 32, 33 and 34: the records needed.
    DefinitionsTooSmall(usize),
    StatementsTooSmall(usize),
    ArgumentsTooSmall(usize),
}

impl From<UnknownMode> for FileError {
    ghost use Rattle.files.specs.declared.entry.FileError.TheVariants as errors;

    ghost from_gives = { λ _ e. e ≡ errors.UnknownMode };

    fn from(_error: UnknownMode) -> FileError {
        FileError::UnknownMode
    }
}

impl From<Unready> for FileError {
    ghost use Rattle.files.specs.Call.{at_door};

    ghost from_gives = { λ error e. e ≡ at_door error };

    fn from(error: Unready) -> FileError {
        match error {
            Unready::NotWellFormed(at) => FileError::NotWellFormed(at),
            Unready::KeptTooShort(count) => FileError::KeptTooShort(count),
            // never given (`file_not_31`): a file starts at place 0, which is below the kept count of a well-formed list. The arm stands since `Unready` is the door's, which
            // body calls share; it says what `at_door` says
            Unready::StartOutside(start) => FileError::NotWellFormed(start),
        }
    }
}

// Every word of the three tables 0. The three are lent beside each other, here and in the loop, and not in a struct: that a slice keeps its length is known of a
// `&mut [u32]`, and of one in a struct each function would have to promise it.
fn clear_all(definitions: &mut [u32], statements: &mut [u32], arguments: &mut [u32])
    ensures { (definitions.new ≡ replicate (length definitions.old) 0)
        × (statements.new ≡ replicate (length statements.old) 0)
        × (arguments.new ≡ replicate (length arguments.old) 0) }
{
    clear(definitions);
    clear(statements);
    clear(arguments);
}

// Every word behind the records 0. What is in front of them was written with the records, so it need not be cleared before.
fn clear_rest(
    definitions: &mut [u32],
    statements: &mut [u32],
    arguments: &mut [u32],
    read: FileRead,
)
    ensures { (definitions.new ≡ cleared_behind definition_width read.definitions definitions.old)
        × (statements.new ≡ cleared_behind statement_width read.statements statements.old)
        × (arguments.new ≡ cleared_behind argument_width read.arguments arguments.old) }
{
    clear_behind(definitions, read.definitions, number::DEFINITION_WIDTH);
    clear_behind(statements, read.statements, number::STATEMENT_WIDTH);
    clear_behind(arguments, read.arguments, number::ARGUMENT_WIDTH);
}

// The file of the kept tokens: 1 to 22, then 32, 33, 34. A table that is too small is told only now, since its whole need is the cursor. Each way out clears for itself: a
// function that only chooses the answer, with one clearing behind it, would be no plainer, since its clause would have to tell the four answers apart once more.
fn read_kept(
    source: &Source,
    strict: bool,
    definitions: &mut [u32],
    statements: &mut [u32],
    arguments: &mut [u32],
) -> Result<FileRead, FileError>
    requires { FromDoor source.now.tokens.now source.now.kept.now }
    ensures { FileTaken (all source.now) (positions source.now.tokens.now source.now.kept.now)
        (file_at (asks strict) true (all source.now))
        definitions.old statements.old arguments.old result
        definitions.new statements.new arguments.new }
{
    match read_definitions(source, strict, definitions, statements, arguments) {
        Err(refusal) => {
            clear_all(definitions, statements, arguments);
            let at = refusal.at();
            let told = type_told(source, refusal.number(), at);
            Err(FileError::Refused(refusal, told))
        }
        Ok(read) => {
            if definitions.len() / number::DEFINITION_WIDTH < read.definitions {
                clear_all(definitions, statements, arguments);
                return Err(FileError::DefinitionsTooSmall(read.definitions));
            }
            if statements.len() / number::STATEMENT_WIDTH < read.statements {
                clear_all(definitions, statements, arguments);
                return Err(FileError::StatementsTooSmall(read.statements));
            }
            if arguments.len() / number::ARGUMENT_WIDTH < read.arguments {
                clear_all(definitions, statements, arguments);
                return Err(FileError::ArgumentsTooSmall(read.arguments));
            }
            clear_rest(definitions, statements, arguments, read);
            Ok(read)
        }
    }
}

// Reads a whole file, its bodies strictly if the mode is 1. Nothing is asked of what is lent. Text, tokens and kept list come beside each other, as C lends them.
pub fn read_file(
    mode: u32,
    text: &[u8],
    tokens: &[u32],
    kept: &mut [u32],
    definitions: &mut [u32],
    statements: &mut [u32],
    arguments: &mut [u32],
) -> Result<FileRead, FileError>
    ensures { FileCall mode text.now tokens.now kept.old definitions.old statements.old
        arguments.old result kept.new definitions.new statements.new arguments.new }
{
    let mode = Mode::try_from(mode)?;
    let count = prepare(text, tokens, 0, kept)?;
    let source = Source {
        text,
        tokens,
        kept: &kept[0..count],
    };
    read_kept(
        &source,
        mode.is_strict(),
        definitions,
        statements,
        arguments,
    )
}
