// A definition as its readers answer it, and the one place that writes its record.
ghost use Rattle.std.specs.Prelude.{◌≡◌};
ghost use Rattle.tokens.specs.Number.{definition_width};
ghost use Rattle.tokens.specs.Lent.{put};
ghost use Rattle.definitions.specs.Answers.{definition_words, is_named};
ghost use Rattle.definitions.specs.Found.{Fitting, bare, definition_of};

use lists::Before;
use tokens::put_record;

// The kinds of a definition, by document 01's numbers.
#[derive(Clone, Copy, Debug, PartialEq, Eq)]
pub enum DefinitionKind {
    Import = 1,
    Function = 2,
    Event = 3,
    Constant = 4,
    Error = 5,
    Macro = 6,
    Fn = 7,
    Test = 8,
    JumpTable = 9,
    PackedTable = 10,
    CodeTable = 11,
}

impl DefinitionKind {
    ghost use Rattle.std.specs.Prelude.{◌≡◌};
    ghost use Rattle.definitions.specs.Answers.{definition_number, is_named};

    // A definition of this kind has a name that none other may have.
    pub fn is_named(self) -> bool
        ensures { result ≡ is_named (definition_number self) }
    {
        is_named(self as u32)
    }
}

// The same of the kind's number, as a record has it: a macro, fn or test.
#[tactic(auto, unfolding(crate::specs::Answers::is_named))]
pub fn is_named(kind: u32) -> bool
    ensures { result ≡ is_named kind }
{
    DefinitionKind::Macro as u32 <= kind && kind <= DefinitionKind::Test as u32
}

// A definition's words but the last two, which say where it stands in the text: no reader looks there.
//
// The kind, a byte, stands last. Before the words it is packed with the name, and a file of constants takes 7 in 100 more of the instructions behind the door,
// one of macros 2 (docs/DECISIONS.md).
#[derive(Clone, Copy)]
pub struct Definition {
    pub name: u32,
    pub first: u32,
    pub end: u32,
    pub argument: u32,
    pub arguments: u32,
    pub output: u32,
    pub outputs: u32,
    pub statement: u32,
    pub statements: u32,
    pub a: u32,
    pub b: u32,
    pub kind: DefinitionKind,
}

// The definition and how many argument records it has in all.
#[derive(Clone, Copy)]
pub struct DefRead {
    pub definition: Definition,
    pub arguments: usize,
}

// A definition as a reader finds it: three places, three counts, A and B. `lexemes` has a `Found` of its own: neither crate uses the other.
#[derive(Clone, Copy)]
pub struct Found {
    pub first: usize,
    pub name: usize,
    pub end: usize,
    pub inputs: usize,
    pub outputs: usize,
    pub statements: usize,
    pub a: u32,
    pub b: u32,
    pub kind: DefinitionKind,
}

impl Found {
    // One without arguments, statements, A and B.
    pub fn bare(kind: DefinitionKind, first: usize, name: usize, end: usize) -> Found
        ensures { result ≡ bare kind first name end }
    {
        Found {
            kind,
            first,
            name,
            end,
            inputs: 0,
            outputs: 0,
            statements: 0,
            a: 0,
            b: 0,
        }
    }

    // Its definition, behind these records.
    pub fn definition(self, before: Before) -> Definition
        requires { Fitting self before }
        ensures { result ≡ definition_of before self }
    {
        let argument = before.arguments as u32;
        let inputs = self.inputs as u32;
        Definition {
            kind: self.kind,
            name: self.name as u32,
            first: self.first as u32,
            end: self.end as u32,
            argument,
            arguments: inputs,
            output: argument + inputs,
            outputs: self.outputs as u32,
            statement: before.statements as u32,
            statements: self.statements as u32,
            a: self.a,
            b: self.b,
        }
    }
}

// Definition record number n, of a definition whose tokens take the bytes of the text from start up to end.
// n is 0 at its one call, but the promise is over any n, and the edit `no_records` gives `put_record` another. No method `words`: two of the words are no fields.
pub fn put_definition(definitions: &mut [u32], n: usize, d: Definition, start: u32, end: u32)
    ensures { definitions.new ≡ put definition_width definitions.old n (definition_words d start end) }
{
    let words = [
        d.kind as u32,
        d.name,
        d.first,
        d.end,
        d.argument,
        d.arguments,
        d.output,
        d.outputs,
        d.statement,
        d.statements,
        d.a,
        d.b,
        start,
        end,
    ];
    put_record(definitions, n, &words);
}
