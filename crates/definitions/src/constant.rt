// Constants.
ghost use Rattle.std.specs.Prelude.{ℕ, List};
ghost use Rattle.tokens.specs.Token.{view};
ghost use Rattle.tokens.specs.Place.{Place, tokens_from};
ghost use Rattle.grammar.specs.FileReader.{parse_constant, constant_rest};
ghost use Rattle.definitions.specs.Answers.{Reading, DefParsed};
ghost use Rattle.definitions.specs.Constant.{ValueRead};
ghost use Rattle.tokens.specs.Source.{count};

use crate::head::read_head;
use crate::record::{DefRead, DefinitionKind, Found};
use lists::Before;
use tokens::{Refusal, Source, Wrong, kind, number};

// A constant's value: a literal's place, or that of the free storage pointer.
// The place stands in both arms, and the value in `ConstantDefinition`: document 01 asks for this form (docs/DECISIONS.md, "Forms that document 01 names").
#[derive(Clone, Copy)]
enum ConstVal {
    Literal(usize),
    FreeStoragePointer(usize),
}

impl ConstVal {
    ghost use Rattle.std.specs.Prelude.{◌≡◌};
    ghost use Rattle.definitions.specs.Constant.{place_of, value_type};

    // What A says of it: which it is.
    fn number(self) -> u32
        ensures { result ≡ value_type self }
    {
        match self {
            ConstVal::Literal(_) => number::VALUE_LITERAL,
            ConstVal::FreeStoragePointer(_) => number::VALUE_POINTER,
        }
    }

    // And B: its place.
    fn place(self) -> usize
        ensures { result ≡ place_of self }
    {
        match self {
            ConstVal::Literal(at) | ConstVal::FreeStoragePointer(at) => at,
        }
    }
}

// A constant as it is read, before its record is written.
#[derive(Clone, Copy)]
struct ConstantDefinition {
    first: usize,
    name: usize,
    end: usize,
    value: ConstVal,
}

impl ConstantDefinition {
    ghost use Rattle.std.specs.Prelude.{◌≡◌, ◌≤◌};
    ghost use Rattle.tokens.specs.Number.{most_tokens};
    ghost use Rattle.definitions.specs.Constant.{place_of, constant_found};

    // What is found of it.
    fn found(self) -> Found
        requires { place_of self.value ≤ most_tokens }
        ensures { result ≡ constant_found self }
    {
        Found {
            a: self.value.number(),
            b: self.value.place() as u32,
            ..Found::bare(DefinitionKind::Constant, self.first, self.name, self.end)
        }
    }
}

// `=` and a value, whatever the text: a constant behind its name.
#[tactic(auto, using(crate::proofs::DefinitionLaws::value_unassigned, crate::proofs::DefinitionLaws::value_pointer, crate::proofs::DefinitionLaws::value_literal, crate::proofs::DefinitionLaws::value_wrong))]
fn value_behind(source: &Source, p: usize) -> Result<ConstVal, Refusal>
    requires { Place source.now.tokens.now source.now.kept.now p }
    ensures { (text : List ℕ) → ValueRead p (count source.now) (constant_rest p (tokens_from text source.now.tokens.now source.now.kept.now p)) result }
{
    if source.kind_at(p) != kind::ASSIGN {
        return Err(Refusal::new(Wrong::UnexpectedType, p));
    }
    match source.kind_at(p + 1) {
        kind::FREE_STORAGE_POINTER => Ok(ConstVal::FreeStoragePointer(p + 1)),
        kind::LITERAL => Ok(ConstVal::Literal(p + 1)),
        _ => Err(Refusal::new(Wrong::InvalidConstantValue, p + 1)),
    }
}

// The Rust's `parse_constant`. It has no statements and no arguments: whatever is lent for them stays.
pub fn parse_constant(
    source: &Source,
    first: usize,
    p: usize,
    before: Before,
) -> Result<DefRead, Refusal>
    requires { Reading source.now.tokens.now source.now.kept.now first p before }
    ensures { (text st ar : List ℕ) → DefParsed 7 (view text source.now.tokens.now source.now.kept.now) p before (count source.now)
        (parse_constant first p (tokens_from text source.now.tokens.now source.now.kept.now p)) st ar result st ar }
{
    read_head(source, kind::CONSTANT, p)?;
    let value = value_behind(source, p + 2)?;
    let constant = ConstantDefinition {
        first,
        name: p + 1,
        end: p + 4,
        value,
    };
    Ok(DefRead {
        definition: constant.found().definition(before),
        arguments: 0,
    })
}
