// What stands behind the name of a function, an event or an error.
ghost use Rattle.std.specs.Prelude.{ℕ, ◌≤◌, List};
ghost use Rattle.tokens.specs.Number.{most_tokens};
ghost use Rattle.grammar.specs.Reading.{Argument};
ghost use Rattle.grammar.specs.FileReader.{function_type, function_rest};
ghost use Rattle.tokens.specs.Place.{Place, tokens_from};
ghost use Rattle.definitions.specs.Pieces.{TypeRead, OutputsRead, SignatureRead, list_definition, list_rest, outputs_rest};
ghost use Rattle.tokens.specs.Source.{all_from, count};

use crate::record::DefinitionKind;
use lists::{Sort, parse_args};
use tokens::{Refusal, Source, Wrong, kind, number};

// The types of a function, by document 01's numbers.
#[derive(Clone, Copy)]
pub enum FunctionType {
    View = number::FUNCTION_VIEW as isize,
    Pure = number::FUNCTION_PURE as isize,
    Payable = number::FUNCTION_PAYABLE as isize,
    NonPayable = number::FUNCTION_NON_PAYABLE as isize,
}

// The place behind it, the inputs and outputs, and a function's type; an event and an error have no outputs.
#[derive(Clone, Copy)]
pub struct Signature {
    pub end: usize,
    pub inputs: usize,
    pub outputs: usize,
    pub ty: Option<FunctionType>,
}

// What is a list behind its name.
#[derive(Clone, Copy)]
pub enum Listed {
    Event,
    Error,
}

impl Listed {
    ghost use Rattle.std.specs.Prelude.{◌≡◌};
    ghost use Rattle.definitions.specs.Pieces.{list_sort, list_kind};

    // The sort of its list.
    fn sort(self) -> Sort
        ensures { result ≡ list_sort self }
    {
        match self {
            Listed::Event => Sort::Event,
            Listed::Error => Sort::Typed,
        }
    }

    // The kind of the token that it begins with.
    pub fn keyword(self) -> u32
        ensures { result ≡ list_kind self }
    {
        match self {
            Listed::Event => kind::EVENT,
            Listed::Error => kind::ERROR,
        }
    }
}

impl From<Listed> for DefinitionKind {
    ghost use Rattle.std.specs.Prelude.{◌≡◌};
    ghost use Rattle.definitions.specs.Pieces.{list_definition};

    ghost from_gives = { λ from kind. kind ≡ list_definition from };

    fn from(from: Listed) -> DefinitionKind {
        match from {
            Listed::Event => DefinitionKind::Event,
            Listed::Error => DefinitionKind::Error,
        }
    }
}

// An event's or an error's list.
pub fn list_behind(
    source: &Source,
    listed: Listed,
    p: usize,
    arguments: &mut [u32],
) -> Result<Signature, Refusal>
    requires { Place source.now.tokens.now source.now.kept.now p }
    ensures { SignatureRead (list_definition listed) p (count source.now)
        (list_rest listed p (all_from source.now p))
        arguments.old result arguments.new }
{
    let list = parse_args(source, listed.sort(), p, arguments, 0)?;
    Ok(Signature {
        end: list.end,
        inputs: list.arguments,
        outputs: 0,
        ty: None,
    })
}

// A function's type, whatever the text.
#[tactic(auto, using(crate::proofs::DefinitionLaws::type_missing))]
fn function_type(source: &Source, p: usize) -> Result<FunctionType, Refusal>
    requires { Place source.now.tokens.now source.now.kept.now p }
    ensures { (text : List ℕ) → TypeRead p (count source.now) (function_type p (tokens_from text source.now.tokens.now source.now.kept.now p)) result }
{
    match source.kind_at(p) {
        kind::VIEW => Ok(FunctionType::View),
        kind::PURE => Ok(FunctionType::Pure),
        kind::PAYABLE => Ok(FunctionType::Payable),
        kind::NON_PAYABLE => Ok(FunctionType::NonPayable),
        _ => Err(Refusal::new(Wrong::UnexpectedType, p)),
    }
}

// A function behind its n inputs: type, Returns, outputs. The table and n go together as in `parse_args` of `lists`, which is lent both; and that n is small is
// asked beside `Place`, which knows of places alone.
fn outputs_behind(
    source: &Source,
    p: usize,
    arguments: &mut [u32],
    n: usize,
) -> Result<Signature, Refusal>
    requires place { Place source.now.tokens.now source.now.kept.now p }
    requires n_le_most_tokens { n ≤ most_tokens }
    ensures { (inputs : List Argument) → OutputsRead inputs n p (count source.now)
        (outputs_rest inputs p (all_from source.now p))
        arguments.old result arguments.new }
{
    let ty = function_type(source, p)?;
    if source.kind_at(p + 1) != kind::RETURNS {
        return Err(Refusal::new(Wrong::UnexpectedType, p + 1));
    }
    let list = parse_args(source, Sort::Typed, p + 2, arguments, n)?;
    Ok(Signature {
        end: list.end,
        inputs: n,
        outputs: list.arguments - n,
        ty: Some(ty),
    })
}

// A function behind its name: inputs, type, Returns, outputs.
pub fn function_behind(
    source: &Source,
    p: usize,
    arguments: &mut [u32],
) -> Result<Signature, Refusal>
    requires { Place source.now.tokens.now source.now.kept.now p }
    ensures { SignatureRead DefinitionKind.Function p (count source.now)
        (function_rest p (all_from source.now p))
        arguments.old result arguments.new }
{
    let list = parse_args(source, Sort::Typed, p, arguments, 0)?;
    outputs_behind(source, list.end, arguments, list.arguments)
}
