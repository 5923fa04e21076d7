// Macros, fns and tests: the Rust's `parse_macro`.
//
// The declared arguments are written first, and the body's arguments behind them.
ghost use Rattle.std.specs.Prelude.{ℕ, ◌≤◌, ◌<◌, List};
ghost use Rattle.grammar.specs.Rules.{asks};
ghost use Rattle.grammar.specs.Reader.{name_argument};
ghost use Rattle.grammar.specs.Typed.{single_number};
ghost use Rattle.grammar.specs.FileReader.{optional, parse_args, parse_macro};
ghost use Rattle.tokens.specs.Place.{Place, tokens_from};
ghost use Rattle.lists.specs.Answers.{ListRead};
ghost use Rattle.definitions.specs.Answers.{Reading, DefParsed};
ghost use Rattle.definitions.specs.Macros.{NumberRead, numbers_from, NumbersRead, head_from, tail_from, TailParsed};
ghost use Rattle.tokens.specs.Source.{all, all_from, count};

use crate::record::{DefRead, DefinitionKind, Found};
use lists::{ArgList, Before, Single, Sort, parse_args, parse_single_arg};
use statements::{Progress, cursor_of, is_long, named_once, named_once_long, parse_body};
use tokens::{Refusal, Source, Wrong, kind};

// The three kinds of a macro.
#[derive(Clone, Copy)]
enum MacroKind {
    Macro,
    Fn,
    Test,
}

impl MacroKind {
    ghost use Rattle.definitions.specs.Behind.{Opening};
    ghost use Rattle.definitions.specs.Macros.{macro_token};

    // The kind of the macro that begins with a token of this kind. No TryFrom: it would need an error type that nobody reads.
    fn of(kind: u32) -> Option<MacroKind>
        ensures { Opening macro_token kind result }
    {
        match kind {
            kind::MACRO => Some(MacroKind::Macro),
            kind::FN => Some(MacroKind::Fn),
            kind::TEST => Some(MacroKind::Test),
            _ => None,
        }
    }
}

impl From<MacroKind> for DefinitionKind {
    ghost use Rattle.std.specs.Prelude.{◌≡◌};
    ghost use Rattle.definitions.specs.Answers.{macro_kind};
    ghost use Rattle.definitions.specs.Macros.{macro_sort};

    ghost from_gives = { λ from kind. kind ≡ macro_kind (macro_sort from) };

    fn from(from: MacroKind) -> DefinitionKind {
        match from {
            MacroKind::Macro => DefinitionKind::Macro,
            MacroKind::Fn => DefinitionKind::Fn,
            MacroKind::Test => DefinitionKind::Test,
        }
    }
}

// Takes, returns and the place behind them.
#[derive(Clone, Copy)]
struct Numbers {
    takes: u32,
    returns: u32,
    end: usize,
}

// The same, and the progress behind the body. `Numbers` is no field of it: its `end` would be a place that nobody asks for behind the body.
#[derive(Clone, Copy)]
struct Tail {
    takes: u32,
    returns: u32,
    body: Progress,
}

// Takes or Returns, as `kind` says, with its number; 0 where it is missing, as docs/RULES.md has it.
#[tactic(auto, using(crate::proofs::MacroLaws::number_absent))]
fn takes_or_returns(source: &Source, kind: u32, p: usize) -> Result<Single, Refusal>
    requires place { Place source.now.tokens.now source.now.kept.now p }
    requires kind_nonzero { 0 < kind }
    ensures { (text : List ℕ) → NumberRead p (count source.now)
        (optional kind single_number 0 p (tokens_from text source.now.tokens.now source.now.kept.now p)) result }
{
    if source.kind_at(p) != kind {
        return Ok(Single { number: 0, end: p });
    }
    parse_single_arg(source, p + 1)
}

// Takes, then Returns, whatever the text.
fn macro_numbers(source: &Source, p: usize) -> Result<Numbers, Refusal>
    requires { Place source.now.tokens.now source.now.kept.now p }
    ensures { (text : List ℕ) → NumbersRead p (count source.now)
        (numbers_from p (tokens_from text source.now.tokens.now source.now.kept.now p)) result }
{
    let takes = takes_or_returns(source, kind::TAKES, p)?;
    let returns = takes_or_returns(source, kind::RETURNS, takes.end)?;
    Ok(Numbers {
        takes: takes.number,
        returns: returns.number,
        end: returns.end,
    })
}

// The list of declared arguments behind the name. Most macros declare none: `( )` is told here from its two tokens. By the list's reader alone a file of many
// macros takes 6 in 100 longer, since what that reader is lent costs more than the tokens.
fn declared_args(source: &Source, p: usize, arguments: &mut [u32]) -> Result<ArgList, Refusal>
    requires { Place source.now.tokens.now source.now.kept.now p }
    ensures { ListRead 0 p (count source.now)
        (parse_args name_argument p (all_from source.now p))
        arguments.old result arguments.new }
{
    if source.kind_at(p) == kind::OPEN_PAREN && source.kind_at(p + 1) == kind::CLOSE_PAREN {
        return Ok(ArgList {
            arguments: 0,
            end: p + 2,
        });
    }
    parse_args(source, Sort::Macro, p, arguments, 0)
}

// The list of declared arguments behind the name, and `=`.
fn macro_head(source: &Source, p: usize, arguments: &mut [u32]) -> Result<ArgList, Refusal>
    requires { Place source.now.tokens.now source.now.kept.now p }
    ensures { ListRead 0 p (count source.now)
        (head_from p (all_from source.now p))
        arguments.old result arguments.new }
{
    let list = declared_args(source, p, arguments)?;
    if source.kind_at(list.end) != kind::ASSIGN {
        return Err(Refusal::new(Wrong::UnexpectedType, list.end));
    }
    Ok(ArgList {
        arguments: list.arguments,
        end: list.end + 1,
    })
}

// From the place q behind `=` on, with n declared arguments in the lent table.
// `read` is set in each branch, not by `let read = if ..`: the edit `names_across_bodies` changes the line of `named_once` as it stands.
fn macro_tail(
    source: &Source,
    strict: bool,
    n: usize,
    q: usize,
    statements: &mut [u32],
    arguments: &mut [u32],
    before: Before,
) -> Result<Tail, Refusal>
    requires reading { Reading source.now.tokens.now source.now.kept.now q q before }
    requires n_le_q { n ≤ q }
    ensures { TailParsed n q before (count source.now)
        (tail_from (asks strict) q (all_from source.now q))
        statements.old arguments.old result statements.new arguments.new }
{
    let numbers = macro_numbers(source, q)?;
    let e = numbers.end;
    let s = Progress {
        at: e,
        statements: 0,
        arguments: n,
    };
    let mut read = parse_body(source, strict, s, statements, arguments, before);
    if strict {
        let end = cursor_of(&read);
        if is_long(e, end) {
            read = named_once_long(source, e, end).and(read);
        } else {
            read = named_once(source, e, end).and(read);
        }
    }
    Ok(Tail {
        takes: numbers.takes,
        returns: numbers.returns,
        body: read?,
    })
}

// From the token Macro, Fn or Test on; `first` is the place of Define.
pub fn parse_macro(
    source: &Source,
    strict: bool,
    first: usize,
    p: usize,
    statements: &mut [u32],
    arguments: &mut [u32],
    before: Before,
) -> Result<DefRead, Refusal>
    requires { Reading source.now.tokens.now source.now.kept.now first p before }
    ensures { DefParsed 7 (all source.now) p before (count source.now)
        (parse_macro (asks strict) first p (all_from source.now p))
        statements.old arguments.old result statements.new arguments.new }
{
    let Some(kind) = MacroKind::of(source.kind_at(p)) else {
        return Err(Refusal::new(Wrong::UnexpectedType, p));
    };
    if source.kind_at(p + 1) != kind::IDENT {
        return Err(Refusal::new(Wrong::UnexpectedType, p + 1));
    }
    let list = macro_head(source, p + 2, arguments)?;
    let n = list.arguments;
    let tail = macro_tail(source, strict, n, list.end, statements, arguments, before)?;
    let found = Found {
        inputs: n,
        statements: tail.body.statements,
        a: tail.takes,
        b: tail.returns,
        ..Found::bare(kind.into(), first, p + 1, tail.body.at)
    };
    Ok(DefRead {
        definition: found.definition(before),
        arguments: tail.body.arguments,
    })
}
