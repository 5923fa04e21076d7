// Lists of arguments: the Rust's `parse_args` in all four uses, and in a fifth, `Sort::Call`, its `parse_macro_call_args`.
ghost use Rattle.std.specs.Prelude.{suc, ◌≤◌, ◌≡◌, cond, eqb};
ghost use Rattle.tokens.specs.Number.{most_tokens, UnexpectedType, name_form, argument_width};
ghost use Rattle.tokens.specs.Kind.{OpenParen};
ghost use Rattle.tokens.specs.Lent.{put};
ghost use Rattle.grammar.specs.Records.{argument_record};
ghost use Rattle.grammar.specs.Result.{plain, expect};
ghost use Rattle.grammar.specs.Reader.{closed_list};
ghost use Rattle.tokens.specs.Place.{Place};
ghost use Rattle.lists.specs.Answers.{form_number, location_word, reading_of, ListRead, one};
ghost use Rattle.tokens.specs.Source.{all_from, count};

use crate::argument::{Argument, Form, Location, Sort, one_argument};
use tokens::{Refusal, Source, Wrong, kind, number, put_record};

// How many argument records there are behind the list, and the place behind its `)`.
#[derive(Clone, Copy)]
pub struct ArgList {
    pub arguments: usize,
    pub end: usize,
}

// A location's word.
fn location_word(location: Option<Location>) -> u32
    ensures { result ≡ location_word location }
{
    location.map_or(number::LOCATION_NONE, |one| one as u32)
}

// Argument record number n; the words have no method of their own, being written here alone. Here and below the whole table and n, and not what is free from n on:
// `ListRead` (specs/Answers), by which the statements' and definitions' laws go, says of the whole table that the list's records stand in it from n on.
fn put_argument(arguments: &mut [u32], n: usize, a: Argument)
    ensures { arguments.new ≡ put argument_width arguments.old n (argument_record (reading_of a)) }
{
    let words = [
        a.form as u32,
        a.ty.unwrap_or(number::NONE),
        a.name.unwrap_or(number::NONE),
        u32::from(a.indexed),
        location_word(a.location),
        a.first,
        a.end,
    ];
    put_record(arguments, n, &words);
}

// The names before the next argument, where no Comma stands behind one of this form. `names + usize::from(..)` would be no plainer: a test read as a number.
fn names_after(names: usize, form: Form) -> usize
    requires { names ≤ most_tokens }
    ensures { result ≡ cond (eqb (form_number form) name_form) (suc names) names }
{
    if form == Form::Name { names + 1 } else { names }
}

// A list's arguments and its `)`, from the place behind its `(`. The records go into the table from number n on.
#[tactic(auto, using(crate::proofs::ListLaws::listing_comma, crate::proofs::ListLaws::listing_alone, crate::proofs::ListLaws::argument_within))]
fn parse_list(
    source: &Source,
    sort: Sort,
    p: usize,
    arguments: &mut [u32],
    n: usize,
) -> Result<ArgList, Refusal>
    requires place { Place source.now.tokens.now source.now.kept.now p }
    requires n_le_most_tokens { n ≤ most_tokens }
    ensures { ListRead n p (count source.now)
        (closed_list (one sort) p (all_from source.now p))
        arguments.old result arguments.new }
{
    let mut q = p;
    let mut m = n;
    let mut names = 0;
    // What stands at q says whether another argument follows, so no `for` counts them.
    while source.kind_at(q) != kind::CLOSE_PAREN {
        let one = one_argument(source, sort, names, q)?;
        put_argument(arguments, m, one);
        m += 1;
        q = one.end as usize;
        if source.kind_at(q) == kind::COMMA {
            // a Comma is eaten if it stands there, and never asked for
            names = 0;
            q += 1;
        } else {
            names = names_after(names, one.form);
        }
    }
    Ok(ArgList {
        arguments: m,
        end: q + 1,
    })
}

// The same from its `(` on.
pub fn parse_args(
    source: &Source,
    sort: Sort,
    p: usize,
    arguments: &mut [u32],
    n: usize,
) -> Result<ArgList, Refusal>
    requires place { Place source.now.tokens.now source.now.kept.now p }
    requires n_le_most_tokens { n ≤ most_tokens }
    ensures { ListRead n p (count source.now)
        (expect OpenParen (plain UnexpectedType) (λ o. closed_list (one sort)) p (all_from source.now p))
        arguments.old result arguments.new }
{
    if source.kind_at(p) != kind::OPEN_PAREN {
        return Err(Refusal::new(Wrong::UnexpectedType, p));
    }
    parse_list(source, sort, p + 1, arguments, n)
}
