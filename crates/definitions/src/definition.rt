// Definitions: imports, functions, events, errors, and the choice among all of them.
//
// Each reader is lent only the rest of each table from the first free record: its own records go to number 0 on, and `before` says how many statement
// and argument records stand before. `strict` is for bodies. `first` is the place of Define or Include. What a reader has no records for, it is not lent.
//
// `Reading`, or `Place` where no counts are needed, is asked again by each reader: it is a fact of places and counts together, which change from call to
// call, and what holds of `source` alone is in its type.
// Within a definition p goes on alone, and `first` and `before` stay: in a struct with p they would be packed and taken apart again at each step.
// The tables are slices of their own: that a slice keeps its length is known of a `&mut [u32]`, and of one in a struct each reader would have to promise it.
// `strict` is a flag and no `Mode`: the contracts say `asks strict` (docs/DECISIONS.md, "The mode").
ghost use Rattle.std.specs.Prelude.{ℕ, ◌≡◌, List};
ghost use Rattle.tokens.specs.Token.{view, positions};
ghost use Rattle.tokens.specs.Place.{tokens_from};
ghost use Rattle.tokens.specs.Number.{UnexpectedType, InvalidDefinition};
ghost use Rattle.grammar.specs.Result.{plain, expect};
ghost use Rattle.grammar.specs.Rules.{asks};
ghost use Rattle.grammar.specs.FileReader.{parse_imports, parse_function, named, by_kind, kind_table, top_level};
ghost use Rattle.definitions.specs.Answers.{Reading, DefParsed, DefAdded};
ghost use Rattle.definitions.specs.Pieces.{list_kind, list_rest, signed_found, signed_read};
ghost use Rattle.definitions.specs.Found.{Fitting};
ghost use Rattle.tokens.specs.Source.{all, all_from, count};

use crate::constant::parse_constant;
use crate::head::read_head;
use crate::macros::parse_macro;
use crate::record::{DefRead, DefinitionKind, Found, put_definition};
use crate::signature::{Listed, Signature, function_behind, list_behind};
use crate::table::parse_table;
use lists::Before;
use tokens::{Refusal, Source, Wrong, kind};

// The definition of a function, an event or an error, as its signature says.
fn signed(kind: DefinitionKind, first: usize, name: usize, before: Before, s: Signature) -> DefRead
    requires { Fitting (signed_found kind first name s) before }
    ensures { result ≡ signed_read kind first name before s }
{
    let found = Found {
        inputs: s.inputs,
        outputs: s.outputs,
        a: s.ty.map_or(0, |ty| ty as u32),
        ..Found::bare(kind, first, name, s.end)
    };
    DefRead {
        definition: found.definition(before),
        arguments: s.inputs + s.outputs,
    }
}

// The Rust's `parse_imports`: Include and a Str, which is the name.
fn parse_imports(source: &Source, p: usize, before: Before) -> Result<DefRead, Refusal>
    requires { Reading source.now.tokens.now source.now.kept.now p p before }
    ensures { (text st ar : List ℕ) → DefParsed 8 (view text source.now.tokens.now source.now.kept.now) p before (count source.now)
        (parse_imports p (tokens_from text source.now.tokens.now source.now.kept.now p)) st ar result st ar }
{
    if source.kind_at(p) != kind::INCLUDE {
        return Err(Refusal::new(Wrong::UnexpectedType, p));
    }
    if source.kind_at(p + 1) != kind::STR {
        return Err(Refusal::new(Wrong::UnexpectedType, p + 1));
    }
    let found = Found::bare(DefinitionKind::Import, p, p + 1, p + 2);
    Ok(DefRead {
        definition: found.definition(before),
        arguments: 0,
    })
}

// The Rust's `parse_function`, from the token Function on.
// Apart from `parse_listed`, whose contract goes by `list_kind` and `list_rest`: a function is no one list, and has neither.
fn parse_function(
    source: &Source,
    first: usize,
    p: usize,
    arguments: &mut [u32],
    before: Before,
) -> Result<DefRead, Refusal>
    requires { Reading source.now.tokens.now source.now.kept.now first p before }
    ensures { (st : List ℕ) → DefParsed 7 (all source.now) p before (count source.now)
        (parse_function first p (all_from source.now p))
        st arguments.old result st arguments.new }
{
    read_head(source, kind::FUNCTION, p)?;
    let s = function_behind(source, p + 2, arguments)?;
    Ok(signed(DefinitionKind::Function, first, p + 1, before, s))
}

// A definition that is a list behind its name: the Rust's `parse_event` and `parse_custom_error`, from the token Event or Error on.
fn parse_listed(
    source: &Source,
    listed: Listed,
    first: usize,
    p: usize,
    arguments: &mut [u32],
    before: Before,
) -> Result<DefRead, Refusal>
    requires { Reading source.now.tokens.now source.now.kept.now first p before }
    ensures { (st : List ℕ) → DefParsed 7 (all source.now) p before (count source.now)
        (expect (list_kind listed) (plain UnexpectedType) (λ k. named first (list_rest listed)) p (all_from source.now p))
        st arguments.old result st arguments.new }
{
    read_head(source, listed.keyword(), p)?;
    let s = list_behind(source, listed, p + 2, arguments)?;
    Ok(signed(listed.into(), first, p + 1, before, s))
}

// What stands behind Define, by its kind. The readers look at it again: their contracts ask nothing of the kind at p, and have them refuse every other.
fn define(
    source: &Source,
    strict: bool,
    first: usize,
    p: usize,
    statements: &mut [u32],
    arguments: &mut [u32],
    before: Before,
) -> Result<DefRead, Refusal>
    requires { Reading source.now.tokens.now source.now.kept.now first p before }
    ensures { DefParsed 7 (all source.now) p before (count source.now)
        (by_kind (kind_table (asks strict) first) (plain InvalidDefinition) p (all_from source.now p))
        statements.old arguments.old result statements.new arguments.new }
{
    match source.kind_at(p) {
        kind::MACRO | kind::FN | kind::TEST => parse_macro(
            source, strict, first, p, statements, arguments, before,
        ),
        kind::FUNCTION => parse_function(source, first, p, arguments, before),
        kind::EVENT => parse_listed(source, Listed::Event, first, p, arguments, before),
        kind::CONSTANT => parse_constant(source, first, p, before),
        kind::ERROR => parse_listed(source, Listed::Error, first, p, arguments, before),
        kind::JUMP_TABLE | kind::JUMP_TABLE_PACKED | kind::CODE_TABLE => parse_table(
            source, first, p, statements, before,
        ),
        _ => Err(Refusal::new(Wrong::InvalidDefinition, p)),
    }
}

// A definition at top level, where Pound is refused with a number of its own.
fn top_level(
    source: &Source,
    strict: bool,
    p: usize,
    statements: &mut [u32],
    arguments: &mut [u32],
    before: Before,
) -> Result<DefRead, Refusal>
    requires { Reading source.now.tokens.now source.now.kept.now p p before }
    ensures { DefParsed 8 (all source.now) p before (count source.now)
        (top_level (asks strict) p (all_from source.now p))
        statements.old arguments.old result statements.new arguments.new }
{
    match source.kind_at(p) {
        kind::INCLUDE => parse_imports(source, p, before),
        kind::DEFINE => define(source, strict, p, p + 1, statements, arguments, before),
        kind::POUND => Err(Refusal::new(Wrong::PoundAtTopLevel, p)),
        _ => Err(Refusal::new(Wrong::UnexpectedType, p)),
    }
}

// A definition into the rest of each table that is still free: its record is the first of its rest. Where its tokens stand in the text is asked only here.
pub fn read_definition(
    source: &Source,
    strict: bool,
    p: usize,
    definitions: &mut [u32],
    statements: &mut [u32],
    arguments: &mut [u32],
    before: Before,
) -> Result<DefRead, Refusal>
    requires { Reading source.now.tokens.now source.now.kept.now p p before }
    ensures { DefAdded (all source.now) (positions source.now.tokens.now source.now.kept.now) p before (count source.now)
        (top_level (asks strict) p (all_from source.now p)) 0 0 0
        definitions.old statements.old arguments.old result
        definitions.new statements.new arguments.new }
{
    let read = top_level(source, strict, p, statements, arguments, before)?;
    let d = read.definition;
    let start = source.start_inside(p);
    let end = source.end_inside(d.end as usize - 1);
    put_definition(definitions, 0, d, start, end);
    Ok(read)
}
