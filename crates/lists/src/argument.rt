// One argument of a list, read from its first token; nothing is written here.
ghost use Rattle.std.specs.Prelude.{ℕ, suc, ◌+◌, ◌<◌, ◌≤◌, List, ◌≡◌, MatchOption, Some, None, IfOk};
ghost use Rattle.std.specs.Int.{from_bool};
ghost use Rattle.tokens.specs.Number.{most_tokens};
ghost use Rattle.tokens.specs.Place.{Place, tokens_from};
ghost use Rattle.grammar.specs.Reading.{one_token, angled};
ghost use Rattle.grammar.specs.Result.{got, with_one_more};
ghost use Rattle.grammar.specs.Reader.{call_argument, builtin_argument, name_argument};
ghost use Rattle.grammar.specs.Typed.{indexed_here, typed_argument};
ghost use Rattle.lists.specs.Answers.{form_number, location_kind, NoLocation, reading_of, Told, ArgRead, angled_rest, UntypedName, TypedName, one};
ghost use Rattle.tokens.specs.Source.{all_from, count};

use tokens::{Refusal, Source, Wrong, is_reserved, kind, number};

// The forms of an argument, with their numbers in its record.
#[derive(Clone, Copy, PartialEq, Eq)]
pub enum Form {
    Name = number::ARGUMENT_NAME as isize,
    Str = number::ARGUMENT_STRING as isize,
    Literal = number::ARGUMENT_LITERAL as isize,
    CallLiteral = number::ARGUMENT_CALL_LITERAL as isize,
    CallName = number::ARGUMENT_CALL_NAME as isize,
    CallAngled = number::ARGUMENT_CALL_ANGLED as isize,
}

// The locations, with theirs.
#[derive(Clone, Copy)]
pub enum Location {
    Calldata = number::LOCATION_CALLDATA as isize,
    Memory = number::LOCATION_MEMORY as isize,
    Storage = number::LOCATION_STORAGE as isize,
}

// An argument: its places are words, as in its record; `end` is the place behind it.
#[derive(Clone, Copy)]
pub struct Argument {
    pub form: Form,
    pub ty: Option<u32>,
    pub name: Option<u32>,
    pub indexed: bool,
    pub location: Option<Location>,
    pub first: u32,
    pub end: u32,
}

// The sorts of a list: a call's, a builtin's, a macro's, a typed one's, and an event's, which may have Indexed.
#[derive(Clone, Copy)]
pub enum Sort {
    Call,
    Builtin,
    Macro,
    Typed,
    Event,
}

// An argument of one token. That its place is below most_tokens is a clause, here and wherever a place becomes a word: the place is a usize and changes from call to call.
fn one_token(form: Form, p: usize) -> Argument
    requires { p < most_tokens }
    ensures reading { reading_of result ≡ one_token (form_number form) p }
    ensures told { (result.ty ≡ None) × (result.name ≡ Some p) }
{
    let at = p as u32;
    Argument {
        form,
        ty: None,
        name: Some(at),
        indexed: false,
        location: None,
        first: at,
        end: at + 1,
    }
}

// A call's `<name>`, whose `<` stands at p.
fn angled_call(p: usize) -> Argument
    requires { p < most_tokens }
    ensures reading { reading_of result ≡ angled p }
    ensures told { Told result }
{
    let at = p as u32;
    Argument {
        name: Some(at + 1),
        end: at + 3,
        ..one_token(Form::CallAngled, p)
    }
}

// What stands behind a call's `<` at p, whatever the text. `Place`, and that a token stands at p, are clauses here and below: facts of the list and of a place in it, and the
// place changes from call to call, so that no value carries them.
#[tactic(auto, using(crate::proofs::ArgumentLaws::angled_nameless, crate::proofs::ArgumentLaws::angled_open, crate::proofs::ArgumentLaws::angled_closed))]
fn angled_rest(source: &Source, p: usize) -> Result<Argument, Refusal>
    requires place { Place source.now.tokens.now source.now.kept.now p }
    requires p_in_bounds { p < count source.now }
    ensures read { (text : List ℕ) → ArgRead p (count source.now)
        (with_one_more (angled_rest p (suc p) (tokens_from text source.now.tokens.now source.now.kept.now (suc p)))) result }
    ensures told { IfOk result Told }
{
    if source.kind_at(p + 1) != kind::IDENT {
        return Err(Refusal::new(Wrong::UnexpectedType, p + 1));
    }
    if source.kind_at(p + 2) != kind::RIGHT_ANGLE {
        return Err(Refusal::new(Wrong::UnexpectedType, p + 2));
    }
    Ok(angled_call(p))
}

// An argument of a call, whatever the text.
#[tactic(auto, using(crate::proofs::ArgumentLaws::call_literal, crate::proofs::ArgumentLaws::call_named, crate::proofs::ArgumentLaws::call_refuses))]
fn call_argument(source: &Source, p: usize) -> Result<Argument, Refusal>
    requires { Place source.now.tokens.now source.now.kept.now p }
    ensures read { (text : List ℕ) → ArgRead p (count source.now) (call_argument 0 p (tokens_from text source.now.tokens.now source.now.kept.now p)) result }
    ensures told { IfOk result Told }
{
    match source.kind_at(p) {
        kind::LITERAL => Ok(one_token(Form::CallLiteral, p)),
        kind::IDENT | kind::CALLDATA => Ok(one_token(Form::CallName, p)),
        kind::LEFT_ANGLE => angled_rest(source, p),
        _ => Err(Refusal::new(Wrong::InvalidMacroArgs, p)),
    }
}

// The location that a token of this kind is.
fn location_of(k: u32) -> Option<Location>
    ensures { MatchOption result (NoLocation k) (λ l. k ≡ location_kind l) }
{
    match k {
        kind::CALLDATA => Some(Location::Calldata),
        kind::MEMORY => Some(Location::Memory),
        kind::STORAGE => Some(Location::Storage),
        _ => None,
    }
}

// Whether the untyped name that should stand at p does. An Ident is tested exactly when the names before it are odd in number.
#[tactic(auto, using(crate::proofs::ArgumentLaws::name_ident_free, crate::proofs::ArgumentLaws::name_ident_tested, crate::proofs::ArgumentLaws::name_ident_refused, crate::proofs::ArgumentLaws::name_type_tested, crate::proofs::ArgumentLaws::name_type_refused))]
fn untyped_name(source: &Source, names: usize, p: usize) -> Result<(), Refusal>
    requires { Place source.now.tokens.now source.now.kept.now p }
    ensures { UntypedName p (count source.now) names (all_from source.now p) result }
{
    match source.kind_at(p) {
        kind::IDENT => {
            if names % 2 == 1 && is_reserved(source.text_at(p)) {
                Err(Refusal::new(Wrong::InvalidTypeAsArgumentName, p))
            } else {
                Ok(())
            }
        }
        kind::PRIMITIVE_TYPE => {
            if names % 2 == 1 {
                Err(Refusal::new(Wrong::InvalidTypeAsArgumentName, p))
            } else {
                Err(Refusal::new(Wrong::UnexpectedType, p))
            }
        }
        // a Comma is eaten before it is refused
        kind::COMMA => Err(Refusal::new(Wrong::InvalidArgs, p + 1)),
        _ => Err(Refusal::new(Wrong::InvalidArgs, p)),
    }
}

// An optional location, then a name.
fn name_argument(source: &Source, names: usize, p: usize) -> Result<Argument, Refusal>
    requires { Place source.now.tokens.now source.now.kept.now p }
    ensures read { ArgRead p (count source.now) (name_argument names p (all_from source.now p)) result }
    ensures told { IfOk result Told }
{
    let location = location_of(source.kind_at(p));
    let q = p + usize::from(location.is_some());
    untyped_name(source, names, q)?;
    Ok(Argument {
        location,
        first: p as u32,
        ..one_token(Form::Name, q)
    })
}

// An argument of a builtin.
#[tactic(auto, using(crate::proofs::ArgumentLaws::builtin_string, crate::proofs::ArgumentLaws::builtin_literal, crate::proofs::ArgumentLaws::builtin_name))]
fn builtin_argument(source: &Source, names: usize, p: usize) -> Result<Argument, Refusal>
    requires { Place source.now.tokens.now source.now.kept.now p }
    ensures read { ArgRead p (count source.now) (builtin_argument names p (all_from source.now p)) result }
    ensures told { IfOk result Told }
{
    match source.kind_at(p) {
        kind::STR => Ok(one_token(Form::Str, p)),
        kind::LITERAL => Ok(one_token(Form::Literal, p)),
        _ => name_argument(source, names, p),
    }
}

// Whether a typed argument's name stands at p.
#[tactic(auto, using(crate::proofs::ArgumentLaws::typed_ident_stands, crate::proofs::ArgumentLaws::typed_ident_refused, crate::proofs::ArgumentLaws::typed_type_refused))]
fn typed_name(source: &Source, p: usize) -> Result<bool, Refusal>
    requires { Place source.now.tokens.now source.now.kept.now p }
    ensures { TypedName p (count source.now) (all_from source.now p) result }
{
    match source.kind_at(p) {
        kind::IDENT => {
            if is_reserved(source.text_at(p)) {
                Err(Refusal::new(Wrong::InvalidTypeAsArgumentName, p))
            } else {
                Ok(true)
            }
        }
        kind::PRIMITIVE_TYPE => Err(Refusal::new(Wrong::InvalidTypeAsArgumentName, p)),
        _ => Ok(false),
    }
}

// Whether Indexed stands at p, in events only.
#[tactic(auto, using(crate::proofs::ArgumentLaws::indexed_is, crate::proofs::ArgumentLaws::not_in_events))]
fn indexed_here(source: &Source, events: bool, p: usize) -> bool
    requires { Place source.now.tokens.now source.now.kept.now p }
    ensures inside { p + from_bool result ≤ count source.now }
    ensures is { indexed_here events p (all_from source.now p) ≡ got (from_bool result) (from_bool result) }
{
    events && source.kind_at(p) == kind::INDEXED
}

// An argument of a typed list: a type, and behind it Indexed, a location and a name, each if it stands there.
#[tactic(auto, using(crate::proofs::ArgumentLaws::typeless))]
fn typed_argument(source: &Source, events: bool, p: usize) -> Result<Argument, Refusal>
    requires { Place source.now.tokens.now source.now.kept.now p }
    ensures read { ArgRead p (count source.now) (typed_argument events 0 p (all_from source.now p)) result }
    ensures told { IfOk result Told }
{
    if source.kind_at(p) != kind::PRIMITIVE_TYPE {
        return Err(Refusal::new(Wrong::InvalidArgs, p));
    }
    let indexed = indexed_here(source, events, p + 1);
    let behind = p + 1 + usize::from(indexed);
    let location = location_of(source.kind_at(behind));
    let q = behind + usize::from(location.is_some());
    let named = typed_name(source, q)?;
    let from = p as u32;
    let at = q as u32;
    Ok(Argument {
        form: Form::Name,
        ty: Some(from),
        name: named.then_some(at),
        indexed,
        location,
        first: from,
        end: at + u32::from(named),
    })
}

// One argument of a list of this sort, with `names` names before it since the opening or the last Comma.
#[tactic(auto, using(crate::proofs::ArgumentLaws::sorted, crate::proofs::ArgumentLaws::sorted_typed, crate::proofs::ArgumentLaws::sorted_event))]
pub fn one_argument(
    source: &Source,
    sort: Sort,
    names: usize,
    p: usize,
) -> Result<Argument, Refusal>
    requires { Place source.now.tokens.now source.now.kept.now p }
    ensures read { ArgRead p (count source.now) (one sort names p (all_from source.now p)) result }
    ensures told { IfOk result Told }
{
    // A match and no closure for the reader: two crates name the sort, and a definition (`one`) goes by it.
    match sort {
        Sort::Call => call_argument(source, p),
        Sort::Builtin => builtin_argument(source, names, p),
        Sort::Macro => name_argument(source, names, p),
        Sort::Typed => typed_argument(source, false, p),
        Sort::Event => typed_argument(source, true, p),
    }
}
