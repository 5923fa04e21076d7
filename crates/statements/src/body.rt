// Bodies: the Rust's `parse_label` and `parse_body`. Reading goes on from a progress, and `before` are the numbers of records before the lent tables. `strict` asks of
// labels what request [1] asks.
ghost use Rattle.std.specs.Prelude.{◌≡◌, eqb, ltb, ◌||◌, ◌+◌, ◌≤◌, IfSome};
ghost use Rattle.tokens.specs.Kind.{Label, CloseBrace};
ghost use Rattle.tokens.specs.Number.{most_tokens};
ghost use Rattle.tokens.specs.Place.{FromDoor};
ghost use Rattle.tokens.specs.Refusal.{wrong_number};
ghost use Rattle.grammar.specs.Reader.{items, body_from};
ghost use Rattle.grammar.specs.Again.{pushing};
ghost use Rattle.statements.specs.Answers.{Counting, SimpleParsed, BodyParsed, flattened};
ghost use Rattle.statements.specs.Item.{Small};
ghost use Rattle.names.specs.Labels.{short_body};
ghost use Rattle.statements.specs.Label.{label_put, label_opened, takes_in, wrong_in, cursor_at, judged_before, named_before};
ghost use Rattle.tokens.specs.Source.{all, all_from, count};

use crate::item::{Progress, Statement, StatementType, parse_item, put_statement};
use lists::Before;
use names::{first_again, first_again_long};
use tokens::{Refusal, Source, Wrong, kind};

// Whether items end before a token of this kind.
fn ends_items(k: u32) -> bool
    ensures { result ≡ (eqb k Label || eqb k CloseBrace) }
{
    matches!(k, kind::LABEL | kind::CLOSE_BRACE)
}

// Items up to the next Label or CloseBrace.
fn parse_items(
    source: &Source,
    takes: bool,
    wrong: Wrong,
    s: Progress,
    statements: &mut [u32],
    arguments: &mut [u32],
    before: Before,
) -> Result<Progress, Refusal>
    requires { Counting source.now.tokens.now source.now.kept.now s before }
    ensures { SimpleParsed s before (count source.now)
        (flattened (items takes (wrong_number wrong) s.at (all_from source.now s.at)))
        statements.old arguments.old result statements.new arguments.new }
{
    let mut t = s;
    // counts nothing by hand: each turn goes on to where an item ended
    while !ends_items(source.kind_at(t.at)) {
        t = parse_item(source, takes, wrong, t, statements, arguments, before)?;
    }
    Ok(t)
}

// The record of the label whose items are read up to t, if it is one's: only then its end and its inner count are known.
fn put_label(statements: &mut [u32], label: Option<Progress>, before: Before, t: Progress)
    requires small { IfSome label (λ s. Small s before 0 0 0 × (s.statements + 1 ≤ t.statements)) }
    requires t_bound { (t.statements ≤ most_tokens) × (t.at ≤ most_tokens) }
    ensures { statements.new ≡ label_put statements.old label before t }
{
    let Some(s) = label else {
        return;
    };
    let n = s.statements;
    let first = s.at as u32;
    let end = t.at as u32;
    let own = (before.statements + n + 1) as u32;
    let count = (t.statements - (n + 1)) as u32;
    let argument = (before.arguments + s.arguments) as u32;
    put_statement(
        statements,
        n,
        Statement {
            ty: StatementType::Label as u32,
            first,
            end,
            inner: own,
            inners: count,
            argument,
            arguments: 0,
            place: first,
        },
    );
}

// The Label at s.at and its Colon: the progress at its first item. The label's own record comes first in the table, and is counted here.
fn open_label(source: &Source, s: Progress) -> Result<Progress, Refusal>
    requires at_le_most_tokens { (s.at ≤ most_tokens) × (s.statements ≤ most_tokens) }
    ensures { result ≡ label_opened source.now.tokens.now source.now.kept.now s }
{
    let at = s.at;
    if source.kind_at(at) != kind::LABEL {
        return Err(Refusal::new(Wrong::InvalidTokenInMacroBody, at));
    }
    if source.kind_at(at + 1) != kind::COLON {
        return Err(Refusal::new(Wrong::UnexpectedType, at + 1));
    }
    Ok(s.skip(2, 1))
}

// Whether a value push takes its literal: inside a label only in strict reading.
fn takes_literal(inside: bool, strict: bool) -> bool
    ensures { result ≡ takes_in inside strict }
{
    !inside || strict
}

// What is wrong with a token that begins no item.
fn wrong_in(inside: bool) -> Wrong
    ensures { wrong_number result ≡ wrong_in inside }
{
    if inside {
        Wrong::InvalidTokenInLabelDefinition
    } else {
        Wrong::InvalidTokenInMacroBody
    }
}

// `{`, plain items, label groups, `}`, whatever the labels' names (`named_once`): the Rust's `parse_body` and `parse_label` in one loop, each turn of which reads items up to the next
// Label or CloseBrace. So `parse_items` is called at one place, and the compiler makes one function of both: with a function for a label's part, a file of many
// macros takes 12 in 100 longer. A `loop`, since it ends inside a turn, behind the record of a label that was read.
pub fn parse_body(
    source: &Source,
    strict: bool,
    s: Progress,
    statements: &mut [u32],
    arguments: &mut [u32],
    before: Before,
) -> Result<Progress, Refusal>
    requires { Counting source.now.tokens.now source.now.kept.now s before }
    ensures { BodyParsed s before (count source.now)
        (body_from (pushing strict) s.at (all_from source.now s.at))
        statements.old arguments.old result statements.new arguments.new }
{
    let at = s.at;
    if source.kind_at(at) != kind::OPEN_BRACE {
        return Err(Refusal::new(Wrong::UnexpectedType, at));
    }
    let mut t = s.skip(1, 0);
    // the label whose items are read, once there is one
    let mut label = None;
    loop {
        let inside = label.is_some();
        let takes = takes_literal(inside, strict);
        let wrong = wrong_in(inside);
        let next = parse_items(source, takes, wrong, t, statements, arguments, before)?;
        put_label(statements, label, before, next);
        let p = next.at;
        if source.kind_at(p) == kind::CLOSE_BRACE {
            return Ok(next.skip(1, 0));
        }
        t = open_label(source, next)?;
        label = Some(next);
    }
}

// Where the cursor stands behind what was read.
pub fn cursor_of(read: &Result<Progress, Refusal>) -> usize
    ensures { result ≡ cursor_at read.now }
{
    match read {
        Ok(t) => t.at,
        Err(refusal) => refusal.at(),
    }
}

// A label at `at` is refused, if that is a place before `end`. A number and no Option: `first_again` (names) promises grammar's number, which is no place before the cursor
// where no name stands again.
fn judged(end: usize, at: usize) -> Result<(), Refusal>
    ensures { result ≡ judged_before end at }
{
    if at < end {
        return Err(Refusal::new(Wrong::DuplicateLabel, at));
    }
    Ok(())
}

// Whether a body that was read from place p up to `end` is a long one.
pub fn is_long(p: usize, end: usize) -> bool
    requires { p ≤ most_tokens }
    ensures { result ≡ ltb (p + short_body) end }
{
    names::is_long(p, end)
}

// Whether each label from place p on and before `end`, where reading stopped, has a name of its own; else the first that has not is refused. What is read before a label does
// not hang on names, so they can be looked at behind it all, in one walk over the tokens: who read goes on with what was read, unless a label is refused here (`and`; where his
// refusals are of another type, this one is mapped to it first).
//
// Each of the two readers of a body asks for it itself where reading is strict, and tells short bodies from long ones. Called at one place the compiler would make a part
// of that reader of it, with its room for names: mode 0 would need that room too, and each short body would touch the pages of a long one's.
//
// `FromDoor` is a clause: `Source` can be made of a list that no door wrote. The bounds are clauses, since p and `end` change from call to call.
pub fn named_once(source: &Source, p: usize, end: usize) -> Result<(), Refusal>
    requires from_door { FromDoor source.now.tokens.now source.now.kept.now }
    requires p_le_most_tokens { (p ≤ most_tokens) × (end ≤ most_tokens) × (end ≤ p + short_body) }
    ensures { result ≡ named_before (all source.now) p end }
{
    judged(end, first_again(source, p, end))
}

// The same of a long body.
pub fn named_once_long(source: &Source, p: usize, end: usize) -> Result<(), Refusal>
    requires from_door { FromDoor source.now.tokens.now source.now.kept.now }
    requires p_le_most_tokens { (p ≤ most_tokens) × (end ≤ most_tokens) }
    ensures { result ≡ named_before (all source.now) p end }
{
    judged(end, first_again_long(source, p, end))
}
