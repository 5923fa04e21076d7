// Statements, one item at a time: a reader that writes nothing, the writers of its records, and `parse_item` over both.
ghost use Rattle.std.specs.Prelude.{◌+◌, ◌≤◌, ◌<◌, ◌≡◌};
ghost use Rattle.tokens.specs.Number.{most_tokens, UnexpectedType, InvalidConstant, InvalidArgCallIdent, statement_width};
ghost use Rattle.tokens.specs.Kind.{CloseBracket, OpenParen, RightAngle};
ghost use Rattle.tokens.specs.Place.{kind_at, extra_at, text_at, Place};
ghost use Rattle.tokens.specs.Lent.{put};
ghost use Rattle.tokens.specs.Refusal.{wrong_number};
ghost use Rattle.grammar.specs.Result.{plain, expect};
ghost use Rattle.grammar.specs.Reader.{closed_list, item};
ghost use Rattle.lists.specs.Answers.{one};
ghost use Rattle.statements.specs.Answers.{Counting, SimpleParsed};
ghost use Rattle.statements.specs.Item.{statement_words, simple_words, Small, of_one, enclosed_item, opcode_item, ident_item, ItemRead, OnePut, PushPut, CalledPut, ListPut, ListInside};
ghost use Rattle.tokens.specs.Source.{all, all_from, count};

use lists::{ArgList, Before, Sort, parse_args};
use tokens::{Refusal, Source, Wrong, is_value_push, kind, push_overflows, put_record};

// How far the reading is: the next place, and the records written so far.
#[derive(Clone, Copy)]
pub struct Progress {
    pub at: usize,
    pub statements: usize,
    pub arguments: usize,
}

impl Progress {
    ghost use Rattle.std.specs.Prelude.{◌≤◌, ◌≡◌};
    ghost use Rattle.tokens.specs.Number.{most_tokens};
    ghost use Rattle.statements.specs.Item.{further};
    ghost use Rattle.statements.specs.Label.{skipped};

    // The progress behind a statement that ends at `end`.
    fn behind(self, end: usize, arguments: usize) -> Progress
        requires { self.statements ≤ most_tokens }
        ensures { result ≡ further self end arguments }
    {
        Progress {
            at: end,
            statements: self.statements + 1,
            arguments,
        }
    }

    // The progress n tokens further, with m records that are counted already.
    pub(crate) fn skip(self, n: usize, m: usize) -> Progress
        requires { (self.at ≤ most_tokens) × (self.statements ≤ most_tokens) × (n ≤ 2) × (m ≤ 1) }
        ensures { result ≡ skipped self n m }
    {
        Progress {
            at: self.at + n,
            statements: self.statements + m,
            arguments: self.arguments,
        }
    }
}

// The types of a statement, by document 01's numbers.
#[derive(Clone, Copy, Debug, PartialEq, Eq)]
pub enum StatementType {
    Literal = 1,
    Opcode = 2,
    LabelCall = 3,
    Invocation = 4,
    Label = 5,
    Constant = 6,
    ArgumentCall = 7,
    Builtin = 8,
    Code = 9,
}

// A statement's eight words. Its type is a number here as the others are: `put_statement` writes any.
#[derive(Clone, Copy)]
pub struct Statement {
    pub ty: u32,
    pub first: u32,
    pub end: u32,
    pub inner: u32,
    pub inners: u32,
    pub argument: u32,
    pub arguments: u32,
    pub place: u32,
}

// A statement without arguments as it is read: its type, the place behind it, and that of its name or value.
#[derive(Clone, Copy)]
pub struct Lone {
    pub ty: StatementType,
    pub end: usize,
    pub place: usize,
}

// What stands at a place: one statement; a value push with its literal; a name with a call list behind it; or a builtin, whose list
// has yet to be looked at.
#[derive(Clone, Copy)]
pub enum Item {
    One(Lone),
    Push,
    Call,
    Builtin,
}

// A statement of the one token at p, a place that is bounded by a clause, as in lists.
fn one_token(ty: StatementType, p: usize) -> Lone
    requires { p ≤ most_tokens }
    ensures { result ≡ of_one ty p }
{
    Lone {
        ty,
        end: p + 1,
        place: p,
    }
}

// A name between two signs, the opening one at p. `Place` is a clause here and below, as in lists: the place changes from call to call.
fn enclosed(
    source: &Source,
    p: usize,
    wrong: Wrong,
    close: u32,
    ty: StatementType,
) -> Result<Item, Refusal>
    requires { Place source.now.tokens.now source.now.kept.now p }
    ensures { result ≡ enclosed_item (wrong_number wrong) close ty p (kind_at source.now.tokens.now source.now.kept.now (p + 1)) (kind_at source.now.tokens.now source.now.kept.now (p + 2)) }
{
    if source.kind_at(p + 1) != kind::IDENT {
        return Err(Refusal::new(wrong, p + 1));
    }
    if source.kind_at(p + 2) != close {
        return Err(Refusal::new(Wrong::UnexpectedType, p + 2));
    }
    Ok(Item::One(Lone {
        ty,
        end: p + 3,
        place: p + 1,
    }))
}

// `[` Ident `]`, from its bracket. This and the next have the names of the Rust's functions; each is one call of `enclosed`.
fn parse_constant_push(source: &Source, p: usize) -> Result<Item, Refusal>
    requires { Place source.now.tokens.now source.now.kept.now p }
    ensures { result ≡ enclosed_item InvalidConstant CloseBracket StatementType.Constant p (kind_at source.now.tokens.now source.now.kept.now (p + 1)) (kind_at source.now.tokens.now source.now.kept.now (p + 2)) }
{
    enclosed(
        source,
        p,
        Wrong::InvalidConstant,
        kind::CLOSE_BRACKET,
        StatementType::Constant,
    )
}

// `<` Ident `>`, from its angle.
fn parse_arg_call(source: &Source, p: usize) -> Result<Item, Refusal>
    requires { Place source.now.tokens.now source.now.kept.now p }
    ensures { result ≡ enclosed_item InvalidArgCallIdent RightAngle StatementType.ArgumentCall p (kind_at source.now.tokens.now source.now.kept.now (p + 1)) (kind_at source.now.tokens.now source.now.kept.now (p + 2)) }
{
    enclosed(
        source,
        p,
        Wrong::InvalidArgCallIdent,
        kind::RIGHT_ANGLE,
        StatementType::ArgumentCall,
    )
}

// The opcode at p; where a value push takes its literal, with that.
fn opcode_item(source: &Source, takes: bool, p: usize) -> Result<Item, Refusal>
    requires { Place source.now.tokens.now source.now.kept.now p }
    ensures { result ≡ opcode_item takes p (extra_at source.now.tokens.now source.now.kept.now p) (kind_at source.now.tokens.now source.now.kept.now (p + 1)) (text_at source.now.text.now source.now.tokens.now source.now.kept.now (p + 1)) }
{
    let byte = source.extra_at(p);
    if !takes || !is_value_push(byte) {
        return Ok(Item::One(one_token(StatementType::Opcode, p)));
    }
    if source.kind_at(p + 1) != kind::LITERAL {
        return Err(Refusal::new(Wrong::InvalidPush, p + 1));
    }
    if push_overflows(byte, source.text_at(p + 1)) {
        return Err(Refusal::new(Wrong::InvalidPush, p + 2));
    }
    Ok(Item::Push)
}

// The Ident at p: a call if a `(` stands behind it, else a label call.
fn ident_item(source: &Source, p: usize) -> Result<Item, Refusal>
    requires { Place source.now.tokens.now source.now.kept.now p }
    ensures { result ≡ ident_item p (kind_at source.now.tokens.now source.now.kept.now (p + 1)) }
{
    if source.kind_at(p + 1) == kind::OPEN_PAREN {
        return Ok(Item::Call);
    }
    Ok(Item::One(one_token(StatementType::LabelCall, p)))
}

// The item at p, up to the list that it may have.
#[tactic(auto, using(crate::proofs::ItemLaws::literal_here, crate::proofs::ItemLaws::builtin_here, crate::proofs::ItemLaws::other_here))]
fn one_item(source: &Source, takes: bool, wrong: Wrong, p: usize) -> Result<Item, Refusal>
    requires { Place source.now.tokens.now source.now.kept.now p }
    ensures { ItemRead p (count source.now) (all source.now)
        (item takes (wrong_number wrong) p (all_from source.now p)) result }
{
    match source.kind_at(p) {
        kind::LITERAL => Ok(Item::One(one_token(StatementType::Literal, p))),
        kind::OPCODE => opcode_item(source, takes, p),
        kind::IDENT => ident_item(source, p),
        kind::OPEN_BRACKET => parse_constant_push(source, p),
        kind::LEFT_ANGLE => parse_arg_call(source, p),
        kind::BUILTIN_FUNCTION => Ok(Item::Builtin),
        _ => Err(Refusal::new(wrong, p)),
    }
}

// Statement record number n; the words have no method of their own, being written here alone.
pub fn put_statement(statements: &mut [u32], n: usize, s: Statement)
    ensures { statements.new ≡ put statement_width statements.old n (statement_words s) }
{
    let words = [
        s.ty,
        s.first,
        s.end,
        s.inner,
        s.inners,
        s.argument,
        s.arguments,
        s.place,
    ];
    put_record(statements, n, &words);
}

// The record of a statement that is no label and begins at s.at, as the next one: number before.statements + s.statements of the whole table. `Small`, and `Counting` below,
// are facts of a progress, of `before` and of places together, all but `before` other ones at each call: so they are clauses, and no value carries them.
fn put_simple(
    statements: &mut [u32],
    s: Progress,
    before: Before,
    ty: StatementType,
    end: usize,
    arguments: usize,
    place: usize,
)
    requires { Small s before end arguments place }
    ensures { statements.new ≡ put statement_width statements.old s.statements (simple_words s before ty end arguments place) }
{
    let first = s.at as u32;
    let inner = (before.statements + s.statements + 1) as u32;
    let argument = (before.arguments + s.arguments) as u32;
    let words = Statement {
        ty: ty as u32,
        first,
        end: end as u32,
        inner,
        inners: 0,
        argument,
        arguments: arguments as u32,
        place: place as u32,
    };
    put_statement(statements, s.statements, words);
}

// One statement, and the progress behind it.
fn put_one(statements: &mut [u32], s: Progress, before: Before, x: Lone) -> Progress
    requires { Small s before x.end 0 x.place }
    ensures { OnePut statements.old s before x result statements.new }
{
    put_simple(statements, s, before, x.ty, x.end, 0, x.place);
    s.behind(x.end, s.arguments)
}

// A statement with the list of arguments behind it, which is read already.
fn put_called(
    statements: &mut [u32],
    s: Progress,
    before: Before,
    ty: StatementType,
    list: ArgList,
) -> Progress
    requires small { Small s before 0 0 0 }
    requires list_inside { ListInside s list }
    ensures { CalledPut statements.old s before ty list result statements.new }
{
    let own = list.arguments - s.arguments;
    put_simple(statements, s, before, ty, list.end, own, s.at);
    s.behind(list.end, list.arguments)
}

// A value push at s.at with its literal: two statements.
fn put_push(statements: &mut [u32], s: Progress, before: Before) -> Progress
    requires small { Small s before 0 0 0 }
    requires at_bound { (s.at + 2 ≤ most_tokens) × (s.statements ≤ s.at) }
    ensures { PushPut statements.old s before result statements.new }
{
    let p = s.at + 1;
    let opcode = one_token(StatementType::Opcode, s.at);
    let t = put_one(statements, s, before, opcode);
    let literal = one_token(StatementType::Literal, p);
    put_one(statements, t, before, literal)
}

// A statement at s.at and the list of arguments behind it: a call, or a builtin. A function of its own, so that what a list's reader is lent costs no other item.
// Both tables beside each other, here and below: of a struct of both each function would have to promise that their lengths stay, as files' entry says.
fn parse_called(
    source: &Source,
    sort: Sort,
    ty: StatementType,
    s: Progress,
    statements: &mut [u32],
    arguments: &mut [u32],
    before: Before,
) -> Result<Progress, Refusal>
    requires counting { Counting source.now.tokens.now source.now.kept.now s before }
    requires at_in_bounds { s.at < count source.now }
    ensures { ListPut s before ty (count source.now)
        (expect OpenParen (plain UnexpectedType) (λ o. closed_list (one sort)) (s.at + 1) (all_from source.now (s.at + 1)))
        statements.old arguments.old result statements.new arguments.new }
{
    let list = parse_args(source, sort, s.at + 1, arguments, s.arguments)?;
    Ok(put_called(statements, s, before, ty, list))
}

// An item at s.at, written from record s.statements and s.arguments of the lent tables on.
// `takes`: a value push takes its literal here; `wrong`: what is wrong with a token that begins no item. Two parameters, as of the grammar's `item` (Reader).
pub fn parse_item(
    source: &Source,
    takes: bool,
    wrong: Wrong,
    s: Progress,
    statements: &mut [u32],
    arguments: &mut [u32],
    before: Before,
) -> Result<Progress, Refusal>
    requires { Counting source.now.tokens.now source.now.kept.now s before }
    ensures { SimpleParsed s before (count source.now)
        (item takes (wrong_number wrong) s.at (all_from source.now s.at))
        statements.old arguments.old result statements.new arguments.new }
{
    match one_item(source, takes, wrong, s.at)? {
        Item::One(x) => Ok(put_one(statements, s, before, x)),
        Item::Push => Ok(put_push(statements, s, before)),
        Item::Call => parse_called(
            source,
            Sort::Call,
            StatementType::Invocation,
            s,
            statements,
            arguments,
            before,
        ),
        Item::Builtin => parse_called(
            source,
            Sort::Builtin,
            StatementType::Builtin,
            s,
            statements,
            arguments,
            before,
        ),
    }
}
