// Tables: the Rust's `parse_table` and `parse_table_body`.
//
// Each entry is a statement record.
ghost use Rattle.std.specs.Prelude.{ℕ, suc, ◌+◌, ◌≤◌, ◌<◌, ◌≡◌, List, [], ◌∷◌};
ghost use Rattle.tokens.specs.Number.{statement_width, most_tokens};
ghost use Rattle.tokens.specs.Lent.{put};
ghost use Rattle.grammar.specs.FileReader.{parse_table_body, parse_table};
ghost use Rattle.statements.specs.Item.{type_number};
ghost use Rattle.definitions.specs.Answers.{Reading, DefParsed};
ghost use Rattle.definitions.specs.Tables.{table_sort, past_sign, past_signs, Past, entries_from, EntriesRead};
ghost use Rattle.tokens.specs.Source.{all, all_from, count};

use crate::record::{DefRead, DefinitionKind, Found};
use lists::Before;
use statements::{Statement, StatementType, put_statement};
use tokens::{Refusal, Source, Wrong, all_hex, kind};

// The three kinds of a table.
#[derive(Clone, Copy)]
enum TableKind {
    Jump,
    Packed,
    Code,
}

impl TableKind {
    ghost use Rattle.std.specs.Prelude.{◌≤◌, ◌≡◌, ◌&&◌, eqb};
    ghost use Rattle.tokens.specs.Number.{most_tokens};
    ghost use Rattle.tokens.specs.Kind.{Ident};
    ghost use Rattle.tokens.specs.Token.{token_at};
    ghost use Rattle.tokens.specs.Place.{kind_at};
    ghost use Rattle.grammar.specs.FileRecords.{entry_type};
    ghost use Rattle.statements.specs.Item.{type_number};
    ghost use Rattle.grammar.specs.FileGrammar.{entry_allowed};
    ghost use Rattle.definitions.specs.Behind.{Opening};
    ghost use Rattle.definitions.specs.Tables.{table_sort, table_token, size_with};
    ghost use Rattle.tokens.specs.Source.{all};

    // The kind of the table that begins with a token of this kind. No TryFrom: it would need an error type that nobody reads.
    fn of(kind: u32) -> Option<TableKind>
        ensures { Opening table_token kind result }
    {
        match kind {
            kind::JUMP_TABLE => Some(TableKind::Jump),
            kind::JUMP_TABLE_PACKED => Some(TableKind::Packed),
            kind::CODE_TABLE => Some(TableKind::Code),
            _ => None,
        }
    }

    // The type of its entries as statements.
    fn entry_type(self) -> StatementType
        ensures { type_number result ≡ entry_type (table_sort self) }
    {
        match self {
            TableKind::Jump | TableKind::Packed => StatementType::LabelCall,
            TableKind::Code => StatementType::Code,
        }
    }

    // Its size in bytes: 32 or 2 an entry, or two digits a byte.
    fn size(self, entries: usize, digits: usize) -> usize
        requires { entries ≤ most_tokens }
        ensures { result ≡ size_with (table_sort self) entries digits }
    {
        match self {
            TableKind::Jump => 32 * entries,
            TableKind::Packed => 2 * entries,
            TableKind::Code => digits / 2,
        }
    }

    // An entry stands at place p: Ident, and in a code table all hex digits.
    #[tactic(auto, unfolding(grammar::specs::FileGrammar::entry_allowed))]
    fn is_entry(self, source: &Source, p: usize) -> bool
        ensures { result ≡ (eqb (kind_at source.now.tokens.now source.now.kept.now p) Ident
            && entry_allowed (table_sort self) (token_at (all source.now) p)) }
    {
        if source.kind_at(p) != kind::IDENT {
            return false;
        }
        match self {
            TableKind::Jump | TableKind::Packed => true,
            TableKind::Code => all_hex(source.text_at(p)),
        }
    }
}

impl From<TableKind> for DefinitionKind {
    ghost use Rattle.std.specs.Prelude.{◌≡◌};
    ghost use Rattle.definitions.specs.Answers.{table_kind};
    ghost use Rattle.definitions.specs.Tables.{table_sort};

    ghost from_gives = { λ from kind. kind ≡ table_kind (table_sort from) };

    fn from(from: TableKind) -> DefinitionKind {
        match from {
            TableKind::Jump => DefinitionKind::JumpTable,
            TableKind::Packed => DefinitionKind::PackedTable,
            TableKind::Code => DefinitionKind::CodeTable,
        }
    }
}

// The entries, the digits in them, and the place behind the brace.
#[derive(Clone, Copy)]
struct Entries {
    count: usize,
    digits: usize,
    end: usize,
}

// Statement record number m: the entry at place p, behind these records. Each bound is of a word of the record; `Reading` has no m, and asks for the list as well.
fn put_entry(statements: &mut [u32], m: usize, ty: StatementType, p: usize, before: Before)
    requires { (m ≤ most_tokens) × (p ≤ most_tokens) × (before.statements ≤ most_tokens) × (before.arguments ≤ most_tokens) }
    ensures { statements.new ≡ put statement_width statements.old m (type_number ty ∷ p ∷ suc p ∷ suc (before.statements + m) ∷ 0 ∷ before.arguments ∷ 0 ∷ p ∷ []) }
{
    let place = p as u32;
    let end = (p + 1) as u32;
    let own = (before.statements + m + 1) as u32;
    let argument = before.arguments as u32;
    put_statement(
        statements,
        m,
        Statement {
            ty: ty as u32,
            first: place,
            end,
            inner: own,
            inners: 0,
            argument,
            arguments: 0,
            place,
        },
    );
}

// The entries and the brace, from the place behind the opening brace.
fn parse_entries(
    source: &Source,
    kind: TableKind,
    p: usize,
    statements: &mut [u32],
    before: Before,
) -> Result<Entries, Refusal>
    requires { Reading source.now.tokens.now source.now.kept.now p p before }
    ensures { EntriesRead (table_sort kind) p before (count source.now)
        (entries_from (table_sort kind) p (all_from source.now p))
        statements.old result statements.new }
{
    let ty = kind.entry_type();
    let mut digits = 0;
    for q in p..source.kept.len() {
        if source.kind_at(q) == kind::CLOSE_BRACE {
            return Ok(Entries {
                count: q - p,
                digits,
                end: q + 1,
            });
        }
        if !kind.is_entry(source, q) {
            return Err(Refusal::new(Wrong::InvalidTableBodyToken, q));
        }
        put_entry(statements, q - p, ty, q, before);
        digits += source.text_at(q).len();
    }
    Err(Refusal::new(Wrong::InvalidTableBodyToken, source.kept.len()))
}

// `{`, entries, `}`.
fn parse_table_body(
    source: &Source,
    kind: TableKind,
    p: usize,
    statements: &mut [u32],
    before: Before,
) -> Result<Entries, Refusal>
    requires { Reading source.now.tokens.now source.now.kept.now p p before }
    ensures { EntriesRead (table_sort kind) p before (count source.now)
        (parse_table_body (table_sort kind) p (all_from source.now p))
        statements.old result statements.new }
{
    if source.kind_at(p) != kind::OPEN_BRACE {
        return Err(Refusal::new(Wrong::UnexpectedType, p));
    }
    parse_entries(source, kind, p + 1, statements, before)
}

// The place behind a token of this kind that may stand at p. `p ≤ count` alone asks less than `Place`; `kind` is named as in `read_head`.
fn behind_sign(source: &Source, kind: u32, p: usize) -> usize
    requires kind_nonzero { (0 < kind) × (p ≤ count source.now) }
    ensures { Past p (count source.now) (past_sign source.now.tokens.now source.now.kept.now kind p) result }
{
    p + usize::from(source.kind_at(p) == kind)
}

// The place behind a table's `(`, `)` and `=`, each of which may be missing.
fn behind_signs(source: &Source, p: usize) -> usize
    requires p_in_bounds { p ≤ count source.now }
    ensures { Past p (count source.now) (past_signs source.now.tokens.now source.now.kept.now p) result }
{
    let o = behind_sign(source, kind::OPEN_PAREN, p);
    let c = behind_sign(source, kind::CLOSE_PAREN, o);
    behind_sign(source, kind::ASSIGN, c)
}

// From the token JumpTable, JumpTablePacked or CodeTable on; `first` is the place of Define. It has no arguments: whatever is lent for them stays.
pub fn parse_table(
    source: &Source,
    first: usize,
    p: usize,
    statements: &mut [u32],
    before: Before,
) -> Result<DefRead, Refusal>
    requires { Reading source.now.tokens.now source.now.kept.now first p before }
    ensures { (ar : List ℕ) → DefParsed 7 (all source.now) p before (count source.now)
        (parse_table first p (all_from source.now p))
        statements.old ar result statements.new ar }
{
    let Some(kind) = TableKind::of(source.kind_at(p)) else {
        return Err(Refusal::new(Wrong::UnexpectedType, p));
    };
    if source.kind_at(p + 1) != kind::IDENT {
        return Err(Refusal::new(Wrong::UnexpectedType, p + 1));
    }
    let q = behind_signs(source, p + 2);
    let entries = parse_table_body(source, kind, q, statements, before)?;
    let size = kind.size(entries.count, entries.digits);
    let found = Found {
        statements: entries.count,
        a: size as u32,
        ..Found::bare(kind.into(), first, p + 1, entries.end)
    };
    Ok(DefRead {
        definition: found.definition(before),
        arguments: 0,
    })
}
