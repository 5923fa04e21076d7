// A word is looked up in one step: its slot leads to the one name that it can be (table.rt).
ghost use Rattle.std.specs.Prelude.{◌+◌, ◌≤◌, ◌<◌, ◌≡◌, cond, MatchOption, length, get_or};
ghost use Rattle.tokens.specs.Byte.{same};
ghost use Rattle.tokens.specs.Kind.{PrimitiveType, Ident};
ghost use Rattle.tokens.specs.Name.{reserved};
ghost use Rattle.spelling.specs.Spelling.{no_opcode, opcode_of, kind_outside};
ghost use Rattle.spelling.specs.Slots.{mix_of, slot_in, start_in, name_in, place_of, every, spellings, slots, records_from, shortest, longest, table_length};

use crate::table;
use tokens::{is_reserved, kind, same_name};

// How far behind a record's place the name's value stands, and its bytes.
const VALUE: usize = 1;

const NAME: usize = 2;

// The mix of a word that is as long as a name can be.
#[tactic(auto, unfolding(crate::specs::Slots::mix_of))]
fn mix_of(word: &[u8]) -> usize
    requires { (shortest ≤ length word.now) × (length word.now ≤ longest) }
    ensures { result ≡ mix_of word.now }
{
    let n = word.len();
    usize::from(word[0]) * table::BY_FIRST
        + usize::from(word[n - 2]) * table::BY_SECOND_LAST
        + usize::from(word[n - 1]) * table::BY_LAST
        + n * table::BY_LENGTH
}

// Byte number i of the table.
fn byte_at(i: usize) -> u8
    requires { i < table_length }
    ensures { result ≡ get_or spellings i 0 }
{
    table::bytes()[i]
}

// The slot of a word.
#[tactic(auto, unfolding(crate::specs::Slots::slot_in))]
fn slot_of(word: &[u8]) -> usize
    requires { (shortest ≤ length word.now) × (length word.now ≤ longest) }
    ensures value { result ≡ slot_in spellings word.now }
    ensures upper_bound { result < slots }
{
    let m = mix_of(word);
    (m / table::BUCKETS + usize::from(byte_at(m % table::BUCKETS))) % table::SLOTS
}

// Where the record of a slot stands.
#[tactic(auto, unfolding(crate::specs::Slots::start_in))]
fn start_of(slot: usize) -> usize
    requires { slot < slots }
    ensures { result ≡ start_in spellings slot }
{
    let at = table::SLOTS_FROM + slot * 2;
    usize::from(u16::from_le_bytes([byte_at(at), byte_at(at + 1)]))
}

// The word is the name whose record stands at this place.
fn is_name(at: usize, word: &[u8]) -> bool
    requires { at + 2 + get_or spellings at 0 ≤ table_length }
    ensures { result ≡ same (name_in spellings at) word.now }
{
    let from = at + NAME;
    let to = from + usize::from(byte_at(at));
    same_name(&table::bytes()[from..to], word)
}

// Where the word's record stands. Most words that are no name are told by the length of the one that their slot leads to, which `same_name` compares first.
fn place_of(word: &[u8]) -> Option<usize>
    ensures { MatchOption result (place_of every records_from word.now ≡ 0) (λ at. (0 < at) × (at + 1 < table_length) × (at ≡ place_of every records_from word.now)) }
{
    let n = word.len();
    if n < table::SHORTEST || table::LONGEST < n {
        return None;
    }
    let at = start_of(slot_of(word));
    if is_name(at, word) { Some(at) } else { None }
}

// The byte of a mnemonic.
pub fn opcode_of(word: &[u8]) -> Option<u8>
    ensures { MatchOption result (opcode_of word.now ≡ no_opcode) (λ byte. (byte < no_opcode) × (byte ≡ opcode_of word.now)) }
{
    let at = place_of(word)?;
    if at < table::KEYWORDS_FROM {
        Some(byte_at(at + VALUE))
    } else {
        None
    }
}

// The kind of a keyword. The lines of `opcode_of` with the arms changed over: one function for both would take a switch, and its clause would have to say both.
fn keyword_of(word: &[u8]) -> Option<u8>
    ensures { MatchOption result (kind_outside word.now ≡ cond (reserved word.now) PrimitiveType Ident) (λ kind. kind ≡ kind_outside word.now) }
{
    let at = place_of(word)?;
    if at < table::KEYWORDS_FROM {
        None
    } else {
        Some(byte_at(at + VALUE))
    }
}

// The kind of a word outside braces. The types are not in the table, which would be half as large again with them: `is_reserved` is asked, of words that are no keyword.
pub fn kind_outside(word: &[u8]) -> u32
    ensures { result ≡ kind_outside word.now }
{
    match keyword_of(word) {
        Some(kind) => u32::from(kind),
        None if is_reserved(word) => kind::PRIMITIVE_TYPE,
        None => kind::IDENT,
    }
}
