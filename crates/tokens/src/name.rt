// Names: equality byte for byte, and the types that names can be.
ghost use Rattle.std.specs.Prelude.{ℕ, ◌/◌, ◌%◌, ◌<◌, ◌≤◌, ◌≡◌, ◌≢◌, [], ◌∷◌, MatchOption, option_map, unwrap_or};
ghost use Rattle.tokens.specs.Byte.{same, numeral};
ghost use Rattle.tokens.specs.Token.{token_at, view};
ghost use Rattle.tokens.specs.Name.{decimal, multiples, sized, look_up, bare_types, type_of, reserved, type_told, type_numbers};

use crate::number;
use crate::refusal::Wrong;
use crate::source::Source;

// Equal byte for byte: `==`, with a clause in the rules' words (`same`, specs/Byte), which the proofs of names, lexer and spelling cite.
#[tactic(auto, using(crate::proofs::NameLaws::same_is))]
pub fn same_name(a: &[u8], b: &[u8]) -> bool
    ensures { result ≡ same a.now b.now }
{
    a == b
}

// The digit that a byte writes.
fn digit_of(c: u8) -> Option<usize>
    ensures { MatchOption result ((d : ℕ) → d < 10 → numeral d ≢ c) (λ d. (d < 10) × (numeral d ≡ c)) }
{
    let digit = char::from(c).to_digit(10)?;
    Some(digit as usize)
}

// The number whose three digits these are, if it is at least `least`. So `least` keeps out zeros in front.
fn of_digits(h: u8, t: u8, o: u8, least: usize) -> Option<usize>
    ensures { MatchOption result
        ((m : ℕ) → m < 1000 → least ≤ m → (numeral (m / 100) ∷ numeral (m / 10 % 10) ∷ numeral (m % 10) ∷ []) ≢ (h ∷ t ∷ o ∷ []))
        (λ m. (m < 1000) × (least ≤ m) × ((numeral (m / 100) ∷ numeral (m / 10 % 10) ∷ numeral (m % 10) ∷ []) ≡ h ∷ t ∷ o ∷ [])) }
{
    let m = digit_of(h)? * 100 + digit_of(t)? * 10 + digit_of(o)?;
    if m < least {
        return None;
    }
    Some(m)
}

// The number from 1 to 999 that the bytes write in decimal. Not by `parse`, which takes `08` and `+8` too: the lengths are those of the definition `decimal` (specs/Name).
#[tactic(auto, using(crate::proofs::NameLaws::reads_one, crate::proofs::NameLaws::reads_two, crate::proofs::NameLaws::reads_three, crate::proofs::NameLaws::reads_none))]
fn decimal_of(part: &[u8]) -> Option<usize>
    ensures { MatchOption result ((m : ℕ) → 0 < m → m < 1000 → decimal m ≢ part.now) (λ m. (0 < m) × (m < 1000) × (decimal m ≡ part.now)) }
{
    match part {
        [o] => of_digits(b'0', b'0', *o, 1),
        [t, o] => of_digits(b'0', *t, *o, 10),
        [h, t, o] => of_digits(*h, *t, *o, 100),
        _ => None,
    }
}

// The size of a name that is the prefix with a multiple of `step` up to `most` behind it. Inline, so that each prefix is a constant where it is compared: as one function for
// the three, a file of errors with four arguments took some 40 in 100 longer (bench/README.md).
#[inline(always)]
fn size_in(name: &[u8], prefix: &[u8], step: usize, most: usize) -> Option<usize>
    requires { (0 < step) × (most < 1000) }
    ensures { (t : ℕ) → look_up (sized prefix.now t (multiples step (most / step))) name.now ≡ unwrap_or (option_map (λ m. (t, m)) result) (0, 0) }
{
    let m = decimal_of(name.strip_prefix(prefix)?)?;
    if most < m || m % step != 0 {
        return None;
    }
    Some(m)
}

// Which type a name is: with the bits of uint and int, the bytes of bytesN.
#[derive(Clone, Copy, Debug, PartialEq, Eq)]
pub enum NameType {
    Address,
    Bool,
    String,
    Bytes,
    Uint(usize),
    Int(usize),
    BytesN(usize),
}

// The two numbers in an answer: which type, and its size.
pub fn type_numbers(told: Option<NameType>) -> (u32, usize)
    ensures { result ≡ type_numbers told }
{
    match told {
        None => (number::TYPE_NONE, 0),
        Some(NameType::Address) => (number::TYPE_ADDRESS, 0),
        Some(NameType::Bool) => (number::TYPE_BOOL, 0),
        Some(NameType::String) => (number::TYPE_STRING, 0),
        Some(NameType::Bytes) => (number::TYPE_BYTES, 0),
        Some(NameType::Uint(bits)) => (number::TYPE_UINT, bits),
        Some(NameType::Int(bits)) => (number::TYPE_INT, bits),
        Some(NameType::BytesN(bytes)) => (number::TYPE_BYTES_N, bytes),
    }
}

// The type of a name with no size behind it. By tests and no table: a table of names is pointers, words that the loader writes, and the archive has none (faults/README.md).
fn bare_type(name: &[u8]) -> Option<NameType>
    ensures { type_numbers result ≡ look_up bare_types name.now }
{
    if same_name(b"address", name) {
        return Some(NameType::Address);
    }
    if same_name(b"bool", name) {
        return Some(NameType::Bool);
    }
    if same_name(b"string", name) {
        return Some(NameType::String);
    }
    if same_name(b"bytes", name) {
        return Some(NameType::Bytes);
    }
    if same_name(b"uint", name) {
        return Some(NameType::Uint(number::WIDEST_BITS));
    }
    if same_name(b"int", name) {
        return Some(NameType::Int(number::WIDEST_BITS));
    }
    None
}

// The type of a name, in place of the Rust's `PrimitiveEVMType::try_from`.
pub fn type_of(name: &[u8]) -> Option<NameType>
    ensures { type_numbers result ≡ type_of name.now }
{
    if let Some(told) = bare_type(name) {
        return Some(told);
    }
    if let Some(bits) = size_in(name, b"uint", number::BITS_STEP, number::WIDEST_BITS) {
        return Some(NameType::Uint(bits));
    }
    if let Some(bits) = size_in(name, b"int", number::BITS_STEP, number::WIDEST_BITS) {
        return Some(NameType::Int(bits));
    }
    let bytes = size_in(name, b"bytes", 1, number::WIDEST_BYTES)?;
    Some(NameType::BytesN(bytes))
}

// A reserved type name: one that has a type. The test that the Rust makes of an argument's name.
#[tactic(auto, using(crate::proofs::NameLaws::told_some), unfolding(crate::specs::Name::reserved))]
pub fn is_reserved(name: &[u8]) -> bool
    ensures { result ≡ reserved name.now }
{
    type_of(name).is_some()
}

// The type in an answer with this number: for 7 that of the token at the cursor, for every other number none. So no reader carries it: the entry asks once.
#[tactic(auto, using(crate::proofs::TokenLaws::view_text), unfolding(crate::specs::Name::type_told))]
pub fn type_told(source: &Source, refusal: u32, cursor: usize) -> Option<NameType>
    ensures { type_numbers result ≡ type_told refusal (token_at (view source.now.text.now source.now.tokens.now source.now.kept.now) cursor) }
{
    if refusal == Wrong::InvalidTypeAsArgumentName as u32 {
        return type_of(source.text_at(cursor));
    }
    None
}
