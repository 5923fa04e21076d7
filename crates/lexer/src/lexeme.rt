// The lexeme that comes first: its kind and its length, by its first byte. A word's kind is Ident here; which word it is, is told afterwards.
// All that answer a lexeme are inlined in the two passes: what is found is then not stored and loaded again, without which a text takes a third longer (bench/README.md).
ghost use Rattle.std.specs.Prelude.{◌<◌, ◌≡◌, length, drop};
ghost use Rattle.lexemes.specs.Bytes.{is_word_byte};
ghost use Rattle.lexemes.specs.Contexts.{is_code};
ghost use Rattle.lexemes.specs.Reader.{run, found, slash, quoted, hashed, hash, number, word, worded, marked, lexeme_of};

use crate::class::{
    begins_with, byte_at, comment_end, is_digit, is_letter, is_space, line_of, quoted_of, run_of,
};
use lexemes::{Context, Found, LexemeError};
use tokens::{is_hex, kind};

// So many bytes of this kind. Always Ok, as the rules' `found` is: each call is a reader's whole answer, and all would say `Ok` else. `kind` is a parameter here and in other
// functions, and in front of `::` the module of the kinds' numbers.
#[inline(always)]
fn found(kind: u32, length: usize) -> Result<Found, LexemeError>
    ensures { result ≡ found kind length }
{
    Ok(Found { kind, length })
}

// A comment of either sort.
#[inline(always)]
fn slash_first(bytes: &[u8]) -> Result<Found, LexemeError>
    ensures { result ≡ slash bytes.now }
{
    match byte_at(bytes, 1) {
        b'/' => found(kind::COMMENT, line_of(bytes)),
        b'*' => match comment_end(&bytes[2..]) {
            Some(n) => found(kind::COMMENT, n + 4),
            None => Err(LexemeError::NotClosed),
        },
        _ => Err(LexemeError::StartsNothing),
    }
}

// A string between these quotes. That a byte is there is asked for here and wherever bytes are left: what is left of a text changes with each token, so no type carries the fact.
#[inline(always)]
fn quote_first(quote: u8, bytes: &[u8]) -> Result<Found, LexemeError>
    requires { 0 < length bytes.now }
    ensures { result ≡ quoted quote bytes.now }
{
    let n = quoted_of(quote, &bytes[1..]);
    if byte_at(bytes, 1 + n) == quote {
        found(kind::STR, n + 2)
    } else {
        Err(LexemeError::NotClosed)
    }
}

// The word behind the #, which has n bytes, is exactly this one: told by its length and its beginning, as the rules' `hashed` tells it.
fn is_hashed(bytes: &[u8], n: usize, what: &[u8]) -> bool
    requires { (0 < length bytes.now) × (n ≡ run is_word_byte (drop 1 bytes.now)) }
    ensures { result ≡ hashed what.now bytes.now }
{
    n == what.len() && begins_with(&bytes[1..], what)
}

// `#define`, `#include` or the mark alone, of 7, 8 bytes and one.
#[inline(always)]
fn hash_first(bytes: &[u8]) -> Result<Found, LexemeError>
    requires { 0 < length bytes.now }
    ensures { result ≡ hash bytes.now }
{
    let n = run_of(&bytes[1..], is_letter);
    if is_hashed(bytes, n, b"define") {
        return found(kind::DEFINE, 7);
    }
    if is_hashed(bytes, n, b"include") {
        return found(kind::INCLUDE, 8);
    }
    found(kind::POUND, 1)
}

// A literal or a decimal number.
#[inline(always)]
fn digit_first(bytes: &[u8]) -> Result<Found, LexemeError>
    ensures { result ≡ number bytes.now }
{
    let Some(digits) = bytes.strip_prefix(b"0x") else {
        return found(kind::NUM, run_of(bytes, is_digit));
    };
    // In a closure: the kit exports no contract for a function of another crate that is passed by its name.
    match run_of(digits, |b| is_hex(b)) {
        0 => Err(LexemeError::StartsNothing),
        n => found(kind::LITERAL, n + 2),
    }
}

// A word, or the one name that its parentheses belong to, of 22 bytes with them.
#[inline(always)]
fn word_first(bytes: &[u8]) -> Result<Found, LexemeError>
    ensures { result ≡ word bytes.now }
{
    if begins_with(bytes, b"FREE_STORAGE_POINTER()") {
        return found(kind::FREE_STORAGE_POINTER, 22);
    }
    found(kind::IDENT, run_of(bytes, is_letter))
}

// Inside a code table's braces. No `==`, here and in `in_body`: with a derived PartialEq what asks this didn't prove by itself (tried), since the derive's clause is not in the
// words of the rules, `is_code` and `is_body`.
#[tactic(auto, unfolding(lexemes::specs::Contexts::is_code))]
pub fn in_code(c: Context) -> bool
    ensures { result ≡ is_code c }
{
    matches!(c, Context::Code)
}

// What begins with a letter, a digit or an underscore.
#[inline(always)]
fn letter_first(bytes: &[u8], c: Context) -> Result<Found, LexemeError>
    requires { 0 < length bytes.now }
    ensures { result ≡ worded c bytes.now }
{
    if in_code(c) {
        return found(kind::IDENT, run_of(bytes, is_letter));
    }
    if is_digit(bytes[0]) {
        digit_first(bytes)
    } else {
        word_first(bytes)
    }
}

// The mark that a byte is. `#` never comes here, since `hash_first` takes it; its arm is for the clause, as the rules' `marked` has all marks.
#[tactic(auto, unfolding(lexemes::specs::Reader::mark_is, spelling::specs::Spelling::marks, spelling::specs::Spelling::spelt, spelling::specs::Spelling::value_of, tokens::specs::Byte::same))]
#[inline(always)]
fn mark_of(b: u8) -> Result<Found, LexemeError>
    ensures { result ≡ marked b }
{
    match b {
        b'#' => found(kind::POUND, 1),
        b'=' => found(kind::ASSIGN, 1),
        b'(' => found(kind::OPEN_PAREN, 1),
        b')' => found(kind::CLOSE_PAREN, 1),
        b'{' => found(kind::OPEN_BRACE, 1),
        b'}' => found(kind::CLOSE_BRACE, 1),
        b'[' => found(kind::OPEN_BRACKET, 1),
        b']' => found(kind::CLOSE_BRACKET, 1),
        b'<' => found(kind::LEFT_ANGLE, 1),
        b'>' => found(kind::RIGHT_ANGLE, 1),
        b',' => found(kind::COMMA, 1),
        b':' => found(kind::COLON, 1),
        _ => Err(LexemeError::StartsNothing),
    }
}

// What comes first.
#[inline(always)]
pub fn lexeme_first(bytes: &[u8], c: Context) -> Result<Found, LexemeError>
    requires { 0 < length bytes.now }
    ensures { result ≡ lexeme_of c bytes.now }
{
    match bytes[0] {
        b if is_letter(b) => letter_first(bytes, c),
        b if is_space(b) => found(kind::WHITESPACE, run_of(bytes, is_space)),
        b'/' => slash_first(bytes),
        // Not in one arm: tried together with `starts_with`, and slower (class.rt, `begins_with`).
        b'"' => quote_first(b'"', bytes),
        b'\'' => quote_first(b'\'', bytes),
        b'#' => hash_first(bytes),
        b => mark_of(b),
    }
}
