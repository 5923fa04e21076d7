// One token: the lexeme that comes first, and what it is. Context, place, lexeme and the bytes behind it are parameters, here and in skip.rt, and no struct: each clause would
// name its fields, and say the same at greater length.
ghost use Rattle.std.specs.Prelude.{◌-◌, ◌+◌, ◌≤◌, ◌<◌, ◌≡◌, Ok, MatchOption, length, List, ℕ};
ghost use Rattle.tokens.specs.Byte.{numeral};
ghost use Rattle.tokens.specs.Kind.{Ident, Num};
ghost use Rattle.tokens.specs.Number.{most_bytes, most_number};
ghost use Rattle.lexemes.specs.Bytes.{first};
ghost use Rattle.lexemes.specs.Contexts.{after};
ghost use Rattle.lexemes.specs.Texts.{decimal, too_large, quotes};
ghost use Rattle.lexemes.specs.Reader.{token, step_of, step_at};
ghost use Rattle.lexemes.specs.declared.Context.{Context};

use crate::class::byte_at;
use crate::lexeme::lexeme_first;
use crate::word::word_of;
use lexemes::{Context, LexemeError, Token};
use tokens::{kind, number};

// The largest number. By `as`: `from` can't be called in a constant.
const MOST: u64 = number::MOST_NUMBER as u64;

// What a digit is worth: its distance from `0`, of any byte, as in the rules' `decimal_after`. `to_digit` answers an Option, whose None would need a branch that no text takes.
fn worth(b: u8) -> u64
    ensures value { result ≡ b - numeral 0 }
    ensures upper_bound { result ≤ 255 }
{
    u64::from(b.saturating_sub(b'0'))
}

// The number that the digits write, where it is not too large. By a u64 and one test a digit, where `checked_mul` and `checked_add` of a u32 make two.
fn decimal_value(digits: &[u8]) -> Option<u32>
    ensures { MatchOption result (most_number < decimal digits.now) (λ v. (v ≤ most_number) × (v ≡ decimal digits.now)) }
{
    let mut v: u64 = 0;
    for digit in digits {
        v = v * 10 + worth(*digit);
        if MOST < v {
            return None;
        }
    }
    Some(v as u32)
}

// A number by its value, or a literal by its length, that is refused.
pub fn too_large(kind: u32, lexeme: &[u8]) -> bool
    ensures { result ≡ too_large kind lexeme.now }
{
    match kind {
        kind::NUM => decimal_value(lexeme).is_none(),
        kind::LITERAL => number::LONGEST_LITERAL < lexeme.len(),
        _ => false,
    }
}

// How many quotes a token's range leaves out at each end.
#[tactic(auto, unfolding(lexemes::specs::Texts::quotes))]
fn quotes_of(kind: u32) -> usize
    ensures value { result ≡ quotes kind }
    ensures upper_bound { result ≤ 1 }
{
    usize::from(kind == kind::STR)
}

// A token by its words.
fn token(kind: u32, start: usize, end: usize, extra: u32, next: usize) -> Token
    requires { (start ≤ most_bytes) × (end ≤ most_bytes) }
    ensures { Ok result ≡ token kind start end extra next }
{
    Token {
        kind,
        start: start as u32,
        end: end as u32,
        extra,
        next,
    }
}

// A word, which begins at byte s. That it ends inside what a text may have is asked for here and below: what is left of a text changes with each token, so no type carries the fact.
fn word_token(c: Context, s: usize, lexeme: &[u8], behind: &[u8]) -> Result<Token, LexemeError>
    requires { s + length lexeme.now ≤ most_bytes }
    ensures { result ≡ step_of c s (s + length lexeme.now) Ident lexeme.now (first behind.now) }
{
    let w = word_of(c, lexeme, byte_at(behind, 0));
    let e = s + lexeme.len();
    Ok(token(w.kind, s, e, w.extra, e))
}

// A decimal number.
fn number_token(s: usize, lexeme: &[u8]) -> Result<Token, LexemeError>
    requires { s + length lexeme.now ≤ most_bytes }
    ensures { (c : Context) (behind : List ℕ) → result ≡ step_of c s (s + length lexeme.now) Num lexeme.now (first behind) }
{
    let v = decimal_value(lexeme).ok_or(LexemeError::TooLarge)?;
    let e = s + lexeme.len();
    Ok(token(kind::NUM, s, e, v, e))
}

// A lexeme of this kind.
fn kind_token(
    kind: u32,
    c: Context,
    s: usize,
    lexeme: &[u8],
    behind: &[u8],
) -> Result<Token, LexemeError>
    requires { (0 < length lexeme.now) × (s + length lexeme.now ≤ most_bytes) }
    ensures { result ≡ step_of c s (s + length lexeme.now) kind lexeme.now (first behind.now) }
{
    if kind == kind::IDENT {
        return word_token(c, s, lexeme, behind);
    }
    if kind == kind::NUM {
        return number_token(s, lexeme);
    }
    if too_large(kind, lexeme) {
        return Err(LexemeError::TooLarge);
    }
    let q = quotes_of(kind);
    let e = s + lexeme.len();
    Ok(token(kind, s + q, e - q, 0, e))
}

// The token that comes first in these bytes, which begin at byte s of the text.
pub fn next_token(bytes: &[u8], c: Context, s: usize) -> Result<Token, LexemeError>
    requires { (0 < length bytes.now) × (s + length bytes.now ≤ most_bytes) }
    ensures { result ≡ step_at c s bytes.now }
{
    let found = lexeme_first(bytes, c)?;
    let (lexeme, behind) = bytes.split_at(found.length);
    kind_token(found.kind, c, s, lexeme, behind)
}

// Where one reads behind a token of this kind.
#[tactic(auto, unfolding(lexemes::specs::Contexts::after))]
pub fn context_after(c: Context, kind: u32) -> Context
    ensures { result ≡ after c kind }
{
    match (c, kind) {
        (Context::Out, kind::CODE_TABLE) => Context::Wait,
        (Context::Out, kind::OPEN_BRACE) => Context::Body,
        (Context::Wait, kind::OPEN_BRACE) => Context::Code,
        (Context::Body | Context::Code, kind::CLOSE_BRACE) => Context::Out,
        _ => c,
    }
}
