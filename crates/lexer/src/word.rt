// What a word is: by its spelling, the byte behind it and where it stands.
ghost use Rattle.std.specs.Prelude.{◌≡◌};
ghost use Rattle.lexemes.specs.Contexts.{is_body};
ghost use Rattle.lexemes.specs.Words.{plain, in_braces, by_place, word_of};

use crate::class::begins_with;
use crate::lexeme::in_code;
use lexemes::Context;
use spelling::{kind_outside, opcode_of};
use tokens::kind;

// A token's kind and extra.
#[derive(Clone, Copy)]
pub struct Word {
    pub kind: u32,
    pub extra: u32,
}

// Inside braces that are no code table's.
#[tactic(auto, unfolding(lexemes::specs::Contexts::is_body))]
fn in_body(c: Context) -> bool
    ensures { result ≡ is_body c }
{
    matches!(c, Context::Body)
}

// A word whose extra is 0.
fn plain_word(kind: u32) -> Word
    ensures { (result.kind, result.extra) ≡ plain kind }
{
    Word { kind, extra: 0 }
}

// A word in braces: a mnemonic or a name.
#[tactic(auto, unfolding(lexemes::specs::Words::in_braces))]
fn in_braces(word: &[u8]) -> Word
    ensures { (result.kind, result.extra) ≡ in_braces word.now }
{
    match opcode_of(word) {
        Some(byte) => Word {
            kind: kind::OPCODE,
            extra: u32::from(byte),
        },
        None => plain_word(kind::IDENT),
    }
}

// A word that nothing behind it tells.
#[tactic(auto, unfolding(lexemes::specs::Words::by_place))]
fn by_place(c: Context, word: &[u8]) -> Word
    ensures { (result.kind, result.extra) ≡ by_place c word.now }
{
    if in_body(c) {
        in_braces(word)
    } else {
        plain_word(kind_outside(word))
    }
}

// The word's kind and extra, with this byte behind it.
#[tactic(auto, unfolding(lexemes::specs::Words::word_of))]
pub fn word_of(c: Context, word: &[u8], next: u8) -> Word
    ensures { (result.kind, result.extra) ≡ word_of c word.now next }
{
    if in_code(c) {
        return plain_word(kind::IDENT);
    }
    if next == b':' {
        return plain_word(kind::LABEL);
    }
    if next == b'(' && begins_with(word, b"__") {
        return plain_word(kind::BUILTIN_FUNCTION);
    }
    by_place(c, word)
}
