// A token that is counted and not written: where it ends and what context follows. Of all words only `table` changes the context, so no other is looked up.
ghost use Rattle.std.specs.Prelude.{◌+◌, ◌≤◌, ◌<◌, ◌≡◌, length};
ghost use Rattle.tokens.specs.Number.{most_bytes};
ghost use Rattle.lexemes.specs.Bytes.{first};
ghost use Rattle.lexemes.specs.Contexts.{after};
ghost use Rattle.lexemes.specs.Words.{word_of};
ghost use Rattle.lexemes.specs.Reader.{step_of, step_at};
ghost use Rattle.lexer.specs.Counts.{skip_of};

use crate::class::byte_at;
use crate::lexeme::lexeme_first;
use crate::token::{context_after, too_large};
use lexemes::{Context, LexemeError};
use tokens::{kind, same_name};

// The context behind a token, and where the next one begins.
#[derive(Clone, Copy)]
pub struct Skip {
    pub context: Context,
    pub next: usize,
}

// Where one reads behind a word, with this byte behind it.
fn after_word(c: Context, word: &[u8], next: u8) -> Context
    ensures { result ≡ after c (word_of c word.now next).0 }
{
    match c {
        Context::Out if next != b':' && same_name(b"table", word) => Context::Wait,
        // Not by the arm `_`: that was tried, and its goals are then told apart by names of the checker's own.
        Context::Out => Context::Out,
        _ => c,
    }
}

// A lexeme of this kind, which begins at byte s.
fn kind_skip(
    kind: u32,
    c: Context,
    s: usize,
    lexeme: &[u8],
    behind: &[u8],
) -> Result<Skip, LexemeError>
    requires { s + length lexeme.now ≤ most_bytes }
    ensures { result ≡ skip_of c (step_of c s (s + length lexeme.now) kind lexeme.now (first behind.now)) }
{
    let next = s + lexeme.len();
    if kind == kind::IDENT {
        let context = after_word(c, lexeme, byte_at(behind, 0));
        return Ok(Skip { context, next });
    }
    if too_large(kind, lexeme) {
        return Err(LexemeError::TooLarge);
    }
    let context = context_after(c, kind);
    Ok(Skip { context, next })
}

// The token that comes first in these bytes, which begin at byte s of the text, as far as counting needs it.
pub fn next_skip(bytes: &[u8], c: Context, s: usize) -> Result<Skip, LexemeError>
    requires { (0 < length bytes.now) × (s + length bytes.now ≤ most_bytes) }
    ensures { result ≡ skip_of c (step_at c s bytes.now) }
{
    let found = lexeme_first(bytes, c)?;
    let (lexeme, behind) = bytes.split_at(found.length);
    kind_skip(found.kind, c, s, lexeme, behind)
}
