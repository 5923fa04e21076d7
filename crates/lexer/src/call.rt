// A text's tokens: counted first, then written, so that a refusal leaves the list as it was.
ghost use Rattle.std.specs.Prelude.{◌≤◌, ◌≡◌, length};
ghost use Rattle.tokens.specs.Number.{most_bytes, token_width};
ghost use Rattle.tokens.specs.Lent.{put_all};
ghost use Rattle.lexemes.specs.Reader.{reading};
ghost use Rattle.lexer.specs.Counts.{Counts};
ghost use Rattle.lexer.specs.Call.{LexCall};

use crate::skip::next_skip;
use crate::token::{context_after, next_token};
use lexemes::{Context, LexemeError};
use tokens::{clear_behind, kind, number, put_record};

// Why a text's tokens are not written.
#[derive(Clone, Copy, Debug, PartialEq, Eq)]
pub enum LexError {
    TextTooLong,
    // What is wrong with its bytes, and the first byte of what is refused.
    Refused(LexemeError, usize),
    // The tokens needed.
    TokensTooShort(usize),
}

// The first pass, which writes nothing: how many tokens a text has. By `while`, as the second is, and not by an iterator of tokens: it would need a clause of its own, that what it
// gives is the reading's rest, beside each loop's invariant, and the loops take different items of it, a `Skip` and a `Token`, and go on with the place where it ended.
fn count(text: &[u8]) -> Result<usize, LexError>
    requires { length text.now ≤ most_bytes }
    ensures { Counts (reading text.now) result }
{
    let mut c = Context::Out;
    let mut s = 0;
    let mut n = 0;
    while s < text.len() {
        let skip = next_skip(&text[s..], c, s).map_err(|error| LexError::Refused(error, s))?;
        c = skip.context;
        s = skip.next;
        n += 1;
    }
    Ok(n + 1)
}

// The second pass: the tokens, up to a refusal.
fn write(text: &[u8], list: &mut [u32])
    requires { length text.now ≤ most_bytes }
    ensures { list.new ≡ put_all token_width list.old 0 (reading text.now).tokens }
{
    let mut c = Context::Out;
    let mut s = 0;
    let mut n = 0;
    while s < text.len() {
        let Ok(token) = next_token(&text[s..], c, s) else {
            return;
        };
        put_record(list, n, &[token.kind, token.start, token.end, token.extra]);
        c = context_after(c, token.kind);
        s = token.next;
        n += 1;
    }
    put_record(list, n, &[kind::EOF, s as u32, s as u32, 0]);
}

// The call: nothing is written before it is known that the text has a reading and the list the room for it. How many tokens were written.
pub fn lex(text: &[u8], tokens: &mut [u32]) -> Result<usize, LexError>
    ensures { LexCall text.now tokens.old result tokens.new }
{
    if number::MOST_BYTES < text.len() {
        return Err(LexError::TextTooLong);
    }
    let n = count(text)?;
    // Two tests for the two halves of `NoRoom`, of any list and of this one; edits/lexer/room_of_the_list changes the second alone.
    if number::MOST_TOKENS < n {
        return Err(LexError::TokensTooShort(n));
    }
    if tokens.len() / number::TOKEN_WIDTH < n {
        return Err(LexError::TokensTooShort(n));
    }
    write(text, tokens);
    clear_behind(tokens, n, number::TOKEN_WIDTH);
    Ok(n)
}
