// What comes first in a text: a byte, bytes that are known, how many bytes of a class.
ghost use Rattle.std.specs.Prelude.{◌+◌, ℕ, ◌≤◌, ◌<◌, ◌≡◌, Bool, MatchOption, length, get_or, drop};
ghost use Rattle.lexemes.specs.Bytes.{begins, is_space, is_digit, is_word_byte, in_line, in_quotes};
ghost use Rattle.lexemes.specs.Reader.{run, closing, opened};

use tokens::same_name;

// The byte at a place, past the end 0, which no rule names.
pub fn byte_at(bytes: &[u8], i: usize) -> u8
    ensures { result ≡ get_or bytes.now i 0 }
{
    bytes.get(i).copied().unwrap_or(0)
}

// The bytes begin with these. `starts_with` was tried: with it, and strings in one arm of `lexeme_first`, the lexer took 36 ns a token in place of 26 on names and 43 in place of 33 on
// white space.
pub fn begins_with(bytes: &[u8], what: &[u8]) -> bool
    ensures { result ≡ begins what.now bytes.now }
{
    what.len() <= bytes.len() && same_name(&bytes[..what.len()], what)
}

#[tactic(auto, unfolding(lexemes::specs::Bytes::is_space))]
pub fn is_space(b: u8) -> bool
    ensures { result ≡ is_space b }
{
    matches!(b, b' ' | b'\t' | b'\r' | b'\n')
}

// Joined by | and &, here and below: `is_ascii_digit` and `is_ascii_alphanumeric` were tried, and a text of words took a fifth longer (bench/README.md).
#[tactic(auto, unfolding(lexemes::specs::Bytes::is_digit))]
pub fn is_digit(b: u8) -> bool
    ensures { result ≡ is_digit b }
{
    (b'0' <= b) & (b <= b'9')
}

// A letter, a digit or an underscore.
#[tactic(auto, unfolding(lexemes::specs::Bytes::is_word_byte))]
pub fn is_letter(b: u8) -> bool
    ensures { result ≡ is_word_byte b }
{
    is_digit(b) | ((b'A' <= b) & (b <= b'Z')) | (b == b'_') | ((b'a' <= b) & (b <= b'z'))
}

// The byte can stand in a line.
#[tactic(auto, unfolding(lexemes::specs::Bytes::in_line))]
pub fn in_line(b: u8) -> bool
    ensures { result ≡ in_line b }
{
    b != b'\n'
}

// The byte can stand in a string between these quotes.
#[tactic(auto, unfolding(lexemes::specs::Bytes::in_quotes))]
pub fn in_quotes(quote: u8, b: u8) -> bool
    ensures { result ≡ in_quotes quote b }
{
    (b != quote) & in_line(b)
}

// How many bytes of a class come first.
pub fn run_of<F: Fn(u8) -> bool>(bytes: &[u8], is_in: F) -> usize
    requires { F.IsAlwaysCallable is_in }
    ensures value { (class : ℕ → Bool) → ((b : ℕ) (r : Bool) → b < 256 → F.post is_in b r → r ≡ class b) → result ≡ run class bytes.now }
    ensures result_in_bounds { result ≤ length bytes.now }
{
    bytes.iter().position(|b| !is_in(*b)).unwrap_or(bytes.len())
}

// How many bytes of a line come first, and how many that can stand between these quotes. Not inline: where the lexer's two passes have these loops, the code around them says
// how they lie, and a long string or comment took up to twice as long (bench/README.md).
#[inline(never)]
pub fn line_of(bytes: &[u8]) -> usize
    ensures value { result ≡ run in_line bytes.now }
    ensures result_in_bounds { result ≤ length bytes.now }
{
    run_of(bytes, in_line)
}

#[inline(never)]
pub fn quoted_of(quote: u8, bytes: &[u8]) -> usize
    ensures value { result ≡ run (in_quotes quote) bytes.now }
    ensures result_in_bounds { result ≤ length bytes.now }
{
    run_of(bytes, |b| in_quotes(quote, b))
}

// A comment's end begins at this byte, which is not the last.
fn closes(bytes: &[u8], i: usize) -> bool
    requires { i + 1 < length bytes.now }
    ensures { result ≡ closing (drop i bytes.now) }
{
    bytes[i] == b'*' && bytes[i + 1] == b'/'
}

// How many bytes come before the first end of a comment. `windows(2)` with `position` was tried: from what its runs promise the search does not come to the first place of the two
// bytes, as it does from `iter`'s in `run_of`.
pub fn comment_end(bytes: &[u8]) -> Option<usize>
    ensures { MatchOption result (length bytes.now ≤ opened bytes.now) (λ n. (n < length bytes.now) × (n ≡ opened bytes.now)) }
{
    // the last byte begins no end: where it was asked too, a comment of stars took up to half as long again (bench/README.md)
    let last = bytes.len().saturating_sub(1);
    for i in 0..last {
        if closes(bytes, i) {
            return Some(i);
        }
    }
    None
}
