// The door: refusals 30, 35 and 31, in that order, before anything lent is written; then the kept list.
// Text and tokens go on as two slices, as C lends them: a `Source` can be made of them only when the kept list is written.
ghost use Rattle.std.specs.Prelude.{◌≡◌, ◌<◌, ◌≤◌, true, false, cond, ◌&&◌, ltb, eqb, length, Some, None};
ghost use Rattle.std.proofs.lemmas.List.Edits.{sets};
ghost use Rattle.tokens.specs.Kind.{kinds, Eof};
ghost use Rattle.tokens.specs.Token.{token_count, numbers};
ghost use Rattle.tokens.specs.WellFormed.{range_good, eof_good, contents_good, whole_good, good_after, first_bad};
ghost use Rattle.tokens.specs.Kept.{dropped, kept_of};
ghost use Rattle.tokens.specs.Keep.{EofLast};
ghost use Rattle.tokens.specs.Door.{values, door, Prepared};

use crate::literal::is_literal;
use crate::part::part_of;
use crate::{kind, number};

// Why the door lets nothing through, with the cursor.
#[derive(Clone, Copy, Debug, PartialEq, Eq)]
pub enum Unready {
    // 30: the first bad token's number, or 0 for the whole list. One variant, since document 01's cursor is 0 for token 0 too (`door`, specs/Door).
    NotWellFormed(usize),
    // 35: the kept count.
    KeptTooShort(usize),
    // 31: the start.
    StartOutside(usize),
}

// start ≤ end ≤ text length; start at or after the previous end.
#[tactic(auto, unfolding(crate::specs::WellFormed::range_good))]
fn range_good(size: usize, prev: u32, start: u32, end: u32) -> bool
    ensures { result ≡ range_good size prev start end }
{
    prev <= start && start <= end && end as usize <= size
}

// The last token is Eof, which has no extra. The word is called `kind` like the module here and below: a name doesn't hide the path `kind::EOF`.
fn last_good(kind: u32, extra: u32) -> bool
    ensures { result ≡ (eqb kind Eof && eqb extra 0) }
{
    kind == kind::EOF && extra == 0
}

// What a token that is not the last one is asked by its kind: a known one, no Eof, text and extra as they should be. Most tokens are of a kind without a
// text or an extra of its own, so that is asked first. The words come one by one, as the definition `contents_good` takes them and the walk has them.
#[tactic(auto, using(crate::proofs::DoorLaws::asked_plain, crate::proofs::DoorLaws::not_plain, crate::proofs::DoorLaws::asked_opcode, crate::proofs::DoorLaws::asked_number, crate::proofs::DoorLaws::asked_extra, crate::proofs::DoorLaws::asked_literal, crate::proofs::DoorLaws::asked_eof, crate::proofs::DoorLaws::asked_name, crate::proofs::DoorLaws::asked_rest))]
fn contents_good(text: &[u8], kind: u32, start: u32, end: u32, extra: u32) -> bool
    ensures { result ≡ (ltb kind kinds && eof_good false kind && contents_good text.now kind start end extra) }
{
    if (kind != kind::EOF) & (kind < kind::IDENT) {
        return extra == 0;
    }
    if kind == kind::OPCODE {
        return extra <= number::MOST_BYTE;
    }
    if kind == kind::NUM {
        return true;
    }
    if extra != 0 {
        return false;
    }
    let part = part_of(text, start as usize, end as usize);
    if kind == kind::LITERAL {
        return is_literal(part);
    }
    if kind == kind::EOF {
        return false;
    }
    if kind < kind::LITERAL {
        return 0 < part.len();
    }
    kind < kind::KINDS
}

// Token number i is as it should be, where the one before it ends at prev.
#[tactic(auto, using(crate::proofs::DoorLaws::asked_last, crate::proofs::Laws::said_no, crate::proofs::Laws::said_yes), unfolding(crate::specs::WellFormed::good_after))]
fn token_good(text: &[u8], tokens: &[u32], prev: u32, i: usize) -> bool
    requires { i < token_count tokens.now }
    ensures { result ≡ good_after text.now tokens.now prev i }
{
    let kind = tokens[i * number::TOKEN_WIDTH];
    let start = tokens[i * number::TOKEN_WIDTH + 1];
    let end = tokens[i * number::TOKEN_WIDTH + 2];
    let extra = tokens[i * number::TOKEN_WIDTH + 3];
    if !range_good(text.len(), prev, start, end) {
        return false;
    }
    if i + 1 == tokens.len() / number::TOKEN_WIDTH {
        return last_good(kind, extra);
    }
    contents_good(text, kind, start, end, extra)
}

// The first bad token's number; the number of tokens if none is bad. It goes by the number, which is the answer, and by which `good_after` (specs/WellFormed) asks.
#[tactic(auto, using(crate::proofs::DoorLaws::good_is, crate::proofs::DoorLaws::bad_later, crate::proofs::DoorLaws::bad_here, crate::proofs::DoorLaws::bad_none, crate::proofs::DoorLaws::prev_next, crate::proofs::Laws::said_no, crate::proofs::Laws::said_yes), unfolding(crate::specs::WellFormed::prev_end, crate::specs::WellFormed::first_bad))]
fn first_bad(text: &[u8], tokens: &[u32]) -> usize
    ensures { result ≡ first_bad text.now tokens.now }
{
    let n = tokens.len() / number::TOKEN_WIDTH;
    let mut prev: u32 = 0;
    for i in 0..n {
        if !token_good(text, tokens, prev, i) {
            return i;
        }
        prev = tokens[i * number::TOKEN_WIDTH + 2];
    }
    n
}

// The tests on the whole list.
#[tactic(auto, unfolding(crate::specs::WellFormed::whole_good))]
fn whole_good(text: &[u8], tokens: &[u32]) -> bool
    ensures { result ≡ whole_good text.now tokens.now }
{
    let n = tokens.len() / number::TOKEN_WIDTH;
    text.len() <= number::MOST_BYTES
        && tokens.len() % number::TOKEN_WIDTH == 0
        && 0 < n
        && n <= number::MOST_TOKENS
}

// 1 for a token that is kept, 0 for one that is dropped: white space and comments, the two kinds that are numbered next to Eof's. A number to be added, so that the walks have no
// branch: which kind comes can't be foreseen.
#[tactic(auto, using(crate::proofs::DoorLaws::dropped_first, crate::proofs::DoorLaws::kept_late))]
fn kept_one(kind: u32) -> usize
    requires { 0 < kind }
    ensures { result ≡ cond (dropped kind) 0 1 }
{
    usize::from(kind::COMMENT < kind)
}

// The kept count of a list in which no token is bad. That a token ends inside the text is asked of the last one alone, since every token ends at or behind the
// end of the one before it; which token is the first bad one is not asked here. The tests stand apart and in this order: small changes lay this loop badly
// (bench/README.md).
fn count_good(text: &[u8], tokens: &[u32]) -> Option<usize>
    requires { whole_good text.now tokens.now ≡ true }
    ensures { result ≡ cond (ltb (first_bad text.now tokens.now) (token_count tokens.now)) None (Some (length (kept_of tokens.now))) }
{
    let last = tokens.len() - number::TOKEN_WIDTH;
    let mut count = 1;
    let mut prev: u32 = 0;
    // By the place of a token's words, and no `for` or pattern over arrays of four words: with these the loop's jumps lie so that, at every other place where a linker can put the
    // function, one of them is decoded anew for each token, and a list of comments takes half as long again (bench/README.md).
    let mut at = 0;
    while at < last {
        let kind = tokens[at];
        let start = tokens[at + 1];
        let end = tokens[at + 2];
        if start < prev {
            return None;
        }
        if end < start {
            return None;
        }
        if !contents_good(text, kind, start, end, tokens[at + 3]) {
            return None;
        }
        count += kept_one(kind);
        prev = end;
        at += number::TOKEN_WIDTH;
    }
    if !range_good(text.len(), prev, tokens[at + 1], tokens[at + 2]) {
        return None;
    }
    if !last_good(tokens[at], tokens[at + 3]) {
        return None;
    }
    Some(count)
}

// Writes the kept list; its words beyond are untouched. No branch: a dropped token's number is written as well, and the next kept one's over it, for the last
// token is kept. By the token's number, since that is what is written; an iterator over arrays of four words would have to be enumerated for it.
fn keep(tokens: &[u32], kept: &mut [u32])
    requires tokens_bound { token_count tokens.now ≤ 65536 }
    requires tokens_in_bounds { length (kept_of tokens.now) ≤ length kept.old }
    requires eof_last { EofLast tokens.now }
    ensures { kept.new ≡ sets kept.old 0 (kept_of tokens.now) }
{
    let last = tokens.len() / number::TOKEN_WIDTH - 1;
    let mut m = 0;
    for i in 0..last {
        kept[m] = i as u32;
        m += kept_one(tokens[i * number::TOKEN_WIDTH]);
    }
    kept[m] = last as u32;
}

// The numbers of n tokens of which none is dropped.
#[tactic(auto, using(crate::proofs::DoorLaws::numbers_turn, crate::proofs::DoorLaws::numbers_none))]
fn keep_all(kept: &mut [u32], n: usize)
    requires { (n ≤ 65536) × (n ≤ length kept.old) }
    ensures { kept.new ≡ sets kept.old 0 (numbers 0 n) }
{
    for (i, number) in kept[..n].iter_mut().enumerate() {
        *number = i as u32;
    }
}

// Writes the kept list of `count` numbers: without a look at the tokens where that is all of them, which saves a list without white space 8 in 100
// (bench/README.md).
#[tactic(auto, using(crate::proofs::DoorLaws::kept_is_all))]
fn write_kept(tokens: &[u32], kept: &mut [u32], count: usize)
    requires tokens_bound { token_count tokens.now ≤ 65536 }
    requires count_value { count ≡ length (kept_of tokens.now) }
    requires count_in_bounds { count ≤ length kept.old }
    requires eof_last { EofLast tokens.now }
    ensures { kept.new ≡ sets kept.old 0 (kept_of tokens.now) }
{
    if count == tokens.len() / number::TOKEN_WIDTH {
        keep_all(kept, count);
    } else {
        keep(tokens, kept);
    }
}

// The kept count of a list for which a kept list of `room` words has room; nothing is written.
#[tactic(auto, using(crate::proofs::DoorLaws::none_says, crate::proofs::DoorLaws::some_says), unfolding(crate::specs::Door::door))]
fn examine(text: &[u8], tokens: &[u32], start: usize, room: usize) -> Result<usize, Unready>
    ensures { values result ≡ door text.now tokens.now start room }
{
    if !whole_good(text, tokens) {
        return Err(Unready::NotWellFormed(0));
    }
    let Some(count) = count_good(text, tokens) else {
        return Err(Unready::NotWellFormed(first_bad(text, tokens)));
    };
    if room < count {
        return Err(Unready::KeptTooShort(count));
    }
    if count <= start {
        return Err(Unready::StartOutside(start));
    }
    Ok(count)
}

// Tests what is lent, and writes the kept list only where all of it is let through: the kept count. A file is read from start 0.
pub fn prepare(
    text: &[u8],
    tokens: &[u32],
    start: usize,
    kept: &mut [u32],
) -> Result<usize, Unready>
    ensures { Prepared text.now tokens.now start kept.old result kept.new }
{
    let count = examine(text, tokens, start, kept.len())?;
    write_kept(tokens, kept, count);
    Ok(count)
}
