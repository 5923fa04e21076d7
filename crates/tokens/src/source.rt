// What every reader reads: a text, its tokens, and the kept list that the door wrote of them. A token is looked at by its place in the kept list. Every place may be asked
// but of `start_inside` and `end_inside`: past the end stands an Eof with no text.
ghost use Rattle.tokens.specs.Place.{Numbered};

use crate::number;
use crate::part::part_of;

// That the numbers of the kept list are those of tokens is the door's promise, so it is not tested again for each token. The invariant is this alone, `Numbered`, and not all that
// the door promises (`FromDoor`: at most 65,536 as well, and one behind the other in the text): the accessors by place, which docs/PROMISES.md names, ask no more of the kept list,
// and may ask no more, so a `Source` can be made of a list that no door wrote. What a reader needs beyond is therefore in clauses: `FromDoor`, `Place`, and above `Reading`, `Counting`.
// The three slices are those that C lends.
//
// Two lifetimes: what `text_at` answers is lent of the text alone, and outlives tokens and kept list.
#[derive(Clone, Copy)]
pub struct Source<'a, 'b> {
    pub text: &'a [u8],
    pub tokens: &'b [u32],
    pub kept: &'b [u32],
    ghost numbered: { Numbered tokens.now kept.now },
}

impl<'a, 'b> Source<'a, 'b> {
    ghost use Rattle.std.specs.Prelude.{◌≡◌, ◌+◌, ◌*◌, ◌≤◌, ◌<◌, length, get_or};
    ghost use Rattle.tokens.specs.Number.{token_width};
    ghost use Rattle.tokens.specs.Token.{positions};
    ghost use Rattle.tokens.specs.Place.{field_at, start_at, end_at, extra_at, text_at, KindAt};

    // Word j of the token at a place inside the kept list: kind, start, end, extra. A number and no enum: `field_at` (specs/Place) takes the word's number, and so does the index.
    fn word_inside(&self, p: usize, j: usize) -> u32
        requires p_in_bounds { p < length self.now.kept.now }
        requires j_bound { j ≤ 3 }
        ensures { result ≡ get_or self.now.tokens.now (get_or self.now.kept.now p 0 * token_width + j) 0 }
    {
        let number = self.kept[p] as usize;
        self.tokens[number * number::TOKEN_WIDTH + j]
    }

    // Where the token at a place inside the kept list starts in the text. A test of the place would cost a file of constants 5 in 100.
    pub fn start_inside(&self, p: usize) -> u32
        requires { p < length self.now.kept.now }
        ensures { result ≡ (positions self.now.tokens.now self.now.kept.now).start p }
    {
        self.word_inside(p, 1)
    }

    // Where it ends.
    pub fn end_inside(&self, p: usize) -> u32
        requires { p < length self.now.kept.now }
        ensures { result ≡ (positions self.now.tokens.now self.now.kept.now).end p }
    {
        self.word_inside(p, 2)
    }

    // Word j of the token at place p, past the end 0: no Option, as the definition `field_at` says 0 there.
    fn field_at(&self, p: usize, j: usize) -> u32
        requires { j ≤ 3 }
        ensures { result ≡ field_at j self.now.tokens.now self.now.kept.now p }
    {
        if p < self.kept.len() {
            self.word_inside(p, j)
        } else {
            0
        }
    }

    // The kind at place p. A kind that is not Eof's tells that p lies inside the kept list.
    pub fn kind_at(&self, p: usize) -> u32
        ensures { KindAt self.now.tokens.now self.now.kept.now p result }
    {
        self.field_at(p, 0)
    }

    // Where the text of the token at place p starts.
    fn start_at(&self, p: usize) -> u32
        ensures { result ≡ start_at self.now.tokens.now self.now.kept.now p }
    {
        self.field_at(p, 1)
    }

    // Where it ends.
    fn end_at(&self, p: usize) -> u32
        ensures { result ≡ end_at self.now.tokens.now self.now.kept.now p }
    {
        self.field_at(p, 2)
    }

    // Its extra: an opcode's byte, a number's value.
    pub fn extra_at(&self, p: usize) -> u32
        ensures { result ≡ extra_at self.now.tokens.now self.now.kept.now p }
    {
        self.field_at(p, 3)
    }

    // The text of the token at place p, as a part of the text.
    pub fn text_at(&self, p: usize) -> &'a [u8]
        ensures { result.now ≡ text_at self.now.text.now self.now.tokens.now self.now.kept.now p }
    {
        part_of(
            self.text,
            self.start_at(p) as usize,
            self.end_at(p) as usize,
        )
    }
}
