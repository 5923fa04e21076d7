// A part of a text.
ghost use Rattle.std.specs.Prelude.{◌≡◌};
ghost use Rattle.tokens.specs.Token.{part};

// The bytes of a text from start up to end, as a part of the text: what lies past its end is left out.
#[tactic(auto, using(crate::proofs::Laws::part_clamped))]
pub fn part_of(text: &[u8], start: usize, end: usize) -> &[u8]
    ensures { result.now ≡ part text.now start end }
{
    let upto = end.min(text.len());
    let from = start.min(upto);
    &text[from..upto]
}
