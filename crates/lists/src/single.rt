// The Rust's `parse_single_arg`: a number in parentheses.
ghost use Rattle.std.specs.Prelude.{ℕ, List};
ghost use Rattle.grammar.specs.Typed.{single_number};
ghost use Rattle.tokens.specs.Place.{Place, tokens_from};
ghost use Rattle.lists.specs.Answers.{SingleRead};
ghost use Rattle.tokens.specs.Source.{count};

use tokens::{Refusal, Source, Wrong, kind};

// The number and the place behind its `)`.
#[derive(Clone, Copy)]
pub struct Single {
    pub number: u32,
    pub end: usize,
}

// `(` Num `)`, whatever the text.
#[tactic(auto, using(crate::proofs::SingleLaws::single_unopened, crate::proofs::SingleLaws::single_numberless, crate::proofs::SingleLaws::single_unclosed, crate::proofs::SingleLaws::single_closed))]
pub fn parse_single_arg(source: &Source, p: usize) -> Result<Single, Refusal>
    requires { Place source.now.tokens.now source.now.kept.now p }
    ensures { (text : List ℕ) → SingleRead p (count source.now) (single_number p (tokens_from text source.now.tokens.now source.now.kept.now p)) result }
{
    if source.kind_at(p) != kind::OPEN_PAREN {
        return Err(Refusal::new(Wrong::UnexpectedType, p));
    }
    if source.kind_at(p + 1) != kind::NUM {
        return Err(Refusal::new(Wrong::InvalidSingleArg, p + 1));
    }
    let number = source.extra_at(p + 1);
    if source.kind_at(p + 2) != kind::CLOSE_PAREN {
        return Err(Refusal::new(Wrong::UnexpectedType, p + 2));
    }
    Ok(Single { number, end: p + 3 })
}
