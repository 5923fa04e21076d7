// How a definition begins: its keyword and its name.
ghost use Rattle.std.specs.Prelude.{ℕ, List};
ghost use Rattle.tokens.specs.Token.{view};
ghost use Rattle.tokens.specs.Place.{Place};
ghost use Rattle.definitions.specs.Pieces.{Headed};
ghost use Rattle.tokens.specs.Source.{count};

use tokens::{Refusal, Source, Wrong, kind};

// A token of this kind at p, and an Ident behind it, whatever the text. The module `kind` stands only before `::`, so the parameter may have its name.
#[tactic(auto, using(crate::proofs::DefinitionLaws::head_unkeyed, crate::proofs::DefinitionLaws::head_unnamed))]
pub fn read_head(source: &Source, kind: u32, p: usize) -> Result<(), Refusal>
    requires { Place source.now.tokens.now source.now.kept.now p }
    ensures { (text : List ℕ) → Headed (view text source.now.tokens.now source.now.kept.now) kind p (count source.now) result }
{
    if source.kind_at(p) != kind {
        return Err(Refusal::new(Wrong::UnexpectedType, p));
    }
    if source.kind_at(p + 1) != kind::IDENT {
        return Err(Refusal::new(Wrong::UnexpectedType, p + 1));
    }
    Ok(())
}
