// Value pushes: the Rust's `is_value_push` and `push_overflows`.
ghost use Rattle.std.specs.Prelude.{◌≡◌, not};
ghost use Rattle.tokens.specs.Push.{is_value_push, push_size, fits};

use crate::literal::significant_bytes;

// The bytes 0x60 to 0x7f.
#[tactic(auto, using(crate::proofs::LiteralLaws::inside, crate::proofs::LiteralLaws::under, crate::proofs::LiteralLaws::over), unfolding(crate::specs::Push::is_value_push))]
pub fn is_value_push(byte: u32) -> bool
    ensures { result ≡ is_value_push byte }
{
    matches!(byte, 0x60..=0x7f)
}

// The bytes that a value push takes: n = byte - 0x5f. 0 for a byte below, and no Option: the promise, `push_size` (specs/Push), is named in docs/PROMISES.md and says 0.
#[tactic(auto, unfolding(crate::specs::Push::push_size))]
pub fn push_size(byte: u32) -> usize
    ensures { result ≡ push_size byte }
{
    byte.saturating_sub(0x5f) as usize
}

// The literal has more significant bytes than the push takes.
#[tactic(auto, using(crate::proofs::LiteralLaws::ltb_not_leb, crate::proofs::LiteralLaws::nothing_fits, crate::proofs::LiteralLaws::few_digits_fit), unfolding(crate::specs::Push::fits, crate::specs::Push::push_size))]
pub fn push_overflows(byte: u32, literal: &[u8]) -> bool
    ensures { result ≡ not (fits byte literal.now) }
{
    let size = push_size(byte);
    if size == 0 {
        return true;
    }
    // Two digits a byte always fit, and most literals have no more.
    if literal.len() <= 2 * size + 2 {
        return false;
    }
    size < significant_bytes(literal)
}
