// The plain length of an accepted body, in either edition: `short` says that one byte pushes a zero. Only a body call answers it, so it has a walk of its own
// and costs a file's reading nothing.
ghost use Rattle.std.specs.Prelude.{◌≡◌, ◌≤◌};
ghost use Rattle.tokens.specs.Token.{token_at};
ghost use Rattle.tokens.specs.Place.{KindAt, Place};
ghost use Rattle.grammar.specs.PlainLength.{literal_bytes};
ghost use Rattle.statements.specs.Length.{plain_kind, taken_by, own_token_bytes, length_from, length_told};
ghost use Rattle.tokens.specs.Source.{all};

use tokens::{Source, is_value_push, is_zero, kind, push_overflows, push_size, significant_bytes};

// A kind that a body with a length may have between its braces.
#[tactic(auto, unfolding(crate::specs::Length::plain_kind))]
fn is_plain(k: u32) -> bool
    ensures { result ≡ plain_kind k }
{
    matches!(
        k,
        kind::LITERAL | kind::OPCODE | kind::IDENT | kind::LABEL | kind::COLON
    )
}

// Whether the token at p, whose kind is k, is the operand of a value push of this byte: a literal that fits.
#[tactic(auto, using(crate::proofs::LengthLaws::taken_literal_at, crate::proofs::LengthLaws::taken_no_literal))]
fn is_operand(source: &Source, byte: u32, p: usize, k: u32) -> bool
    requires kind_at { KindAt source.now.tokens.now source.now.kept.now p k }
    ensures { result ≡ taken_by byte (token_at (all source.now) p) }
{
    k == kind::LITERAL && !push_overflows(byte, source.text_at(p))
}

// The bytes of the literal at p that is no push's operand.
fn literal_bytes(source: &Source, short: bool, p: usize) -> usize
    ensures { result ≡ literal_bytes short (token_at (all source.now) p) }
{
    let literal = source.text_at(p);
    if short && is_zero(literal) {
        return 1;
    }
    significant_bytes(literal) + 1
}

// The bytes of the token at p, whose kind is k, where it is no operand.
#[tactic(auto, using(lists::proofs::At::kind_here, grammar::proofs::Lengths::literal_most), unfolding(crate::specs::Length::own_token_bytes))]
fn own_bytes(source: &Source, short: bool, p: usize, k: u32) -> usize
    requires kind_at { KindAt source.now.tokens.now source.now.kept.now p k }
    ensures value { result ≡ own_token_bytes short (token_at (all source.now) p) }
    ensures upper_bound { result ≤ 33 }
{
    match k {
        kind::LITERAL => literal_bytes(source, short, p),
        kind::IDENT => 3,
        kind::COLON => 0,
        _ => 1,
    }
}

// The bytes of the body at `start`, unless one of its statements has no length or one of its pushes no operand. `byte` is that of the opcode before the token
// at p, 0 where another token stands there: 0 is no push's byte, and `is_value_push` is asked of `byte` in any case, so an Option would be asked twice. Opcodes come
// first, since most tokens are.
pub fn plain_length(source: &Source, short: bool, start: usize) -> Option<usize>
    requires { Place source.now.tokens.now source.now.kept.now start }
    ensures { result ≡ length_told (length_from short (all source.now) start) }
{
    let mut byte = 0;
    let mut bytes = 0;
    for p in start + 1..source.kept.len() {
        let k = source.kind_at(p);
        if k == kind::OPCODE {
            if is_value_push(byte) {
                return None;
            }
            bytes += 1;
            byte = source.extra_at(p);
            continue;
        }
        if is_value_push(byte) {
            if !is_operand(source, byte, p, k) {
                return None;
            }
            bytes += push_size(byte);
            byte = 0;
            continue;
        }
        if k == kind::CLOSE_BRACE {
            return Some(bytes);
        }
        if !is_plain(k) {
            return None;
        }
        bytes += own_bytes(source, short, p, k);
        byte = 0;
    }
    None
}
