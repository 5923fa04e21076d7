// The token layer: what is lent is tested at the door, tokens are read by their place, records are written where they fit.
// Who makes a `Source` shows that its kept list holds numbers of tokens, as the door's does. Of what is handed out only `start_inside` and `end_inside` ask anything of their
// caller: a place inside the kept list. `digit_value` and `type_of` are named in docs/PROMISES.md, so they are handed out, though no other crate here calls them.
#![tactic(auto)]

mod door;
pub mod kind;
mod lent;
mod literal;
mod name;
pub mod number;
mod part;
mod push;
mod refusal;
mod source;

pub use door::{Unready, prepare};
pub use lent::{clear, clear_behind, put_record, start_of};
pub use literal::{all_hex, digit_value, is_hex, is_zero, significant_bytes};
pub use name::{NameType, is_reserved, same_name, type_numbers, type_of, type_told};
pub use push::{is_value_push, push_overflows, push_size};
pub use refusal::{Refusal, Wrong};
pub use source::Source;
