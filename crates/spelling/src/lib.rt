// How words are spelled: which of them are mnemonics, keywords and type names.
#![tactic(auto)]

mod find;
mod table;

pub use find::{kind_outside, opcode_of};
pub use table::{TABLE, made_table};
