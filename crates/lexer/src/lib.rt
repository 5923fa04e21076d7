// The lexer: a text's bytes in, and the tokens that they are out.
#![tactic(auto)]

mod call;
mod class;
mod lexeme;
mod skip;
mod token;
mod word;

pub use call::{LexError, lex};
