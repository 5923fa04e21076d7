// The statement layer: the body of a macro, and the entry that reads one body.
#![tactic(auto)]

mod body;
mod choice;
mod entry;
mod item;
mod length;

pub use body::{cursor_of, is_long, named_once, named_once_long, parse_body};
pub use choice::{Edition, Mode, UnknownEdition, UnknownMode};
pub use entry::{BodyError, BodyRead, read_body};
pub use item::{Progress, Statement, StatementType, put_statement};
