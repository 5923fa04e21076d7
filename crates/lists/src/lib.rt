// Lists of arguments, and a number in parentheses: what the statement and the definition layer read alike.
#![tactic(auto)]

mod argument;
mod before;
mod list;
mod single;

pub use argument::Sort;
pub use before::Before;
pub use list::{ArgList, parse_args};
pub use single::{Single, parse_single_arg};
