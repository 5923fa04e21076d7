// The definition layer: one definition of a file.
#![tactic(auto)]

mod constant;
mod definition;
mod head;
mod macros;
mod record;
mod signature;
mod table;

pub use definition::read_definition;
pub use record::{DefRead, Definition, DefinitionKind, is_named};
