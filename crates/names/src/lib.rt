// Remembered names, below all layers: is a name among them, and which label has a name that stands again?
#![tactic(auto)]

mod labels;
mod names;

pub use labels::{first_again, first_again_long, is_long};
pub use names::{Remembered, check_duplicate};
