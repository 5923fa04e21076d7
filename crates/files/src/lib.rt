// Files: definitions up to Eof, the test for repeated names, and the entry that reads a whole file.
#![tactic(auto)]

mod entry;
mod file;

pub use entry::{FileError, read_file};
pub use file::FileRead;
