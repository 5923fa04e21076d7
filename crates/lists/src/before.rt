// How many records stand before the tables that a reader is lent. No part of what the reader counts, though records are numbered by both: they are written by its count
// alone, since the lent tables begin behind these.
#[derive(Clone, Copy)]
pub struct Before {
    pub statements: usize,
    pub arguments: usize,
}
