// The answers, through a buffer. Memory is fixed here, with no heap: a BufWriter has a Vec.
use crate::filled::Filled;
use std::fmt;
use std::fmt::{Display, Formatter, Write};
use std::io::{Print, Stdout};

const OUT_ROOM: usize = 4096;

// Where answers go. What waits in the buffer is written out where that is full, or where it is flushed.
#[derive(Drop)]
pub struct Out {
    waiting: Filled<u8, OUT_ROOM>,
    to: Stdout,
}

impl Out {
    pub fn new(to: Stdout) -> Out {
        Out {
            waiting: Filled::new(0),
            to,
        }
    }

    // What can't be written is lost, and the next line is answered all the same.
    pub fn flush(&mut self) {
        let _ = self.to.write_all(self.waiting.items());
        self.waiting.clear();
    }

    fn put(&mut self, byte: u8) {
        if self.waiting.push(byte).is_err() {
            self.flush();
            let _ = self.waiting.push(byte);
        }
    }
}

impl Write for Out {
    fn write_str(&mut self, text: &str) -> fmt::Result {
        for byte in text.as_bytes() {
            self.put(*byte);
        }
        Ok(())
    }
}

// Items with a text between each two.
#[derive(Clone, Copy)]
pub struct Joined<'a, T>(pub &'a [T], pub &'a str);

impl<T: Display> Display for Joined<'_, T> {
    fn fmt<W: Write>(&self, f: &mut Formatter<W>) -> fmt::Result {
        let Joined(items, between) = self;
        for (i, item) in items.iter().enumerate() {
            if i != 0 {
                f.write_str(between)?;
            }
            write!(f, "{item}")?;
        }
        Ok(())
    }
}
