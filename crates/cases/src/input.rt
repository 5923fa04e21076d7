// The input, a byte at a time, through a buffer. Memory is fixed here, with no heap: a BufReader has its buffer from an allocator.
ghost use Rattle.std.specs.Prelude.{◌≤◌, length};

use std::io::{Read, Stdin};

const INPUT_ROOM: usize = 16384;

#[derive(Drop)]
pub struct Input {
    from: Stdin,
    buffer: [u8; INPUT_ROOM],
    // The bytes of the buffer from `at` to `end` are still to be read.
    at: usize,
    end: usize,
    // The byte that was read last.
    last: u8,

    ghost inside: { end ≤ length buffer },
}

impl Input {
    // Before the first byte. The first line begins as every other does, behind a line end.
    pub fn new(from: Stdin) -> Input {
        Input {
            from,
            buffer: [0; INPUT_ROOM],
            at: 0,
            end: 0,
            last: b'\n',
        }
    }
}

// The end of the input counts as a line end where none stands before it, so that a last line without one is answered too.
// What can't be read counts as the end.
impl Iterator for Input {
    type Item = u8;

    fn next(&mut self) -> Option<u8> {
        if self.end <= self.at {
            self.at = 0;
            self.end = self.from.read(&mut self.buffer).unwrap_or(0);
        }
        if self.at < self.end {
            self.last = self.buffer[self.at];
            self.at += 1;
            return Some(self.last);
        }
        if self.last == b'\n' {
            return None;
        }
        self.last = b'\n';
        Some(b'\n')
    }
}
