// A line of the input, byte by byte: docs/CASES.md, "A case". The line itself is not held: its text and its numbers are, and where in it the next byte stands.
ghost use Rattle.std.specs.Prelude.{◌≡◌, ◌+◌, ◌*◌, IfSome};

use crate::filled::{Filled, Full};
use crate::room::{BEFORE_WORDS, NUMBERS_ROOM, TEXT_ROOM};
use tokens::{digit_value, is_hex};

// How many numbers stand before EDITION.
const BEFORE_EDITION: usize = 1;

// A number has at most so many digits, and is at most what 32 bits hold.
const MOST_DIGITS: usize = 10;

// The entries: a whole file, one body, a text that is cut into tokens.
#[derive(Clone, Copy, PartialEq, Eq)]
pub enum Entry {
    File,
    Body,
    Lexer,
}

impl Entry {
    // No TryFrom: it would need an error type that nobody reads.
    fn of(letter: u8) -> Option<Entry> {
        match letter {
            b'F' => Some(Entry::File),
            b'B' => Some(Entry::Body),
            b'L' => Some(Entry::Lexer),
            _ => None,
        }
    }

    // How many numbers stand before TEXT: MODE to ARGS, or TOKENS alone.
    fn before_text(self) -> usize {
        match self {
            Entry::Lexer => 1,
            Entry::File | Entry::Body => BEFORE_WORDS,
        }
    }

    // What stands behind TEXT: WORDS, or of a text that is cut nothing.
    fn behind_text(self) -> Option<Place> {
        match self {
            Entry::Lexer => None,
            Entry::File | Entry::Body => Some(Place::Words(self)),
        }
    }
}

// Where in a line its next byte stands: at the entry, in the numbers before the text, in the text, in the words. An end is behind the entry's letter or behind a `-`.
#[derive(Clone, Copy)]
enum Place {
    Entry,
    EntryEnd(Entry),
    Numbers(Entry),
    // Only a file's edition is a `-`.
    EditionEnd,
    Text(Entry),
    TextEnd(Entry),
    Words(Entry),
    WordsEnd(Entry),
}

// A number as far as it has been read: how many digits, and what they write.
#[derive(Clone, Copy, Default)]
struct Number {
    digits: usize,
    value: u32,
}

impl Number {
    // With one digit more, unless it is too long or too large then. The library's readers of numbers are inside it: a case is read without them.
    fn with(self, digit: u32) -> Option<Number>
        ensures { IfSome result (λ n. (n.digits ≡ self.digits + 1) × (n.value ≡ self.value * 10 + digit)) }
    {
        if MOST_DIGITS <= self.digits {
            return None;
        }
        Some(Number {
            digits: self.digits + 1,
            value: self.value.checked_mul(10)?.checked_add(digit)?,
        })
    }
}

// What is known of a line so far.
#[derive(Drop)]
pub struct Line {
    pub text: Filled<u8, TEXT_ROOM>,
    pub numbers: Filled<u32, NUMBERS_ROOM>,
    // Whether there was room for all of them.
    pub fits: Result<(), Full>,
    // Where the next byte stands. Nowhere: the line is no case, and is only read to its end.
    place: Option<Place>,
    // The present number, if a digit of it has been read.
    number: Option<Number>,
    // What the first digit of the present byte of the text is worth in it, if it has been read.
    high: Option<u8>,
}

impl Line {
    // Before the first byte.
    pub fn new() -> Line {
        Line {
            text: Filled::new(0),
            numbers: Filled::new(0),
            fits: Ok(()),
            place: Some(Place::Entry),
            number: None,
            high: None,
        }
    }

    // The next line begins.
    pub fn restart(&mut self) {
        self.text.clear();
        self.numbers.clear();
        self.fits = Ok(());
        self.place = Some(Place::Entry);
        self.number = None;
        self.high = None;
    }

    // One byte of the line.
    pub fn read(&mut self, byte: u8) {
        self.place = self.place_behind(byte);
    }

    // The line's end: of a case, it stands in or behind the last field. Which entry the case is for, if it is one.
    pub fn end(&mut self) -> Option<Entry> {
        match self.place? {
            Place::Text(Entry::Lexer) => {
                self.end_text()?;
                Some(Entry::Lexer)
            }
            Place::TextEnd(Entry::Lexer) => Some(Entry::Lexer),
            Place::Words(entry) => {
                self.end_number()?;
                Some(entry)
            }
            Place::WordsEnd(entry) => Some(entry),
            _ => None,
        }
    }

    // Where the byte behind this one stands. Nowhere, if the line is no case.
    fn place_behind(&mut self, byte: u8) -> Option<Place> {
        match self.place? {
            Place::Entry => Some(Place::EntryEnd(Entry::of(byte)?)),
            Place::EntryEnd(entry) => (byte == b' ').then_some(Place::Numbers(entry)),
            Place::Numbers(entry) => self.read_numbers(entry, byte),
            Place::EditionEnd => self.end_no_edition(byte),
            Place::Text(entry) => self.read_text(entry, byte),
            Place::TextEnd(entry) => (byte == b' ').then_some(entry.behind_text()?),
            Place::Words(entry) => self.read_words(entry, byte),
            Place::WordsEnd(_) => None,
        }
    }

    // Numbers, each with a space behind it; a file has none in the edition's place.
    fn read_numbers(&mut self, entry: Entry, byte: u8) -> Option<Place> {
        if entry == Entry::File && self.numbers.len() == BEFORE_EDITION {
            return (byte == b'-').then_some(Place::EditionEnd);
        }
        if byte != b' ' {
            self.read_digit(byte)?;
            return Some(Place::Numbers(entry));
        }
        self.end_number()?;
        if self.numbers.len() == entry.before_text() {
            return Some(Place::Text(entry));
        }
        Some(Place::Numbers(entry))
    }

    // The space behind the `-` of a file's edition: 0 is kept in the edition's place, since `answer_case` takes the numbers
    // by their places. The call for a file has no edition, so nobody reads it.
    fn end_no_edition(&mut self, byte: u8) -> Option<Place> {
        self.keep_number(0);
        (byte == b' ').then_some(Place::Numbers(Entry::File))
    }

    // Bytes of two hex digits each and a space, or `-`.
    fn read_text(&mut self, entry: Entry, byte: u8) -> Option<Place> {
        match byte {
            b' ' => {
                self.end_text()?;
                entry.behind_text()
            }
            b'-' => (self.text.len() == 0 && self.high.is_none()).then_some(Place::TextEnd(entry)),
            _ => {
                self.read_hex(byte)?;
                Some(Place::Text(entry))
            }
        }
    }

    // Numbers joined by commas, or `-`. The line's end ends the last number.
    fn read_words(&mut self, entry: Entry, byte: u8) -> Option<Place> {
        match byte {
            b',' => self.end_number()?,
            b'-' => {
                let none = self.numbers.len() == BEFORE_WORDS && self.number.is_none();
                return none.then_some(Place::WordsEnd(entry));
            }
            _ => self.read_digit(byte)?,
        }
        Some(Place::Words(entry))
    }

    // A decimal digit of the present number.
    fn read_digit(&mut self, byte: u8) -> Option<()> {
        let digit = char::from(byte).to_digit(10)?;
        self.number = Some(self.number.unwrap_or_default().with(digit)?);
        Some(())
    }

    // The present number is whole, and the next one begins.
    fn end_number(&mut self) -> Option<()> {
        let number = self.number.take()?;
        self.keep_number(number.value);
        Some(())
    }

    fn keep_number(&mut self, number: u32) {
        self.fits = self.fits.and(self.numbers.push(number));
    }

    // A hex digit of the text, which the library reads, so that the sample shows a digit that is worth something else: the first of a byte is kept in hand, the second
    // makes it whole.
    #[tactic(auto, using(tokens::proofs::LiteralLaws::digit_lt))]
    fn read_hex(&mut self, byte: u8) -> Option<()> {
        if !is_hex(byte) {
            return None;
        }
        let digit = digit_value(byte) as u8;
        match self.high.take() {
            None => self.high = Some(digit * 16),
            Some(high) => self.fits = self.fits.and(self.text.push(high | digit)),
        }
        Some(())
    }

    // The text ends behind a whole byte.
    fn end_text(&self) -> Option<()> {
        (self.text.len() != 0 && self.high.is_none()).then_some(())
    }
}
