// A refusal of what is read: what is wrong, and the cursor.
use std::marker::Model;

// What is wrong, by document 01's table of numbers: the reading's own.
#[derive(Clone, Copy, Debug, PartialEq, Eq)]
pub enum Wrong {
    UnexpectedType = 1,
    InvalidDefinition = 2,
    InvalidConstantValue = 3,
    InvalidPush = 4,
    InvalidTokenInMacroBody = 5,
    InvalidTokenInLabelDefinition = 6,
    InvalidTypeAsArgumentName = 7,
    InvalidArgs = 8,
    InvalidSingleArg = 9,
    InvalidMacroArgs = 10,
    InvalidTableBodyToken = 11,
    InvalidConstant = 12,
    InvalidArgCallIdent = 13,
    DuplicateMacro = 20,
    PoundAtTopLevel = 21,
    DuplicateLabel = 22,
}

// Contracts see its number and its cursor, and have the fields back from these.
#[derive(Clone, Copy, Debug)]
pub struct Refusal {
    why: Wrong,
    at: usize,
}

impl Model for Refusal {
    ghost use Rattle.std.specs.Prelude.{ℕ};
    ghost use Rattle.tokens.specs.Refusal.{wrong_number, wrong_of, wrong_again};

    ghost Value = { ℕ × ℕ };

    ghost view = { λ r. (wrong_number r.why, r.at) };

    ghost inverse = { λ seen. record { why = wrong_of seen.0; at = seen.1 } };

    ghost inverse_ok = { λ r h i. record { why = wrong_again r.why i; at = r.at } };
}

impl Refusal {
    ghost use Rattle.std.specs.Prelude.{◌≡◌};
    ghost use Rattle.tokens.specs.Refusal.{wrong_number};

    pub fn new(wrong: Wrong, at: usize) -> Refusal
        ensures { result ≡ (wrong_number wrong, at) }
    {
        Refusal { why: wrong, at }
    }

    // What is wrong.
    pub fn wrong(&self) -> Wrong
        ensures { wrong_number result ≡ self.now.0 }
    {
        self.why
    }

    // Its number.
    pub fn number(&self) -> u32
        ensures { result ≡ self.now.0 }
    {
        self.wrong() as u32
    }

    // Its cursor.
    pub fn at(&self) -> usize
        ensures { result ≡ self.now.1 }
    {
        self.at
    }
}
