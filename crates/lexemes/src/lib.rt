// What a text's tokens are: definitions and theorems. Of code there are only the answers of one look at a text, which the lexer and the definitions share.
#![tactic(auto)]

// Where one reads: outside braces; outside them, behind a CodeTable whose braces are still to come; inside braces; inside a code table's braces.
#[derive(Clone, Copy)]
pub enum Context {
    Out,
    Wait,
    Body,
    Code,
}

// The lexeme that begins at a byte: its kind, and how many bytes it has. A word's kind is Ident here, whichever word it is. (The definitions have a `Found` of their own, in no
// file with this one.)
#[derive(Clone, Copy)]
pub struct Found {
    pub kind: u32,
    pub length: usize,
}

// The token that begins at a byte, and where the next one begins.
#[derive(Clone, Copy)]
pub struct Token {
    pub kind: u32,
    pub start: u32,
    pub end: u32,
    pub extra: u32,
    pub next: usize,
}

// Why what stands at a byte is refused, with the number that request [4] gives it.
#[derive(Clone, Copy, Debug, PartialEq, Eq)]
pub enum LexemeError {
    StartsNothing = 40,
    NotClosed = 41,
    TooLarge = 42,
}

impl LexemeError {
    ghost use Rattle.std.specs.Prelude.{◌≡◌};
    ghost use Rattle.lexemes.specs.Errors.{error_number};

    pub fn number(self) -> u32
        ensures { result ≡ error_number self }
    {
        self as u32
    }
}
