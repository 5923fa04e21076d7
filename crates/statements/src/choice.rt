// What a caller chooses by number: the mode of a call, and the edition of the plain length.
use tokens::number;

// How labels are read: by document 01, or strictly, as request [1] asks.
#[derive(Clone, Copy, Debug, PartialEq, Eq)]
pub enum Mode {
    Lenient,
    Strict,
}

impl Mode {
    ghost use Rattle.std.specs.Prelude.{◌≡◌, eqb};
    ghost use Rattle.tokens.specs.Number.{strict_mode};
    ghost use Rattle.statements.specs.Choice.{mode_number};

    pub fn is_strict(self) -> bool
        ensures { result ≡ eqb (mode_number self) strict_mode }
    {
        matches!(self, Mode::Strict)
    }
}

// A number that is no mode's.
#[derive(Clone, Copy, Debug, PartialEq, Eq)]
pub struct UnknownMode;

impl TryFrom<u32> for Mode {
    ghost use Rattle.statements.specs.Choice.{ModeOf};

    type Error = UnknownMode;

    ghost try_from_gives = { ModeOf };

    #[tactic(auto, unfolding(grammar::specs::Rules::is_mode))]
    fn try_from(mode: u32) -> Result<Mode, UnknownMode> {
        match mode {
            number::MODE_LENIENT => Ok(Mode::Lenient),
            number::MODE_STRICT => Ok(Mode::Strict),
            _ => Err(UnknownMode),
        }
    }
}

// Whether one byte pushes a zero: not in the first, in the second.
#[derive(Clone, Copy, Debug, PartialEq, Eq)]
pub enum Edition {
    First,
    Second,
}

impl Edition {
    ghost use Rattle.std.specs.Prelude.{◌≡◌};
    ghost use Rattle.grammar.specs.PlainLength.{short_zeros};
    ghost use Rattle.statements.specs.Choice.{edition_number};

    pub fn is_second(self) -> bool
        ensures { result ≡ short_zeros (edition_number self) }
    {
        matches!(self, Edition::Second)
    }
}

// A number that is no edition's.
#[derive(Clone, Copy, Debug, PartialEq, Eq)]
pub struct UnknownEdition;

impl TryFrom<u32> for Edition {
    ghost use Rattle.statements.specs.Choice.{EditionOf};

    type Error = UnknownEdition;

    ghost try_from_gives = { EditionOf };

    #[tactic(auto, unfolding(grammar::specs::PlainLength::is_edition))]
    fn try_from(edition: u32) -> Result<Edition, UnknownEdition> {
        match edition {
            number::EDITION_FIRST => Ok(Edition::First),
            number::EDITION_SECOND => Ok(Edition::Second),
            _ => Err(UnknownEdition),
        }
    }
}
