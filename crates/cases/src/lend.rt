// What a case lends: the first words of four lists, each exactly as long as the case says.
ghost use Rattle.std.specs.Prelude.{◌≡◌, ◌<◌, replicate, length, MatchResult, IfOk};

use crate::answer::NoAnswer;
use crate::room::{ARGUMENTS_ROOM, DEFINITIONS_ROOM, KEPT_ROOM, STATEMENTS_ROOM};

// What every lent word holds before the call, so that a word left alone can be told from one written.
const FILLER: u32 = 0xa5a5_a5a5;

// The first n words of a list.
fn part_of(list: &mut [u32], n: u32) -> Result<&mut [u32], NoAnswer>
    ensures { MatchResult result (λ part. length part.now ≡ n) (λ _. length list.old < n) }
{
    list.get_mut(..n as usize).ok_or(NoAnswer::TooLarge)
}

// The same as they are before the call. The others are not filled, so that a small case costs little.
pub fn lent(list: &mut [u32], n: u32) -> Result<&mut [u32], NoAnswer>
    ensures { MatchResult result (λ part. part.now ≡ replicate n FILLER) (λ _. length list.old < n) }
{
    let part = part_of(list, n)?;
    part.fill(FILLER);
    Ok(part)
}

// Something for each of the four lists: its length, or its words.
#[derive(Drop)]
pub struct Lists<T> {
    pub kept: T,
    pub definitions: T,
    pub statements: T,
    pub arguments: T,
}

// The room that the four lists are lent from.
#[derive(Drop)]
pub struct Room {
    pub kept: [u32; KEPT_ROOM],
    pub definitions: [u32; DEFINITIONS_ROOM],
    pub statements: [u32; STATEMENTS_ROOM],
    pub arguments: [u32; ARGUMENTS_ROOM],
}

impl Room {
    pub fn new() -> Room {
        Room {
            kept: [0; KEPT_ROOM],
            definitions: [0; DEFINITIONS_ROOM],
            statements: [0; STATEMENTS_ROOM],
            arguments: [0; ARGUMENTS_ROOM],
        }
    }

    pub fn lend(&mut self, lengths: Lists<u32>) -> Result<Lists<&mut [u32]>, NoAnswer>
        ensures kept { IfOk result (λ lists. lists.kept.now ≡ replicate lengths.kept FILLER) }
        ensures definitions { IfOk result (λ lists. lists.definitions.now ≡ replicate lengths.definitions FILLER) }
        ensures statements { IfOk result (λ lists. lists.statements.now ≡ replicate lengths.statements FILLER) }
        ensures arguments { IfOk result (λ lists. lists.arguments.now ≡ replicate lengths.arguments FILLER) }
    {
        let Room {
            kept,
            definitions,
            statements,
            arguments,
        } = self;
        let kept = part_of(kept, lengths.kept)?;
        let definitions = part_of(definitions, lengths.definitions)?;
        let statements = part_of(statements, lengths.statements)?;
        let arguments = part_of(arguments, lengths.arguments)?;
        // only now, so that a case with one too large costs no more
        kept.fill(FILLER);
        definitions.fill(FILLER);
        statements.fill(FILLER);
        arguments.fill(FILLER);
        Ok(Lists {
            kept,
            definitions,
            statements,
            arguments,
        })
    }
}
