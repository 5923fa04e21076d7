// A line's answer: docs/CASES.md, "An answer". The entries are called as programs in other languages call them, so that a case tries those very functions.
use crate::filled::Full;
use crate::lend::{Lists, Room, lent};
use crate::line::{Entry, Line};
use crate::output::{Joined, Out};
use crate::room::TOKENS_ROOM;
use simmerotter::{simmerotter_lex, simmerotter_read_body, simmerotter_read_file};
use std::fmt;
use std::fmt::{Display, Formatter, Write};
use tokens::number::{ANSWER_NUMBERS, LEXED_NUMBERS};

// Why a line has no answer in full. It prints as the word that answers the line.
#[derive(Clone, Copy)]
pub enum NoAnswer {
    NotACase,
    TooLarge,
}

impl Display for NoAnswer {
    fn fmt<W: Write>(&self, f: &mut Formatter<W>) -> fmt::Result {
        f.write_str(match self {
            NoAnswer::NotACase => "X_NotACase",
            NoAnswer::TooLarge => "X_TooLarge",
        })
    }
}

impl From<Full> for NoAnswer {
    fn from(_: Full) -> NoAnswer {
        NoAnswer::TooLarge
    }
}

// Answers a line that has been read whole. `line`, `room` and `out` are lent apart: `out` is written while the other two lend what
// is written, so a struct of the three would be taken apart at once.
pub fn answer(line: &mut Line, room: &mut Room, out: &mut Out) -> Result<(), NoAnswer> {
    match line.end().ok_or(NoAnswer::NotACase)? {
        Entry::Lexer => answer_text(line, room, out),
        entry => answer_case(entry, line, room, out),
    }
}

// The answer to a text that is cut into tokens. Its list is lent from the room for statements, which has enough.
fn answer_text(line: &Line, room: &mut Room, out: &mut Out) -> Result<(), NoAnswer> {
    let &[words, ..] = line.numbers.items() else {
        return Err(NoAnswer::NotACase);
    };
    line.fits?;
    let text = line.text.items();
    let list = &mut room.statements;
    let tokens = lent(&mut list[..TOKENS_ROOM], words)?;
    let mut answer = [0; LEXED_NUMBERS];
    simmerotter_lex(text, tokens, &mut answer);
    let _ = writeln!(out, "{}|{}", Joined(&answer, " "), Joined(tokens, ","));
    Ok(())
}

// The answer to a file or a body. The lexer's entry never comes here; an enum of the other two would be a second one, and a conversion, for these two tests.
fn answer_case(entry: Entry, line: &Line, room: &mut Room, out: &mut Out) -> Result<(), NoAnswer> {
    let &[
        mode,
        edition,
        start,
        kept,
        definitions,
        statements,
        arguments,
        ref tokens @ ..,
    ] = line.numbers.items()
    else {
        return Err(NoAnswer::NotACase);
    };
    // A body call lends no definitions, and a file is read from 0.
    let unused = if entry == Entry::Body {
        definitions
    } else {
        start
    };
    if unused != 0 {
        return Err(NoAnswer::NotACase);
    }
    line.fits?;
    let text = line.text.items();
    let Lists {
        kept,
        definitions,
        statements,
        arguments,
    } = room.lend(Lists {
        kept,
        definitions,
        statements,
        arguments,
    })?;
    let mut answer = [0; ANSWER_NUMBERS];
    match entry {
        Entry::Body => simmerotter_read_body(
            mode,
            edition,
            text,
            tokens,
            start as usize,
            kept,
            statements,
            arguments,
            &mut answer,
        ),
        _ => simmerotter_read_file(
            mode,
            text,
            tokens,
            kept,
            definitions,
            statements,
            arguments,
            &mut answer,
        ),
    }
    show(&answer, [kept, definitions, statements, arguments], out);
    Ok(())
}

// The answer's numbers, then the four lists as they are after the call.
fn show(answer: &[u64; ANSWER_NUMBERS], lists: [&[u32]; 4], out: &mut Out) {
    let _ = write!(out, "{}", Joined(answer, " "));
    for list in lists {
        let _ = write!(out, "|{}", Joined(list, ","));
    }
    let _ = writeln!(out);
}
