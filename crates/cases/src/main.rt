// Answers cases, one a line, from standard input to standard output: docs/CASES.md.
#![tactic(auto)]

mod answer;
mod filled;
mod input;
mod lend;
mod line;
mod output;
mod room;

use answer::answer;
use input::Input;
use lend::Room;
use line::Line;
use output::Out;
use std::fmt::Write;

// Reads to the end of the input, and answers each line at once. Nothing says that the input ends, so its bytes are counted, up to a number that no run comes to.
fn run(input: &mut Input, line: &mut Line, room: &mut Room, out: &mut Out) {
    for byte in input.take(usize::MAX) {
        if byte != b'\n' {
            line.read(byte);
            continue;
        }
        if let Err(word) = answer(line, room, out) {
            let _ = writeln!(out, "{word}");
        }
        out.flush();
        line.restart();
    }
}

// The arrays together take about 7.9 MB, under a stack of 8 MiB: what is left is for the readers' own arrays.
fn main(rt: HostRuntime) {
    let mut input = Input::new(rt.stdin());
    let mut line = Line::new();
    let mut room = Room::new();
    let mut out = Out::new(rt.stdout());
    run(&mut input, &mut line, &mut room, &mut out);
}
