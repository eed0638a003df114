//! Rows of trials as text: reads deeds of standard input, one a line, does them over files in memory
//! and prints what each came to. tests/rows/README.md has the language.

#![tactic(auto)]

mod alone;
mod bench;
mod bytes;
mod calls;
mod events;
mod file;
mod keys;
mod kinds;
mod line;
mod lists;
mod machines;
mod seats;
mod tables;
mod told;
mod words;

use bench::Bench;
use line::Line;
use std::alloc::Global;
use std::io;
use std::io::{BufWriter, Eprint, Read, Write};
use std::process::ExitCode;
use words::{Words, Wrong, cut};

fn main(rt: HostRuntime) -> ExitCode {
    let mut text = Vec::new(rt.alloc());
    if rt.reader().read_to_end(&mut text).is_err() {
        return fail(&rt, 0, Wrong::Unread);
    }
    run(&rt, text.as_slice())
}

/// Does the deeds of all lines, and prints what each came to.
fn run(rt: &HostRuntime, text: &[u8]) -> ExitCode {
    let Ok(mut output) = BufWriter::new(rt.alloc(), io::writer(rt)) else {
        return fail(rt, 0, Wrong::NoMemory);
    };
    let ended = rows(rt.alloc(), text, &mut output);
    if output.flush().is_err() {
        return ExitCode::FAILURE;
    }
    match ended {
        Ok(()) => ExitCode::SUCCESS,
        Err((number, wrong)) => fail(rt, number, wrong),
    }
}

/// Does the deeds of all lines over no file, and prints of each its number and what it came to. Where
/// a line is none of the language, or can't be done, its number is given and why.
fn rows<W: Write>(alloc: Global, text: &[u8], output: &mut W) -> Result<(), (u64, Wrong)> {
    let mut bench = Bench::new(alloc);
    let mut told = Line::new(alloc);
    rows_on(&mut bench, alloc, text, &mut told, output)
}

/// The same over what was done before.
fn rows_on<W: Write>(
    bench: &mut Bench,
    alloc: Global,
    text: &[u8],
    told: &mut Line,
    output: &mut W,
) -> Result<(), (u64, Wrong)> {
    let mut number: u64 = 0;
    let mut rest = text;
    for _ in 0..text.len() {
        if rest.is_empty() {
            break;
        }
        let (line, others) = cut(rest, b'\n');
        rest = others;
        number = number.wrapping_add(1);
        told.clear();
        let done = match does(alloc, bench, line, told) {
            Ok(true) => print(alloc, number, told, output),
            Ok(false) => Ok(()),
            Err(wrong) => Err(wrong),
        };
        if let Err(wrong) = done {
            return Err((number, wrong));
        }
    }
    Ok(())
}

/// Prints a line behind its number.
fn print<W: Write>(alloc: Global, number: u64, told: &Line, output: &mut W) -> Result<(), Wrong> {
    let mut line = Line::new(alloc);
    line.number(number);
    line.add(told);
    line.mark("\n");
    let Some(words) = line.text() else {
        return Err(Wrong::NoMemory);
    };
    match output.write_all(words) {
        Ok(()) => Ok(()),
        Err(_) => Err(Wrong::Unwritten),
    }
}

/// Whether a line has a deed. That is done, and it is told what it came to.
fn does(alloc: Global, bench: &mut Bench, line: &[u8], told: &mut Line) -> Result<bool, Wrong> {
    let mut words = Words::of(line);
    let Some(verb) = words.next() else {
        return Ok(false);
    };
    if verb.starts_with(b"#") {
        return Ok(false);
    }
    bench.does(alloc, verb, &mut words, told)?;
    words.end()?;
    if told.is_empty() {
        told.word("ok");
    }
    Ok(true)
}

/// Ends where a line is wrong.
fn fail(rt: &HostRuntime, number: u64, wrong: Wrong) -> ExitCode {
    let _ = writeln!(rt.stderr(), "line {number}: {wrong}");
    ExitCode::from(2)
}
