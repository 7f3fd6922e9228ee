// The listing program's answers to the files of data/: each refusal that a listing can meet, and its limits. Before each
// answer stands the name of its file. What is written to the output is no part of a contract, as in `listing`.
#![tactic(auto)]

use std::rt::Files;
use std::{fs, io};

// The system's words in an error's text, without its number.
fn reason(text: &str) -> &str {
    match text.split_once(" (os error ") {
        Some((words, _)) => words,
        None => text,
    }
}

// A line to standard error: what failed, and why.
fn fail<R: Eprint + Alloc>(rt: &R, what: &str, error: io::Error) -> io::Result<()> {
    let text = error.to_string(rt.alloc())?;
    let reason = reason(text.as_str());
    eprintln!(rt; "{what}: {reason}")
}

// The answer to one file, as `listing` gives it; an input that could not be read has none.
fn show<R: Files + Print + Eprint + Alloc>(rt: &R, name: &str) -> io::Result<()> {
    let mut file = match fs::open(rt, name) {
        Ok(file) => file,
        Err(error) => return fail(rt, name, error),
    };
    let mut buffer = [0u8; 65536];
    let mut text = [0u8; listing_text::ROOM];
    let input = listing_input::read(&mut file, &mut buffer);
    drop(file);
    let n = listing_text::answer(&buffer, input, &mut text);
    println!(rt; "{name}")?;
    rt.write_all(&text[..n])
}

// Refusals 2 to 14.
const REFUSALS: [&str; 14] = [
    "empty",
    "letters",
    "trailing",
    "short",
    "overrun",
    "stray",
    "misplaced",
    "twice",
    "name",
    "length",
    "number",
    "index",
    "count",
    "missing",
];

// 65,536 bytes, accepted, and with one stray byte at the end; 65,537 bytes; 1,025 records, and 1,024.
const LIMITS: [&str; 5] = ["full", "full-stray", "longer", "many", "most"];

// Then a private chunk; identifiers of every kind of digit; and a folder, which opens and cannot be read.
const OTHERS: [&str; 3] = ["private", "mixed", "."];

fn main(rt: HostRuntime) -> io::Result<()> {
    for names in [&REFUSALS[..], &LIMITS[..], &OTHERS[..]] {
        for name in names {
            show(&rt, name)?;
        }
    }
    Ok(())
}
