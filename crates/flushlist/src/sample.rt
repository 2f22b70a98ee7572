// What it does, shown on the sample list.
use crate::{ask, messages, pack};
use due_text::line;
use std::io;
use std::random::RandomSource;
use std::rt::Files;

// Listed: by the second on the line, by another of its hour, by its key, and by the last second of an hour below zero.
// Not listed: the next hour, another valve, the hour after the one below zero, and hour 0.
const QUESTIONS: [&str; 8] = [
    "1 1 1773032400",
    "3 2 1773291600",
    "283673999966209",
    "1 1 -32401",
    "1 1 1773036000",
    "1 3 1773032400",
    "1 1 -32400",
    "1 1 0",
];

pub fn run<R: Files + Print + Eprint + RandomSource>(rt: &R) -> io::Result<()> {
    println!(rt; "$ flushlist pack due.txt due.list")?;
    if !pack::run(rt, "due.txt", "due.list")? {
        messages::usage(rt);
        return Ok(());
    }
    for question in QUESTIONS {
        println!(rt; "$ flushlist ask due.list {question}")?;
        ask::run(rt, "due.list", line::read(question.as_bytes()))?;
    }
    Ok(())
}
