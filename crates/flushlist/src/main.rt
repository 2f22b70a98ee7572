// `flushlist` packs a text of due flushes into a list, and asks a list whether a flush is due. Results go to standard output and
// what went wrong to standard error. A refusal is no failure of the program: it ends with status 0.
#![tactic(auto)]

mod ask;
mod held;
mod messages;
mod pack;
mod sample;

use due_text::line;
use due_text::line::Fault;
use std::io::ErrorKind;
use std::random::RandomSource;
use std::rt::Files;
use std::{env, io};

// A word that is longer counts as empty, and is no number.
const WORD: usize = 32;

// A longer name is none.
const NAME: usize = 4096;

fn main(rt: HostRuntime) -> io::Result<()> {
    match env::args(&rt) {
        Ok(words) => {
            let words: Vec<String> = words.collect(rt.alloc())?;
            run(&rt, &words)
        }
        Err(why) if why.kind() == ErrorKind::InvalidData => {
            messages::no_text(&rt);
            Ok(())
        }
        Err(why) => Err(why),
    }
}

// The first word is the program's own name.
fn run<R: Files + Print + Eprint + RandomSource>(rt: &R, words: &[String]) -> io::Result<()> {
    match words {
        [] | [_] => sample::run(rt),
        [_, command, text, list] if command.as_str() == "pack" => {
            pack_named(rt, text.as_str(), list.as_str())
        }
        [_, command, list, key] if command.as_str() == "ask" => {
            let key = line::plain(short(key.as_bytes()));
            ask_named(rt, list.as_str(), key.map(Some))
        }
        [_, command, list, unit, valve, seconds] if command.as_str() == "ask" => {
            let unit = short(unit.as_bytes());
            let valve = short(valve.as_bytes());
            let key = line::due(unit, valve, short(seconds.as_bytes()));
            ask_named(rt, list.as_str(), key.map(Some))
        }
        _ => {
            messages::usage(rt);
            Ok(())
        }
    }
}

// flushlist pack TEXT LIST
fn pack_named<R: Files + Print + Eprint + RandomSource>(
    rt: &R,
    text: &str,
    list: &str,
) -> io::Result<()> {
    if fits(rt, "the text's name", text) && fits(rt, "the list's name", list) {
        pack::run(rt, text, list)?;
    }
    Ok(())
}

// flushlist ask LIST KEY, and flushlist ask LIST UNIT VALVE SECONDS
fn ask_named<R: Files + Print + Eprint>(
    rt: &R,
    list: &str,
    question: Result<Option<u64>, Fault>,
) -> io::Result<()> {
    if fits(rt, "the list's name", list) {
        ask::run(rt, list, question)?;
    }
    Ok(())
}

// Whether a name may be one; if not, it is said whose it is.
fn fits(rt: &impl Eprint, whose: &str, name: &str) -> bool {
    if name.len() > NAME {
        messages::long_name(rt, whose);
        return false;
    }
    true
}

fn short(word: &[u8]) -> &[u8] {
    if word.len() > WORD { b"" } else { word }
}
