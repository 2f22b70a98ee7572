// A list is asked whether a flush is due.
use crate::{held, messages};
use due_text::line::Fault;
use std::io;
use std::rt::Files;

// A question is what a line of the text says.
pub fn run<R: Files + Print + Eprint>(
    rt: &R,
    list: &str,
    question: Result<Option<u64>, Fault>,
) -> io::Result<()> {
    match question {
        Ok(Some(key)) => tell(rt, answer(rt, list, key)),
        Ok(None) => {
            messages::usage(rt);
            Ok(())
        }
        Err(why) => {
            messages::fault(rt, why);
            Ok(())
        }
    }
}

// Whether the key is due, by the file with the list. If the file does not answer, it is said why.
fn answer<R: Files + Eprint>(rt: &R, list: &str, key: u64) -> Option<bool> {
    let mut room = held::list_room();
    let n = files::read(rt, list.as_bytes(), &mut room).ok()?;
    held::asked(&room[..n], key)
        .map_err(|why| messages::refused_list(rt, list, why))
        .ok()
}

fn tell(rt: &impl Print, due: Option<bool>) -> io::Result<()> {
    match due {
        Some(true) => println!(rt; "due"),
        Some(false) => println!(rt; "not due"),
        None => Ok(()),
    }
}
