// A whole file written under a name, or none: by a new file that then takes the name.
#![tactic(auto)]

ghost use Rattle.std.specs.Prelude.{◌<◌, IfSome};
ghost use Rattle.saving.specs.Beside.{IsBeside};

use arrayvec::ArrayString;
use files::{or_say, say};
use std::fs::{OpenFile, OpenOptions};
use std::io::Write;
use std::random::RandomSource;
use std::rt::Files;
use std::{fs, io};

// So many that two runs hardly ever draw the same; where they do, the second makes no file.
const DIGITS: usize = 16;

// The system takes no longer name.
const PATH_MAX: usize = 4096;

// For the longest name, `.part-` and the digits.
const NAME_ROOM: usize = PATH_MAX + 6 + DIGITS;

// That a new file may take the list's name: nobody has it, or a plain file that is not the text. If not, it is said why.
pub fn may_replace<R: Files + Eprint>(rt: &R, text: &[u8], list: &[u8]) -> Option<()> {
    let there = names::itself(rt, list);
    if there.is_some_and(|seen| seen.is_special()) {
        files::not_plain(rt, list);
        return None;
    }
    let read = names::led_to(rt, text);
    if there.zip(read).is_some_and(|(a, b)| a.is_same_file(b)) {
        say(rt, list, "text and list are the same file");
        return None;
    }
    Some(())
}

// The two parts of a list under this name. They are written to a new file of another name, which then takes this one: so there is
// never half a list under it, and no two runs write to one file. If it was not written, it is said why.
pub fn write<R: Files + Eprint + RandomSource>(
    rt: &R,
    path: &[u8],
    head: &[u8],
    body: &[u8],
) -> Option<()> {
    let name = or_say(rt, path, files::name(path))?;
    let part = beside(rt, name)?;
    replace(rt, name, part.as_str(), head, body)
}

// The name of the file beside it: the path, `.part-` and random digits. If there is none, it is said why.
fn beside<R: Eprint + RandomSource>(rt: &R, path: &str) -> Option<ArrayString<NAME_ROOM>>
    ensures { IfSome result (λ name. IsBeside path.now name.bytes) }
{
    if path.len() > PATH_MAX {
        say(rt, path.as_bytes(), "name too long");
        return None;
    }
    let mut drawn = [0u8; DIGITS];
    or_say(rt, b"random digits", rt.fill_bytes(&mut drawn))?;
    let mut name = ArrayString::<NAME_ROOM>::new();
    name.push_str(path);
    name.push_str(".part-");
    for byte in &drawn {
        name.push(digit(*byte));
    }
    Some(name)
}

// Hexadecimal. Each of the sixteen stands for as many bytes as any other.
fn digit(byte: u8) -> char
    ensures { result < 128 }
{
    char::from_digit(u32::from(byte % 16), 16).unwrap()
}

// `create_new` takes no name that is there.
fn replace<R: Files + Eprint>(
    rt: &R,
    path: &str,
    part: &str,
    head: &[u8],
    body: &[u8],
) -> Option<()> {
    let made = OpenOptions::new()
        .write(true)
        .create_new(true)
        .open(rt, part);
    let file = or_say(rt, part.as_bytes(), made)?;
    let saved = or_say(rt, part.as_bytes(), put(file, head, body)).and_then(|()| or_say(
        rt,
        path.as_bytes(),
        fs::rename(rt, part, path),
    ));
    if saved.is_none() {
        remove(rt, part);
    }
    saved
}

fn remove<R: Files + Eprint>(rt: &R, part: &str) {
    if or_say(rt, part.as_bytes(), fs::remove_file(rt, part)).is_none() {
        say(rt, part.as_bytes(), "left behind, and no list");
    }
}

// Both parts into an open file, which is closed, once they have reached its device.
fn put<F: Write + OpenFile + Drop>(mut file: F, head: &[u8], body: &[u8]) -> io::Result<()> {
    file.write_all(head)?;
    file.write_all(body)?;
    file.sync_all()
}
