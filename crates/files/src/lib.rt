// A whole file read, and what is said of files that fail.
#![tactic(auto)]

ghost use Rattle.files.specs.Prefix.{IsPrefixLen};
ghost use Rattle.std.specs.Prelude.{◌≡◌, MatchResult};
ghost use Rattle.std.specs.Result.{result_ok};

use arrayvec::ArrayString;
use std::fmt::{Display, Write};
use std::io::Read;
use std::rt::Files;
use std::{fmt, fs, io};

// A file's bytes at the start of the room, which has one place more than a file may fill: how many. If they are not whole, it is
// said why, and `Err` has how many came before a read failed; it has 0 of what was not opened, or is too long.
pub fn read<R: Files + Eprint>(rt: &R, path: &[u8], room: &mut [u8]) -> Result<usize, usize>
    ensures { MatchResult result (λ count. IsPrefixLen count room.new) (λ count. IsPrefixLen count room.new) }
{
    // A pipe might keep it waiting for ever, and a device never end.
    if names::led_to(rt, path).is_some_and(|there| there.is_special()) {
        not_plain(rt, path);
        return Err(0);
    }
    let mut file = or_say(rt, path, open(rt, path)).ok_or(0usize)?;
    fill(rt, &mut file, path, room)
}

fn open<R: Files>(rt: &R, path: &[u8]) -> io::Result<R::File> {
    fs::open(rt, name(path)?)
}

// The library takes no name that is not UTF-8.
pub fn name(path: &[u8]) -> io::Result<&str> {
    str::from_utf8(path).map_err(|_| io::Error::from(io::ErrorKind::InvalidInput))
}

// As `read`, of a file that is open.
fn fill(
    rt: &impl Eprint,
    file: &mut impl Read,
    path: &[u8],
    room: &mut [u8],
) -> Result<usize, usize>
    ensures { MatchResult result (λ count. IsPrefixLen count room.new) (λ count. IsPrefixLen count room.new) }
{
    // No `for`: how far a read comes is known only after it.
    let mut count = 0;
    while count < room.len() {
        let n = or_say(rt, path, file.read(&mut room[count..])).ok_or(count)?;
        if n == 0 {
            return Ok(count);
        }
        count += n;
    }
    say(
        rt,
        path,
        format_args!("not shorter than {} bytes", room.len()),
    );
    Err(0)
}

pub fn not_plain(rt: &impl Eprint, path: &[u8]) {
    say(rt, path, "not a plain file");
}

// What a step answered; if it failed, it is said of what and why, and nothing is left.
pub fn or_say<T>(rt: &impl Eprint, what: &[u8], answer: io::Result<T>) -> Option<T>
    ensures { result ≡ result_ok answer }
{
    answer.map_err(|why| failed(rt, what, why)).ok()
}

// The system's own words for what failed, without its number.
fn failed(rt: &impl Eprint, what: &[u8], why: io::Error) {
    let mut words = ArrayString::<256>::new();
    let _ = write!(words, "{why}");
    say(rt, what, without_number(words.as_str()));
}

fn without_number(words: &str) -> &str {
    words
        .split_once(" (os error ")
        .map_or(words, |(plain, _)| plain)
}

// A line on standard error, of what and in which words. What cannot be written there stays unsaid, and changes no answer.
pub fn say<W: Display + Drop>(rt: &impl Eprint, what: &[u8], words: W) {
    let _ = eprintln!(rt; "{}: {words}", Lossy(what));
}

// Text, as it is written to standard error: bytes that are not UTF-8 come as the sign for an unknown character.
// The library's `from_utf8_lossy` makes a `String`, and the tool takes no heap for names.
#[derive(Drop)]
struct Lossy<'a>(&'a [u8]);

impl Display for Lossy<'_> {
    fn fmt<W: fmt::Write>(&self, f: &mut fmt::Formatter<W>) -> fmt::Result {
        for chunk in self.0.utf8_chunks() {
            f.write_str(chunk.valid())?;
            if !chunk.invalid().is_empty() {
                f.write_str("\u{fffd}")?;
            }
        }
        Ok(())
    }
}
