// What went wrong, in words, on standard error.
use answers::Refusal;
use capacity::MAX_KEYS;
use due_text::keys::BadLine;
use due_text::line::Fault;
use std::fmt;
use std::fmt::Display;

// How the program is called.
const USAGE: &str = "\
flushlist pack TEXT LIST                packs the due flushes of TEXT into LIST
flushlist ask LIST UNIT VALVE SECONDS   says whether that flush is due
flushlist ask LIST KEY                  the same of a plain key
flushlist                               packs due.txt into due.list and asks it";

// A line on standard error. What cannot be written there stays unsaid, and changes no answer.
fn say<W: Display + Drop>(rt: &impl Eprint, words: W) {
    let _ = rt.eprintln(words);
}

// A line of what it is about, and of what is said of it.
fn say_of<S: Display + Drop, W: Display + Drop>(rt: &impl Eprint, what: S, words: W) {
    say(rt, format_args!("{what}: {words}"));
}

pub fn usage(rt: &impl Eprint) {
    say(rt, USAGE);
}

// A word of the command, as a file's name, that is not UTF-8.
pub fn no_text(rt: &impl Eprint) {
    say(rt, "a word of the command is not UTF-8");
}

pub fn long_name(rt: &impl Eprint, whose: &str) {
    say_of(rt, whose, "File name too long");
}

// The list is packed all the same: a week may have no flush. But an empty text is more often a mistake.
pub fn no_flush(rt: &impl Eprint, list: &str) {
    let all_no = "the list says no to every question, but for about one in 256";
    say_of(rt, list, format_args!("no flush in the text: {all_no}"));
}

// The list was written, but what now has its name was not seen.
pub fn not_read_back(rt: &impl Eprint, list: &str) {
    say_of(
        rt,
        list,
        "written, but it could not be read back; pack again",
    );
}

// What now has the list's name is not the list that was packed.
pub fn not_held(rt: &impl Eprint, list: &str) {
    let denied = "does not answer yes to every key of the text";
    let cause = "another program wrote it, or its bytes changed; pack again";
    say_of(rt, list, format_args!("{denied}: {cause}"));
}

// What is wrong with a line, by its number.
pub fn bad_line(rt: &impl Eprint, bad: BadLine) {
    say_of(rt, format_args!("line {}", bad.line), Wrong(bad.fault));
}

pub fn fault(rt: &impl Eprint, why: Fault) {
    say(rt, Wrong(why));
}

// Why a list was refused, by its name.
pub fn refused_list(rt: &impl Eprint, list: &str, why: Refusal) {
    say_of(rt, list, Numbered(why));
}

// A refusal by its number, and when it is given.
pub fn refused(rt: &impl Eprint, why: Refusal) {
    say(rt, Numbered(why));
}

// A fault of a text, in words.
#[derive(Clone, Copy)]
struct Wrong(Fault);

impl Display for Wrong {
    fn fmt<W: fmt::Write>(&self, f: &mut fmt::Formatter<W>) -> fmt::Result {
        match self.0 {
            Fault::NotNumber => f.write_str("not a number"),
            Fault::WordCount => f.write_str("neither one word nor three"),
            Fault::UnitAbove => f.write_str("unit above 65535"),
            Fault::ValveAbove => f.write_str("valve above 255"),
            Fault::ClockBeyond => f.write_str("seconds beyond 63 bits"),
            Fault::KeyAbove => write!(f, "key above {}", u64::MAX),
            Fault::Refused(why) => Numbered(why).fmt(f),
            Fault::TooManyKeys => Reason(Refusal::TooManyKeys).fmt(f),
        }
    }
}

// A refusal by its number, and when it is given.
#[derive(Clone, Copy)]
struct Numbered(Refusal);

impl Display for Numbered {
    fn fmt<W: fmt::Write>(&self, f: &mut fmt::Formatter<W>) -> fmt::Result {
        write!(f, "{}: {}", self.0, Reason(self.0))
    }
}

// When a refusal is given.
#[derive(Clone, Copy)]
struct Reason(Refusal);

impl Display for Reason {
    fn fmt<W: fmt::Write>(&self, f: &mut fmt::Formatter<W>) -> fmt::Result {
        let words = match self.0 {
            Refusal::TooManyKeys => return write!(f, "more than {MAX_KEYS} keys"),
            Refusal::AttemptOutOfRange => "attempt limit or number outside 1..1000",
            Refusal::ShortFingerprints => "too little room for the fingerprints",
            Refusal::ShortScratch => "a scratch buffer is too short",
            Refusal::RepeatedKeys => "two keys are equal",
            Refusal::Stuck => "every allowed attempt has a stuck set",
            Refusal::ShortDescriptor => "fewer than 20 bytes of descriptor",
            Refusal::SegmentLength => "segment length no power of two in 4..262144",
            Refusal::Mask => "mask is not the segment length less 1",
            Refusal::CountLength => {
                "segment count length 0, no multiple of the segment length, or too large"
            }
            Refusal::FingerprintLength => "not as many fingerprints as the descriptor says",
            Refusal::Clock => "hour outside -2^39..2^39 - 1",
        };
        f.write_str(words)
    }
}
