// The words of a line: what is called, and what it answers.
use answers::Refusal;
use plan::Built;
use samples::Width;
use std::{fmt, io};

// Lists of this length or less are printed.
const FEW: usize = 9;

// A build with its attempt limit, or an attempt with its number: how many keys (and which, where they are few), and that number by
// its name.
#[derive(Clone, Copy)]
pub struct Call<'a> {
    pub name: &'a str,
    pub keys: &'a [u64],
    pub number_name: &'a str,
    pub number: u32,
}

impl fmt::Display for Call<'_> {
    fn fmt<W: fmt::Write>(&self, f: &mut fmt::Formatter<W>) -> fmt::Result {
        write!(f, "{} of {} keys", self.name, self.keys.len())?;
        if self.keys.len() <= FEW {
            for key in self.keys {
                write!(f, " {key}")?;
            }
        }
        write!(f, ", {} {}", self.number_name, self.number)
    }
}

pub fn answered<W: Width>(
    rt: &impl Print,
    answer: Result<Built, Refusal>,
    keys: &[u64],
    fingerprints: &[W],
) -> io::Result<()> {
    match answer {
        Ok(list) => built(rt, list, keys, fingerprints),
        Err(why) => print!(rt; "{why}"),
    }
}

// With the digest of its fingerprints, and how many of the keys are listed then.
fn built<W: Width>(
    rt: &impl Print,
    list: Built,
    keys: &[u64],
    fingerprints: &[W],
) -> io::Result<()> {
    let d = list.descriptor;
    let slots = (list.slots as usize).min(fingerprints.len());
    let fingerprints = &fingerprints[..slots];
    let digest = samples::digest(fingerprints);
    let listed = keys
        .iter()
        .filter(|key| W::contains(d, fingerprints, **key) == Ok(true))
        .count();
    print!(rt; "attempt {} seed {} ", list.attempt, d.seed)?;
    print!(rt;
        "L {} count length {} ",
        d.segment_length, d.segment_count_length
    )?;
    print!(rt; "A {slots} digest {digest} listed {listed}")
}
