// Why a call refuses: document 01's twelve refusals, shared by all crates that answer with one.
#![tactic(auto)]

ghost use Rattle.std.specs.Prelude.{◌≡◌, ◌++◌, Some, codes, decimal};
ghost use Rattle.answers.specs.Answers.{number_of, code_of};

use std::fmt;

// `number_of` has the paper's number of each, and when it is given.
#[derive(Clone, Copy, Debug, PartialEq, Eq)]
pub enum Refusal {
    TooManyKeys,
    AttemptOutOfRange,
    ShortFingerprints,
    ShortScratch,
    RepeatedKeys,
    Stuck,
    ShortDescriptor,
    SegmentLength,
    Mask,
    CountLength,
    FingerprintLength,
    Clock,
}

impl Refusal {
    // The paper's number of a refusal.
    pub fn number(self) -> u32
        ensures { result ≡ number_of self }
    {
        match self {
            Refusal::TooManyKeys => 1,
            Refusal::AttemptOutOfRange => 2,
            Refusal::ShortFingerprints => 3,
            Refusal::ShortScratch => 4,
            Refusal::RepeatedKeys => 5,
            Refusal::Stuck => 6,
            Refusal::ShortDescriptor => 7,
            Refusal::SegmentLength => 8,
            Refusal::Mask => 9,
            Refusal::CountLength => 10,
            Refusal::FingerprintLength => 11,
            Refusal::Clock => 12,
        }
    }

    // What a C program is told of a refusal.
    pub fn code(self) -> u32
        ensures { result ≡ code_of (number_of self) }
    {
        16 + self.number()
    }
}

// As the programs print it: its number, which the specification explains.
impl fmt::Display for Refusal {
    ghost output = { λ refusal. Some (codes "refused " ++ decimal (number_of refusal)) };

    fn fmt<W: fmt::Write>(&self, f: &mut fmt::Formatter<W>) -> fmt::Result {
        let number = self.number();
        write!(f, "refused {number}")
    }
}
