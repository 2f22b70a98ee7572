// What the system knows of a name: whether a file is there, whether it is a plain one, and which one it is.
#![tactic(auto)]

ghost use Rattle.std.specs.Prelude.{◌≡◌, ◌≢◌, ◌↔◌, IsTrue, true};
ghost use Rattle.std.specs.Fs.{IsFile, file_type};

use std::fs;
use std::fs::Metadata;
use std::os::unix::fs::MetadataExt;
use std::rt::Files;

// A file that is there.
#[derive(Clone, Copy)]
pub struct Seen {
    pub plain: bool,
    pub device: u64,
    pub number: u64,
}

// A name with a 0 in it is not found, nor is one that is too long or not UTF-8: the system is asked of no other file. Two functions, one
// for each call of the library: to hand the call in would be no shorter.

// What the name itself is: at a link, the link.
pub fn itself(rt: &impl Files, path: &[u8]) -> Option<Seen> {
    fs::symlink_metadata(rt, str::from_utf8(path).ok()?)
        .ok()
        .map(Seen::from)
}

// What the name leads to: at a link, what the link leads to.
pub fn led_to(rt: &impl Files, path: &[u8]) -> Option<Seen> {
    fs::metadata(rt, str::from_utf8(path).ok()?)
        .ok()
        .map(Seen::from)
}

impl Seen {
    // No plain file, but a folder, a device, a pipe, a socket or a link.
    pub fn is_special(self) -> bool
        ensures { IsTrue result ↔ (self.plain ≢ true) }
    {
        !self.plain
    }

    // Both are one file, by whatever names.
    pub fn is_same_file(self, other: Seen) -> bool
        ensures { IsTrue result ↔ ((self.device ≡ other.device) × (self.number ≡ other.number)) }
    {
        self.device == other.device && self.number == other.number
    }
}

impl From<Metadata> for Seen {
    ghost from_gives = { λ known seen. IsTrue seen.plain ↔ IsFile (file_type known) };

    fn from(known: Metadata) -> Seen {
        Seen {
            plain: known.is_file(),
            device: known.dev(),
            number: known.ino(),
        }
    }
}
