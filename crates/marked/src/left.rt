// What a call leaves of marked arrays. Each is read whole, so a write past its lent part would be told too.
use crate::buffers::MARK;
use std::fmt;

#[derive(Clone, Copy)]
pub struct Left {
    // Every element is as it was.
    kept: bool,
    // The needed elements are 0.
    zeroed: bool,
    // The elements beyond are as they were.
    beyond_kept: bool,
}

impl Left {
    // Of an array of which so many elements are needed.
    pub fn of<T: Copy + Eq + From<u8>>(array: &[T], needed: usize) -> Left {
        let (part, beyond) = array.split_at(needed.min(array.len()));
        Left {
            kept: all_are(array, T::from(MARK)),
            zeroed: all_are(part, T::from(0)),
            beyond_kept: all_are(beyond, T::from(MARK)),
        }
    }

    // Of both together.
    pub fn and(self, other: Left) -> Left {
        Left {
            kept: self.kept && other.kept,
            zeroed: self.zeroed && other.zeroed,
            beyond_kept: self.beyond_kept && other.beyond_kept,
        }
    }
}

fn all_are<T: Copy + Eq>(elements: &[T], value: T) -> bool {
    elements.iter().all(|element| *element == value)
}

impl fmt::Display for Left {
    fn fmt<W: fmt::Write>(&self, f: &mut fmt::Formatter<W>) -> fmt::Result {
        f.write_str(if self.kept {
            "unchanged"
        } else if !self.beyond_kept {
            "changed beyond the needed part"
        } else if self.zeroed {
            "zeroed"
        } else {
            "written"
        })
    }
}
