// The seven buffers that a call is lent, each at the start of a longer array. Before it every element of each array is `MARK`.
ghost use Rattle.std.specs.Prelude.{◌+◌, ◌≤◌};
ghost use Rattle.layout.specs.Layout.{max_slots};

use layout::limits::MAX_SLOTS;

pub const MARK: u8 = 170;
// The length of each array: the most slots, and some to spare.
pub const LENGTH: usize = MAX_SLOTS + 8;

// In the order in which they are lent.
#[derive(Clone, Copy, PartialEq, Eq)]
pub enum Buffer {
    Fingerprints,
    Lone,
    Counts,
    Sums,
    Positions,
    Order,
    Starts,
}

// What a list of keys needs: A, its number of keys, and P. Each buffer is lent with `spare` elements more, but the buffer `short` with
// one fewer than needed.
#[derive(Clone, Copy)]
pub struct Lent {
    slots: usize,
    keys: usize,
    starts: usize,
    spare: usize,
    short: Option<Buffer>,
}

impl Lent {
    // Every buffer longer than needed.
    pub fn longer(slots: usize, keys: usize, starts: usize) -> Lent {
        Lent {
            slots,
            keys,
            starts,
            spare: 3,
            short: None,
        }
    }

    // Every buffer as long as needed.
    pub fn exact(slots: usize, keys: usize, starts: usize) -> Lent {
        Lent {
            spare: 0,
            ..Lent::longer(slots, keys, starts)
        }
    }

    // The same, but this buffer one short.
    pub fn one_short(self, buffer: Buffer) -> Lent {
        Lent {
            short: Some(buffer),
            ..self
        }
    }

    // How many elements of a buffer are needed.
    pub fn needed_of(self, buffer: Buffer) -> usize {
        match buffer {
            Buffer::Positions => self.keys,
            Buffer::Order => self.keys.saturating_add(1),
            Buffer::Starts => self.starts,
            Buffer::Fingerprints | Buffer::Lone | Buffer::Counts | Buffer::Sums => self.slots,
        }
    }

    // How many elements of a buffer are lent.
    pub fn end_of(self, buffer: Buffer) -> usize
        ensures { result ≤ max_slots + 8 }
    {
        let needed = self.needed_of(buffer);
        let end = if self.short == Some(buffer) {
            needed.saturating_sub(1)
        } else {
            needed.saturating_add(self.spare)
        };
        end.min(LENGTH)
    }
}
