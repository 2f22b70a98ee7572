// The most slots, and the most bucket starts, that a list up to the limit of keys needs. Written by tools/capacities.
pub const MAX_SLOTS: usize = 10752;

pub const MAX_STARTS: usize = 64;
