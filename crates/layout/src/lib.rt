// The layout of a filter for n keys: the segment length, the segment count and what follows from them.
#![tactic(auto)]

ghost use Rattle.std.specs.Prelude.{◌≡◌, ◌+◌, ◌*◌, ◌≤◌};
ghost use Rattle.capacity.specs.Capacity.{max_keys};
ghost use Rattle.layout.specs.Layout.{segment_length_of, count_of, layout_with, max_slots, max_starts, plain_of, layout_of, power_above, bucket_starts_of};

pub mod limits;

use limits::{MAX_SLOTS, MAX_STARTS};

#[derive(Clone, Copy, Debug, PartialEq, Eq)]
pub struct Layout {
    pub segment_length: u32,
    pub segment_count: u32,
    pub segment_count_length: u32,
    pub array_length: u32,
}

impl Layout {
    // The layout of segments of l slots: k in which a key starts, and two more that it reaches.
    fn with(l: u32, k: u32) -> Layout
        requires { (1 ≤ l) × ((k + 2) * l ≤ max_slots) }
        ensures { result ≡ layout_with l k }
    {
        Layout {
            segment_length: l,
            segment_count: k,
            segment_count_length: k * l,
            array_length: (k + 2) * l,
        }
    }
}

// `MAX_SLOTS` and `MAX_STARTS` are the numbers that the definitions name.
pub fn max_slots() -> usize
    ensures { result ≡ max_slots }
{
    MAX_SLOTS
}

pub fn max_starts() -> usize
    ensures { result ≡ max_starts }
{
    MAX_STARTS
}

// L, by the sizes at which it doubles.
#[tactic(auto, using(crate::specs::Ranges::ranges))]
pub fn segment_length(n: u32) -> u32
    requires { n ≤ max_keys }
    ensures { result ≡ segment_length_of n }
{
    match n {
        0..=2 => 4,
        3..=8 => 8,
        9..=27 => 16,
        28..=91 => 32,
        92..=303 => 64,
        304..=1009 => 128,
        1010..=3361 => 256,
        _ => 512,
    }
}

// The segment count for the capacity c and segments of l slots.
#[tactic(auto, using(crate::proofs::Segments::count_is))]
fn count(c: u32, l: u32) -> u32
    requires { 1 ≤ l }
    ensures { result ≡ count_of c l }
{
    c.div_ceil(l).saturating_sub(2).max(1)
}

// The plain layout.
#[tactic(auto, using(crate::proofs::Room::plain_room), unfolding(crate::specs::Layout::plain_of))]
pub fn plain(n: u32) -> Layout
    requires { n ≤ max_keys }
    ensures { result ≡ plain_of n }
{
    let l = segment_length(n);
    let k = count(capacity::capacity(n), l);
    Layout::with(l, k)
}

// The layout of an attempt: the halved one on attempts 2, 6, 10 and so on, where there are more than four keys.
#[tactic(auto, using(crate::proofs::Room::halved_room), unfolding(crate::specs::Layout::layout_of, crate::specs::Layout::halves))]
pub fn layout_at(n: u32, attempt: u32) -> Layout
    requires { n ≤ max_keys }
    ensures { result ≡ layout_of n attempt }
{
    let plain = plain(n);
    if n > 4 && attempt % 4 == 2 {
        Layout::with(plain.segment_length / 2, 2 * plain.segment_count + 2)
    } else {
        plain
    }
}

// The smallest power of two, at least 2, that is not below k.
#[tactic(auto, using(crate::proofs::Power::next_power_is))]
fn power_above(k: u32) -> u32
    requires { k ≤ max_slots }
    ensures { result ≡ power_above k }
{
    k.max(2).next_power_of_two()
}

// P: how many bucket starts are asked for, for n keys. No layout has more segments than that of attempt 2.
#[tactic(auto, using(crate::proofs::Room::few_segments, crate::proofs::BucketStarts::starts_by_second))]
pub fn bucket_starts(n: u32) -> u32
    requires { n ≤ max_keys }
    ensures { result ≡ bucket_starts_of n }
{
    power_above(layout_at(n, 2).segment_count)
}
