// The attempts on a list of keys, by their numbers from 1.
ghost use Rattle.std.specs.Prelude.{◌≡◌, length, ◌+◌, ◌*◌, ◌^◌, ◌<◌, ◌≤◌};
ghost use Rattle.scratch.specs.Lent.{SameBuffers};
ghost use Rattle.capacity.specs.Capacity.{max_keys};
ghost use Rattle.layout.specs.Layout.{slot_count_of};
ghost use Rattle.peel.specs.Buffers.{picks_in};
ghost use Rattle.fuse.specs.Attempts.{descriptor_at, picks_at};
ghost use Rattle.fuse.specs.Seek.{CanAttempt};

use arith::slots::Segments;
use arith::splitmix64::seed;
use descriptor::Descriptor;
use layout::{layout_at, plain};
use scratch::Scratch;

// A: how many slots n keys take.
pub fn slots_for(n: u32) -> u32
    requires { n ≤ max_keys }
    ensures { result ≡ slot_count_of n }
{
    plain(n).array_length
}

// The descriptor of an attempt on n keys: its seed, its layout, and the mask L - 1.
#[tactic(auto, unfolding(crate::specs::Attempts::descriptor_at))]
pub fn descriptor_at(n: u32, attempt: u32) -> Descriptor
    requires { n ≤ max_keys }
    ensures { result ≡ descriptor_at n attempt }
{
    let layout = layout_at(n, attempt);
    Descriptor {
        seed: seed(attempt),
        segment_length: layout.segment_length,
        segment_length_mask: layout.segment_length - 1,
        segment_count_length: layout.segment_count_length,
    }
}

// The segments that a descriptor cuts its slots into, where their numbers leave room for the slots' sums.
pub fn segments_of(d: Descriptor) -> Segments
    requires { d.segment_count_length + 2 * d.segment_length < 2 ^ 32 }
    ensures length { result.length ≡ d.segment_length }
    ensures mask { result.mask ≡ d.segment_length_mask }
    ensures span { result.span ≡ d.segment_count_length }
{
    Segments {
        length: d.segment_length,
        mask: d.segment_length_mask,
        span: d.segment_count_length,
    }
}

// One attempt by its number, whatever the scratch holds. Returns how many keys are taken; `order` and `positions` begin with them.
// No bucket starts are lent: no attempt looks at them.
pub fn try_attempt(keys: &[u64], number: u32, scratch: &mut Scratch) -> usize
    requires no_starts { length scratch.old.starts.now ≡ 0 }
    requires can { CanAttempt keys.now scratch.old.lone.now scratch.old.counts.now scratch.old.sums.now scratch.old.positions.now scratch.old.order.now }
    ensures same { SameBuffers scratch.old scratch.new }
    ensures starts { scratch.new.starts.now ≡ scratch.old.starts.now }
    ensures picks { picks_in result scratch.new.order.now scratch.new.positions.now ≡ picks_at keys.now number }
{
    let d = descriptor_at(keys.len() as u32, number);
    scratch.clear_sums();
    peel::run(keys, d.seed, segments_of(d), scratch)
}
