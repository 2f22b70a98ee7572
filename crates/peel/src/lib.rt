// One attempt of document 01, on lent buffers: from the keys to what was taken. It knows no width of a fingerprint.
#![tactic(auto)]

ghost use Rattle.std.specs.Prelude.{◌≡◌, length};
ghost use Rattle.scratch.specs.Lent.{SameBuffers};
ghost use Rattle.peel.specs.Buffers.{picks_in};
ghost use Rattle.peel.specs.Requires.{CanRun};
ghost use Rattle.peel.specs.Picks.{picks_of_keys};

mod count;
mod scan;
mod stack;
mod sums;
mod take;
mod taken;

use arith::slots::Segments;
use scratch::Scratch;
use stack::Stack;
use sums::Sums;
use taken::Taken;

// One attempt, where counts and sums are clear. Returns how many keys are taken; `order` and `positions` begin with them, the first taken
// first. What the other buffers hold then is not said: the caller clears them. No bucket starts are lent: an attempt has no use for them.
pub fn run(keys: &[u64], seed: u64, segments: Segments, scratch: &mut Scratch) -> usize
    requires no_starts { length scratch.old.starts.now ≡ 0 }
    requires can { CanRun segments.length segments.mask segments.span keys.now scratch.old.lone.now scratch.old.counts.now scratch.old.sums.now scratch.old.order.now scratch.old.positions.now }
    ensures same { SameBuffers scratch.old scratch.new }
    ensures starts { scratch.new.starts.now ≡ scratch.old.starts.now }
    ensures picks { picks_in result scratch.new.order.now scratch.new.positions.now
        ≡ picks_of_keys segments.length segments.mask segments.span (length scratch.old.counts.now) seed keys.now }
{
    let mut sums = Sums {
        counts: scratch.counts,
        hashes: scratch.sums,
    };
    let mut stack = Stack {
        slots: scratch.lone,
        top: 0,
    };
    let mut taken = Taken {
        order: scratch.order,
        positions: scratch.positions,
        count: 0,
    };
    sums.count_keys(keys, seed, segments);
    sums.stack_lone(&mut stack);
    sums.take_all(&mut stack, &mut taken, segments);
    taken.count
}
