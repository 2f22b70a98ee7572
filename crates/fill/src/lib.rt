// The fingerprints filled in from the keys that were taken, at any width.
#![tactic(auto)]

ghost use Rattle.std.specs.Prelude.{◌≡◌, ◌<◌, length, map};
ghost use Rattle.arith.specs.Fingerprint.{fingerprint_of};
ghost use Rattle.stuck.specs.Fill.{store, fill};
ghost use Rattle.machine.specs.Machine.{stores};
ghost use Rattle.peel.specs.Segments.{slots_in};
ghost use Rattle.peel.specs.Buffers.{picks_in};
ghost use Rattle.peel.specs.Requires.{Segmented, CanFill};

use arith::fingerprint::{Fingerprint, left_over};
use arith::slots::Segments;

// The slot where a key was taken becomes its fingerprint xor the other two slots' fingerprints: all three, and its own once more.
fn fill_one<F: Fingerprint>(fingerprints: &mut [F], hash: u64, position: u8, segments: Segments)
    requires { Segmented segments.length segments.mask segments.span (length fingerprints.old) × (position < 3) }
    ensures { map F.bits fingerprints.new
        ≡ store (record { slots = slots_in segments.length segments.mask segments.span hash; position = position; fingerprint = fingerprint_of F.width hash })
        (map F.bits fingerprints.old) }
{
    let three = segments.slots(hash);
    let at = three[position as usize] as usize;
    let left = left_over(F::of_hash(hash), fingerprints, three);
    fingerprints[at] = left ^ fingerprints[at];
}

// The keys of `order`, each taken at its position, last taken first.
pub fn fill<F: Fingerprint>(
    fingerprints: &mut [F],
    segments: Segments,
    order: &[u64],
    positions: &[u8],
)
    requires { CanFill segments.length segments.mask segments.span (map F.bits fingerprints.old) order.now positions.now (length order.now) }
    ensures { map F.bits fingerprints.new
        ≡ fill (stores (slots_in segments.length segments.mask segments.span) (fingerprint_of F.width) (picks_in (length order.now) order.now positions.now))
        (map F.bits fingerprints.old) }
{
    // By index: `order.iter().zip(positions).rev()` was proved too, but takes 45 instructions a key in place of 31, 7% of a build.
    for i in (0..order.len()).rev() {
        fill_one(fingerprints, order[i], positions[i], segments);
    }
}
