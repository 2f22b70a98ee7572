// The keys counted up, from cleared buffers.
ghost use Rattle.std.specs.Prelude.{◌≡◌, length};
ghost use Rattle.machine.specs.Machine.{sums_of};
ghost use Rattle.machine.specs.SumsByKey.{add_key};
ghost use Rattle.peel.specs.Segments.{hashes_of};
ghost use Rattle.peel.specs.Held.{sums_at, slots_by, SameSums};
ghost use Rattle.peel.specs.Steps.{CanAdd, CanCount};

use crate::sums::Sums;
use arith::murmur3::mix;
use arith::slots::Segments;

impl Sums<'_> {
    // One key at its three slots.
    fn add_key(&mut self, hash: u64, segments: Segments)
        requires { CanAdd segments self.old }
        ensures same { SameSums self.old self.new }
        ensures sums { sums_at self.new ≡ add_key (slots_by segments hash) hash (sums_at self.old) }
    {
        let [first, second, third] = segments.slots(hash);
        self.touch(hash, 0, first);
        self.touch(hash, 1, second);
        self.touch(hash, 2, third);
    }

    // All of the keys, each by its hash under the seed; a hash 0 is a hash like any other.
    pub fn count_keys(&mut self, keys: &[u64], seed: u64, segments: Segments)
        requires { CanCount segments keys.now self.old }
        ensures same { SameSums self.old self.new }
        ensures sums { sums_at self.new
            ≡ sums_of (slots_by segments) (length self.old.counts.now) (hashes_of seed keys.now) }
    {
        for key in keys {
            self.add_key(mix(*key, seed), segments);
        }
    }
}
