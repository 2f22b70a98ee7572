// Keys taken, each at a slot that it alone touches, until no stacked slot is left.
ghost use Rattle.std.specs.Prelude.{◌≡◌};
ghost use Rattle.machine.specs.Machine.{picks_from};
ghost use Rattle.peel.specs.Held.{sums_at, taken_at, slots_by, SameSums, SameStack, SameTaken};
ghost use Rattle.peel.specs.Steps.{CanRelease, Released, CanTake, TookKey, CanTakeAll};

use crate::stack::Stack;
use crate::sums::{Pick, Sums};
use crate::taken::Taken;
use arith::slots::Segments;

// The stack goes beside the sums, in no struct of both: of a buffer two structs deep the proof of `run` does not learn the length afterwards.
impl Sums<'_> {
    // One key leaves one slot. A slot whose count falls from two to one is stacked.
    fn release(&mut self, stack: &mut Stack, hash: u64, position: u16, slot: u32)
        requires { CanRelease self.old stack.old position slot }
        ensures { Released self.old stack.old hash position slot self.new stack.new }
    {
        let count = self.leave(hash, position, slot);
        stack.push_if(slot, count == 2);
    }

    // A key that is taken leaves its other two slots. The slot where it is taken keeps what it knows: it is not looked at again.
    fn take_key(&mut self, stack: &mut Stack, key: Pick, segments: Segments)
        requires { CanTake segments self.old stack.old key }
        ensures { TookKey segments self.old stack.old key self.new stack.new }
    {
        let slots = segments.slots(key.hash);
        let next = (key.position + 1) % 3;
        let after = (key.position + 2) % 3;
        self.release(stack, key.hash, next, slots[next as usize]);
        self.release(stack, key.hash, after, slots[after as usize]);
    }

    // Slots are popped until there is none, and the key of each that is still touched once is taken.
    pub fn take_all(&mut self, stack: &mut Stack, taken: &mut Taken, segments: Segments)
        requires { CanTakeAll segments self.old stack.old taken.old }
        ensures same_sums { SameSums self.old self.new }
        ensures same_stack { SameStack stack.old stack.new }
        ensures same_lists { SameTaken taken.old taken.new }
        ensures picks { taken_at taken.new ≡ picks_from (slots_by segments) (sums_at self.old) }
    {
        while let Some(slot) = stack.pop() {
            if let Some(key) = self.only_key(slot) {
                taken.push(key);
                self.take_key(stack, key, segments);
            }
        }
    }
}
