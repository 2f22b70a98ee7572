// Slots stacked in a lent list.
ghost use Rattle.std.specs.Prelude.{◌≡◌, ◌+◌, ◌-◌, ◌<◌, ◌≤◌, length};
ghost use Rattle.stuck.specs.Total.{bit};
ghost use Rattle.machine.specs.Machine as machine;
ghost use Rattle.peel.specs.Held.{stack_at, SameStack};
ghost use Rattle.peel.specs.Steps.{before_pop};

// The first `top` are stacked, the last stacked at their end.
#[derive(Drop)]
pub struct Stack<'a> {
    pub slots: &'a mut [u32],
    pub top: usize,
}

impl Stack<'_> {
    // Stacks a slot if it is to be: it is stored at the top always, and the top goes up only then, which takes no branch.
    #[tactic(auto, using(crate::proofs::Stacking::stored_yes, crate::proofs::Stacking::stored_no))]
    pub fn push_if(&mut self, slot: u32, wanted: bool)
        requires { self.old.top < length self.old.slots.now }
        ensures same { SameStack self.old self.new }
        ensures stack { stack_at self.new ≡ machine.push_if wanted slot (stack_at self.old) }
        ensures top { self.new.top ≡ bit wanted + self.old.top }
    {
        self.slots[self.top] = slot;
        if wanted {
            self.top += 1;
        }
    }

    // Takes the last one stacked off, where one is stacked.
    #[tactic(auto, using(crate::proofs::Stacking::popped, crate::proofs::Stacking::none_stacked))]
    pub fn pop(&mut self) -> Option<u32>
        requires { self.old.top ≤ length self.old.slots.now }
        ensures same { SameStack self.old self.new }
        ensures stack { stack_at self.old ≡ before_pop result (stack_at self.new) }
        ensures top { self.new.top ≡ self.old.top - 1 }
    {
        if self.top == 0 {
            return None;
        }
        self.top -= 1;
        Some(self.slots[self.top])
    }
}
