// The slots that one key alone touches.
ghost use Rattle.peel.specs.Steps.{CanScan, Scanned};

use crate::stack::Stack;
use crate::sums::Sums;

impl Sums<'_> {
    // They are stacked from the lowest on, onto a stack of none.
    #[tactic(auto, using(crate::proofs::Scanning::scan_start, crate::proofs::Scanning::scan_step, crate::proofs::Scanning::scan_end))]
    pub fn stack_lone(&self, stack: &mut Stack)
        requires { CanScan self.now stack.old }
        ensures { Scanned self.now stack.old stack.new }
    {
        for (slot, packed) in self.counts.iter().enumerate() {
            stack.push_if(slot as u32, *packed / 4 == 1);
        }
    }
}
