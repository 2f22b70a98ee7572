// The scratch zeroed, in two parts: what no fingerprint is made from, and the keys that were taken.
ghost use Rattle.std.specs.Prelude.{◌≡◌};
ghost use Rattle.scratch.specs.Lent.{SameBuffers};
ghost use Rattle.plan.specs.Plans.{zeros};
ghost use Rattle.plan.specs.Parts.{SameTables};

use scratch::Scratch;

pub fn clear_tables(scratch: &mut Scratch)
    ensures same { SameBuffers scratch.old scratch.new }
    ensures lone { scratch.new.lone.now ≡ zeros scratch.old.lone.now }
    ensures counts { scratch.new.counts.now ≡ zeros scratch.old.counts.now }
    ensures sums { scratch.new.sums.now ≡ zeros scratch.old.sums.now }
    ensures starts { scratch.new.starts.now ≡ zeros scratch.old.starts.now }
    ensures taken { (scratch.new.positions.now ≡ scratch.old.positions.now) × (scratch.new.order.now ≡ scratch.old.order.now) }
{
    scratch.lone.fill(0);
    scratch.counts.fill(0);
    scratch.sums.fill(0);
    scratch.starts.fill(0);
}

pub fn clear_taken(scratch: &mut Scratch)
    ensures same { SameBuffers scratch.old scratch.new }
    ensures taken { (scratch.new.positions.now ≡ zeros scratch.old.positions.now) × (scratch.new.order.now ≡ zeros scratch.old.order.now) }
    ensures tables { SameTables scratch.old scratch.new }
{
    scratch.positions.fill(0);
    scratch.order.fill(0);
}
