// A list of keys packed into fingerprints of 16 bits, on lent buffers. These are `packing`'s functions at one width, under the names that
// docs/PROMISES.md has.
ghost use Rattle.std.specs.Prelude.{◌≡◌};
ghost use Rattle.answers.specs.Answers.{outcome};
ghost use Rattle.scratch.specs.Lent.{SameBuffers};
ghost use Rattle.fuse.specs.Memory.{lent};
ghost use Rattle.fuse.specs.Build.{build_of, attempt_of};
ghost use Rattle.fuse.specs.Demand.{Demand3};
ghost use Rattle.fuse.specs.Leaves.{Leaves};
ghost use Rattle.plan.specs.Paper.{paper};

use answers::Refusal;
use plan::Built;
use scratch::Scratch;

// The list of the first of the attempts 1 to `limit` without a stuck set.
#[tactic(auto, using(arith::specs::Numbers::map_same))]
pub fn build(
    keys: &[u64],
    limit: u32,
    fingerprints: &mut [u16],
    scratch: &mut Scratch,
) -> Result<Built, Refusal>
    ensures same { SameBuffers scratch.old scratch.new }
    ensures equation { outcome (paper result) (lent fingerprints.new scratch.new) ≡ build_of 16 keys.now limit (lent fingerprints.old scratch.old) }
    ensures demand3 { Demand3 16 keys.now 1 limit (lent fingerprints.old scratch.old) (paper result) fingerprints.new }
    ensures leaves { Leaves 16 keys.now (lent fingerprints.old scratch.old) (paper result) (lent fingerprints.new scratch.new) }
{
    packing::build(keys, limit, fingerprints, scratch)
}

// The same of one attempt, by its number.
#[tactic(auto, using(arith::specs::Numbers::map_same))]
pub fn attempt(
    keys: &[u64],
    number: u32,
    fingerprints: &mut [u16],
    scratch: &mut Scratch,
) -> Result<Built, Refusal>
    ensures same { SameBuffers scratch.old scratch.new }
    ensures equation { outcome (paper result) (lent fingerprints.new scratch.new) ≡ attempt_of 16 keys.now number (lent fingerprints.old scratch.old) }
    ensures demand3 { Demand3 16 keys.now number number (lent fingerprints.old scratch.old) (paper result) fingerprints.new }
    ensures leaves { Leaves 16 keys.now (lent fingerprints.old scratch.old) (paper result) (lent fingerprints.new scratch.new) }
{
    packing::attempt(keys, number, fingerprints, scratch)
}
