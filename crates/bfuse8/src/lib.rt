// `BinaryFuse8` of the Rust: a list of keys is packed into fingerprints of 8 bits, on lent buffers. These are `packing`'s functions at one
// width, under the names that README, docs/PROMISES.md and docs/DECISIONS.md have.
#![tactic(auto)]

ghost use Rattle.std.specs.Prelude.{◌≡◌};
ghost use Rattle.answers.specs.Answers.{outcome};
ghost use Rattle.scratch.specs.Lent.{SameBuffers};
ghost use Rattle.fuse.specs.Memory.{lent};
ghost use Rattle.fuse.specs.Build.{build_of, attempt_of};
ghost use Rattle.fuse.specs.Demand.{Demand3};
ghost use Rattle.fuse.specs.Leaves.{Leaves};
ghost use Rattle.plan.specs.Paper.{paper};

use answers::Refusal;
pub use plan::Built;
use scratch::Scratch;

// The list of the first of the attempts 1 to `limit` without a stuck set.
#[tactic(auto, using(arith::specs::Numbers::map_same))]
pub fn build(
    keys: &[u64],
    limit: u32,
    fingerprints: &mut [u8],
    scratch: &mut Scratch,
) -> Result<Built, Refusal>
    ensures same { SameBuffers scratch.old scratch.new }
    ensures equation { outcome (paper result) (lent fingerprints.new scratch.new) ≡ build_of 8 keys.now limit (lent fingerprints.old scratch.old) }
    ensures demand3 { Demand3 8 keys.now 1 limit (lent fingerprints.old scratch.old) (paper result) fingerprints.new }
    ensures leaves { Leaves 8 keys.now (lent fingerprints.old scratch.old) (paper result) (lent fingerprints.new scratch.new) }
{
    packing::build(keys, limit, fingerprints, scratch)
}

// The same of one attempt, by its number.
#[tactic(auto, using(arith::specs::Numbers::map_same))]
pub fn attempt(
    keys: &[u64],
    number: u32,
    fingerprints: &mut [u8],
    scratch: &mut Scratch,
) -> Result<Built, Refusal>
    ensures same { SameBuffers scratch.old scratch.new }
    ensures equation { outcome (paper result) (lent fingerprints.new scratch.new) ≡ attempt_of 8 keys.now number (lent fingerprints.old scratch.old) }
    ensures demand3 { Demand3 8 keys.now number number (lent fingerprints.old scratch.old) (paper result) fingerprints.new }
    ensures leaves { Leaves 8 keys.now (lent fingerprints.old scratch.old) (paper result) (lent fingerprints.new scratch.new) }
{
    packing::attempt(keys, number, fingerprints, scratch)
}
