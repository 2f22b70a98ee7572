// A list of keys packed into fingerprints of any width, on lent buffers: what the filter of each width does.
#![tactic(auto)]

ghost use Rattle.std.specs.Prelude.{◌≡◌, ◌+◌, ◌-◌, ◌≤◌, map};
ghost use Rattle.answers.specs.Answers.{outcome};
ghost use Rattle.scratch.specs.Lent.{SameBuffers};
ghost use Rattle.fuse.specs.Memory.{lent};
ghost use Rattle.fuse.specs.Build.{build_of, attempt_of, search_of};
ghost use Rattle.fuse.specs.Demand.{Demand3};
ghost use Rattle.fuse.specs.Leaves.{Leaves};
ghost use Rattle.plan.specs.Paper.{paper};

mod carry_out;

use answers::Refusal;
use arith::fingerprint::Fingerprint;
use carry_out::carry_out;
pub use plan::Built;
use scratch::Scratch;

// The list of the first of the attempts 1 to `limit` without a stuck set.
pub fn build<F: Fingerprint>(
    keys: &[u64],
    limit: u32,
    fingerprints: &mut [F],
    scratch: &mut Scratch,
) -> Result<Built, Refusal>
    ensures same { SameBuffers scratch.old scratch.new }
    ensures equation { outcome (paper result) (lent (map F.bits fingerprints.new) scratch.new) ≡ build_of F.width keys.now limit (lent (map F.bits fingerprints.old) scratch.old) }
    ensures demand3 { Demand3 F.width keys.now 1 limit (lent (map F.bits fingerprints.old) scratch.old) (paper result) (map F.bits fingerprints.new) }
    ensures leaves { Leaves F.width keys.now (lent (map F.bits fingerprints.old) scratch.old) (paper result) (lent (map F.bits fingerprints.new) scratch.new) }
{
    pack(keys, 1, limit, fingerprints, scratch)
}

// The same of one attempt, by its number.
pub fn attempt<F: Fingerprint>(
    keys: &[u64],
    number: u32,
    fingerprints: &mut [F],
    scratch: &mut Scratch,
) -> Result<Built, Refusal>
    ensures same { SameBuffers scratch.old scratch.new }
    ensures equation { outcome (paper result) (lent (map F.bits fingerprints.new) scratch.new) ≡ attempt_of F.width keys.now number (lent (map F.bits fingerprints.old) scratch.old) }
    ensures demand3 { Demand3 F.width keys.now number number (lent (map F.bits fingerprints.old) scratch.old) (paper result) (map F.bits fingerprints.new) }
    ensures leaves { Leaves F.width keys.now (lent (map F.bits fingerprints.old) scratch.old) (paper result) (lent (map F.bits fingerprints.new) scratch.new) }
{
    pack(keys, number, number, fingerprints, scratch)
}

// The attempts `first` to `last`.
fn pack<F: Fingerprint>(
    keys: &[u64],
    first: u32,
    last: u32,
    fingerprints: &mut [F],
    scratch: &mut Scratch,
) -> Result<Built, Refusal>
    requires { 1 ≤ last → (1 ≤ first) × (first ≤ last) }
    ensures same { SameBuffers scratch.old scratch.new }
    ensures equation { outcome (paper result) (lent (map F.bits fingerprints.new) scratch.new)
        ≡ search_of F.width keys.now last first (last + 1 - first) (lent (map F.bits fingerprints.old) scratch.old) }
{
    let plan = plan::make(keys, first, last, fingerprints.len(), scratch)?;
    carry_out(
        plan,
        keys.len(),
        fingerprints,
        scratch.positions,
        scratch.order,
    )
}
