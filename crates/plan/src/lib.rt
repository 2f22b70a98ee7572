// What a build of any width does before its fingerprints are written: checks 1 to 4, the search over the attempts, and the answer. What is
// left to be done is a plan, which `packing` carries out.
#![tactic(auto)]

ghost use Rattle.std.specs.Prelude.{◌≤◌, [], length};
ghost use Rattle.scratch.specs.Lent.{SameBuffers};
ghost use Rattle.fuse.specs.Memory.{lent};
ghost use Rattle.plan.specs.Plans.{Planned};

pub mod clear;
mod parts;

use answers::Refusal;
use descriptor::Descriptor;
use fuse::check::check;
use scratch::Scratch;

// What a build gives: the descriptor, A, and the number of the attempt.
#[derive(Clone, Copy, Debug, PartialEq, Eq)]
pub struct Built {
    pub descriptor: Descriptor,
    pub slots: u32,
    pub attempt: u32,
}

// Where nothing is refused yet. A refusal leaves the fingerprints as they are.
#[derive(Drop)]
pub enum Plan {
    // The keys that the attempt took lie in `order` and `positions` and are to be stored.
    Found(Built),
    // No attempt was free: so many fingerprints are to be zeroed.
    Stuck(u32),
}

// `room` is how many fingerprints are lent: a number, since no width is known here, so both widths share the code.
pub fn make(
    keys: &[u64],
    first: u32,
    last: u32,
    room: usize,
    scratch: &mut Scratch,
) -> Result<Plan, Refusal>
    requires { 1 ≤ last → (1 ≤ first) × (first ≤ last) }
    ensures same { SameBuffers scratch.old scratch.new }
    ensures planned { Planned keys.now first last room result (lent [] scratch.old) (lent [] scratch.new) }
{
    check(keys.len(), last, room, scratch)?;
    parts::on_needed(keys, first, last, scratch)
}
