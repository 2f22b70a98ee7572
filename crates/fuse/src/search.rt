// The search over attempts: the first at which nothing is stuck ends it.
ghost use Rattle.std.specs.Prelude.{◌≡◌, true, ◌≤◌, length, IfSome};
ghost use Rattle.std.specs.Option.{unwrap_or};
ghost use Rattle.scratch.specs.Lent.{SameBuffers};
ghost use Rattle.repeats.specs.Repeats.{repeats?};
ghost use Rattle.fuse.specs.Search.{Sought};
ghost use Rattle.fuse.specs.Seek.{CanSeek};

use crate::attempts::try_attempt;
use repeats::repeated;
use scratch::Scratch;

// So many stuck attempts are rare for different keys. Equal keys are stuck in every attempt, so when they are looked for changes no answer.
const STUCK_BEFORE_TEST: u32 = 4;

// Whether no attempt can be free: two keys are equal. It is asked after each stuck attempt, and looks once only. `order` is room to sort in.
fn hopeless(keys: &[u64], stuck: u32, order: &mut [u64]) -> bool
    requires { length keys.now ≤ length order.old }
    ensures { result ≡ true → repeats? keys.now ≡ true }
{
    if stuck != STUCK_BEFORE_TEST {
        return false;
    }
    let n = keys.len();
    repeated(keys, &mut order[..n])
}

// The number of the first free attempt. Where there is one, `order` and `positions` hold the keys that it took.
pub fn search(keys: &[u64], first: u32, last: u32, scratch: &mut Scratch) -> Option<u32>
    requires no_starts { length scratch.old.starts.now ≡ 0 }
    requires can { CanSeek keys.now first last scratch.old.lone.now scratch.old.counts.now scratch.old.sums.now scratch.old.positions.now scratch.old.order.now }
    ensures same { SameBuffers scratch.old scratch.new }
    ensures starts { scratch.new.starts.now ≡ scratch.old.starts.now }
    ensures number { IfSome result (λ i. first ≤ i) }
    ensures sought { Sought keys.now first last (unwrap_or result 0) scratch.new.positions.now scratch.new.order.now }
{
    let mut i = first;
    // A loop that yields its attempt by `break`, as the table of docs/DECISIONS.md has it.
    loop {
        if last < i {
            break None;
        }
        let taken = try_attempt(keys, i, scratch);
        if taken == keys.len() {
            break Some(i);
        }
        let stuck = i - first + 1;
        if hopeless(keys, stuck, scratch.order) {
            break None;
        }
        i += 1;
    }
}
