// The search and its end on buffers of exactly the needed lengths.
ghost use Rattle.std.specs.Prelude.{◌≡◌, ℕ, ◌≤◌, [], length};
ghost use Rattle.scratch.specs.Lent.{SameBuffers};
ghost use Rattle.fuse.specs.Memory.{lent};
ghost use Rattle.plan.specs.Plans.{scratch, zeros, Planned};
ghost use Rattle.plan.specs.Parts.{SameTables, Passes, CanCut, CanPlan, none_found, Ended};

use crate::clear::{clear_tables, clear_taken};
use crate::{Built, Plan};
use answers::Refusal;
use fuse::attempts::{descriptor_at, slots_for};
use fuse::search::search;
use layout::bucket_starts;
use repeats::repeated;
use scratch::Scratch;

// No attempt was free: 5 where two keys are equal, else 6. What the last attempt took is zeroed.
fn none_found(keys: &[u64], slots: u32, scratch: &mut Scratch) -> Result<Plan, Refusal>
    requires { length keys.now ≤ length scratch.old.order.now }
    ensures same { SameBuffers scratch.old scratch.new }
    ensures plan { result ≡ none_found keys.now slots }
    ensures taken { (scratch.new.positions.now ≡ zeros scratch.old.positions.now) × (scratch.new.order.now ≡ zeros scratch.old.order.now) }
    ensures tables { SameTables scratch.old scratch.new }
{
    let n = keys.len();
    let repeats = repeated(keys, &mut scratch.order[..n]);
    clear_taken(scratch);
    if repeats {
        return Err(Refusal::RepeatedKeys);
    }
    Ok(Plan::Stuck(slots))
}

// Where an attempt was free, `order` and `positions` keep the keys that it took; all else is zeroed. The bucket starts are only zeroed:
// they stand beside the scratch that the search is lent, as no attempt looks at them.
fn on_parts(
    keys: &[u64],
    first: u32,
    last: u32,
    slots: u32,
    parts: &mut Scratch,
    starts: &mut [u32],
) -> Result<Plan, Refusal>
    requires no_starts { length parts.old.starts.now ≡ 0 }
    requires can { CanPlan keys.now first last slots parts.old.lone.now parts.old.counts.now parts.old.sums.now parts.old.positions.now parts.old.order.now starts.old }
    ensures same { SameBuffers parts.old parts.new }
    ensures ended { Ended keys.now first last result (scratch parts.new.lone.now parts.new.counts.now parts.new.sums.now parts.new.positions.now parts.new.order.now starts.new) }
{
    let found = search(keys, first, last, parts);
    clear_tables(parts);
    starts.fill(0);
    match found {
        None => none_found(keys, slots, parts),
        Some(attempt) => {
            let descriptor = descriptor_at(keys.len() as u32, attempt);
            Ok(Plan::Found(Built {
                descriptor,
                slots,
                attempt,
            }))
        }
    }
}

// The same on six slices. Five become one scratch.
fn on_slices(
    keys: &[u64],
    first: u32,
    last: u32,
    slots: u32,
    lone: &mut [u32],
    counts: &mut [u16],
    sums: &mut [u64],
    positions: &mut [u8],
    order: &mut [u64],
    starts: &mut [u32],
) -> Result<Plan, Refusal>
    requires { CanPlan keys.now first last slots lone.old counts.old sums.old positions.old order.old starts.old }
    ensures { Ended keys.now first last result (scratch lone.new counts.new sums.new positions.new order.new starts.new) }
{
    let mut parts = Scratch {
        lone,
        counts,
        sums,
        positions,
        order,
        starts: &mut [],
    };
    on_parts(keys, first, last, slots, &mut parts, starts)
}

// The same on the needed parts of what is lent. They become a scratch in a call of its own: if it were made here, the proof would not
// see what is written through it.
pub fn on_needed(
    keys: &[u64],
    first: u32,
    last: u32,
    scratch: &mut Scratch,
) -> Result<Plan, Refusal>
    requires { CanCut keys.now first last (lent [] scratch.old) }
    ensures same { SameBuffers scratch.old scratch.new }
    ensures planned { (room : ℕ) → Passes keys.now last room (lent [] scratch.old) → Planned keys.now first last room result (lent [] scratch.old) (lent [] scratch.new) }
{
    let n = keys.len();
    let slots = slots_for(n as u32);
    let end = slots as usize;
    let places = n + 1;
    let needed = bucket_starts(n as u32) as usize;
    on_slices(
        keys,
        first,
        last,
        slots,
        &mut scratch.lone[..end],
        &mut scratch.counts[..end],
        &mut scratch.sums[..end],
        &mut scratch.positions[..n],
        &mut scratch.order[..places],
        &mut scratch.starts[..needed],
    )
}
