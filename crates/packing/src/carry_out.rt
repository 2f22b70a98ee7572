// The plan of a build carried out: what is left to be done with fingerprints.
ghost use Rattle.std.specs.Prelude.{◌≡◌, [], map, length, Ok};
ghost use Rattle.answers.specs.Answers.{outcome};
ghost use Rattle.fuse.specs.Memory.{memory};
ghost use Rattle.plan.specs.Paper.{paper};
ghost use Rattle.plan.specs.Plans.{taken, zeros, CanFillFrom, carried_out, CanCarryOut};
ghost use Rattle.plan.specs.Written.{Written};

use answers::Refusal;
use arith::fingerprint::{Fingerprint, clear};
use descriptor::Descriptor;
use fill::fill;
use fuse::attempts::segments_of;
use plan::{Built, Plan};

// The n keys taken are stored, and the room that they took is zeroed. `n` stands beside the lists, as the order has one place more.
fn write<F: Fingerprint>(
    d: Descriptor,
    n: usize,
    fingerprints: &mut [F],
    positions: &mut [u8],
    order: &mut [u64],
)
    requires { CanFillFrom d n order.old positions.old (zeros (map F.bits fingerprints.old)) }
    ensures { Written F.width d n (map F.bits fingerprints.old) positions.old order.old (map F.bits fingerprints.new) positions.new order.new }
{
    clear(fingerprints);
    fill(fingerprints, segments_of(d), &order[..n], positions);
    positions.fill(0);
    order.fill(0);
}

pub fn carry_out<F: Fingerprint>(
    plan: Plan,
    n: usize,
    fingerprints: &mut [F],
    positions: &mut [u8],
    order: &mut [u64],
) -> Result<Built, Refusal>
    requires { CanCarryOut n (length (map F.bits fingerprints.old)) (Ok plan) (taken positions.old order.old) }
    ensures { outcome (paper result) (memory (map F.bits fingerprints.new) [] [] [] positions.new order.new [])
        ≡ carried_out F.width n (Ok plan) (map F.bits fingerprints.old) (taken positions.old order.old) }
{
    match plan {
        Plan::Stuck(slots) => {
            let end = slots as usize;
            clear(&mut fingerprints[..end]);
            Err(Refusal::Stuck)
        }
        Plan::Found(built) => {
            let end = built.slots as usize;
            let places = n + 1;
            write(
                built.descriptor,
                n,
                &mut fingerprints[..end],
                &mut positions[..n],
                &mut order[..places],
            );
            Ok(built)
        }
    }
}
