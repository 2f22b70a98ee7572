// Checks 1 to 4, of the number of keys, the attempt limit or number, and the lengths of what is lent.
ghost use Rattle.std.specs.Prelude.{◌≡◌, length};
ghost use Rattle.answers.specs.Paper.{passed};
ghost use Rattle.fuse.specs.Memory.{checks_of};

use crate::attempts::slots_for;
use answers::Refusal;
use capacity::MAX_KEYS;
use layout::bucket_starts;
use scratch::Scratch;

// An attempt limit or number is at most this.
pub const MAX_ATTEMPTS: u32 = 1000;

// `fingerprints` is how many are lent: a number, since no width is known here, so both widths share the code.
#[tactic(auto, unfolding(crate::specs::Memory::checks_of))]
pub fn check(n: usize, limit: u32, fingerprints: usize, scratch: &Scratch) -> Result<(), Refusal>
    ensures { passed result ≡ checks_of n limit fingerprints (length scratch.now.lone.now) (length scratch.now.counts.now) (length scratch.now.sums.now) (length scratch.now.positions.now) (length scratch.now.order.now) (length scratch.now.starts.now) }
{
    if n > MAX_KEYS as usize {
        return Err(Refusal::TooManyKeys);
    }
    if !(1..=MAX_ATTEMPTS).contains(&limit) {
        return Err(Refusal::AttemptOutOfRange);
    }
    let slots = slots_for(n as u32) as usize;
    if fingerprints < slots {
        return Err(Refusal::ShortFingerprints);
    }
    let needed = bucket_starts(n as u32) as usize;
    if scratch.is_short(n, slots, needed) {
        return Err(Refusal::ShortScratch);
    }
    Ok(())
}
