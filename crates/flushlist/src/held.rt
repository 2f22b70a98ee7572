// What a packed file answers to a key, and whether it answers yes to every key of a text.
ghost use Rattle.std.specs.Prelude.{◌≡◌, ◌+◌, ◌↔◌, IsTrue, length};
ghost use Rattle.answers.specs.Paper.{paper};
ghost use Rattle.descriptor.specs.Descriptor.{descriptor_size};
ghost use Rattle.layout.specs.Layout.{max_slots};
ghost use Rattle.flushlist.specs.Held.{asked_of, Held};

use answers::Refusal;
use descriptor::DESCRIPTOR_SIZE;
use layout::limits::MAX_SLOTS;

// One byte more than the longest list.
const LIST_ROOM: usize = DESCRIPTOR_SIZE + MAX_SLOTS + 1;

// Only the length is promised, so that nothing above computes with so many zeros.
pub fn list_room() -> [u8; LIST_ROOM]
    ensures { descriptor_size + max_slots + 1 ≡ length result }
{
    [0; LIST_ROOM]
}

// What a file's bytes answer.
#[tactic(auto, unfolding(crate::specs::Held::asked_of))]
pub fn asked(file: &[u8], key: u64) -> Result<bool, Refusal>
    ensures { paper result ≡ asked_of file.now key }
{
    let (head, fingerprints) = file.split_at(DESCRIPTOR_SIZE.min(file.len()));
    contains8::contains_bytes(head, fingerprints, key)
}

// Whether they answer yes to every key.
pub fn all(file: &[u8], keys: &[u64]) -> bool
    ensures { IsTrue result ↔ Held file.now keys.now }
{
    keys.iter().all(|key| asked(file, *key) == Ok(true))
}
