// The query of a list of 16-bit fingerprints: may this key be listed?
// `query`'s functions at one width, kept as the names that README, PROMISES and the must-fail edits hold.
ghost use Rattle.std.specs.Prelude.{◌≡◌};
ghost use Rattle.answers.specs.Paper.{paper};
ghost use Rattle.fuse.specs.Query.{contains_of, contains_bytes_of, told};

use answers::Refusal;
use descriptor::Descriptor;

// Asked of the first twenty bytes of a descriptor.
pub fn contains_bytes(descriptor: &[u8], fingerprints: &[u16], key: u64) -> Result<bool, Refusal>
    ensures { paper result ≡ contains_bytes_of 16 descriptor.now fingerprints.now key }
{
    query::contains_bytes(descriptor, fingerprints, key)
}

// Asked of the record.
pub fn contains(d: Descriptor, fingerprints: &[u16], key: u64) -> Result<bool, Refusal>
    ensures { paper result ≡ contains_of 16 d fingerprints.now key }
{
    query::contains(d, fingerprints, key)
}

// What a C program is told: 0 for no, 1 for yes, 16 plus the number of a refusal.
pub fn contains_told(descriptor: &[u8], fingerprints: &[u16], key: u64) -> u32
    ensures { result ≡ told (contains_bytes_of 16 descriptor.now fingerprints.now key) }
{
    query::contains_told(descriptor, fingerprints, key)
}
