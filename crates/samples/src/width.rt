// The filter at either width: its queries, by the type of the fingerprints that are asked.
use answers::Refusal;
use descriptor::Descriptor;

pub trait Width: Copy + Eq + From<u8> {
    // What stands before a line on this width.
    const HEADING: &'static str;

    fn contains(d: Descriptor, fingerprints: &[Self], key: u64) -> Result<bool, Refusal>;

    fn contains_bytes(descriptor: &[u8], fingerprints: &[Self], key: u64) -> Result<bool, Refusal>;

    fn contains_told(descriptor: &[u8], fingerprints: &[Self], key: u64) -> u32;

    // The digest with this fingerprint's bytes added, the low one first.
    fn feed(self, digest: u64) -> u64;
}

impl Width for u8 {
    const HEADING: &'static str = "";

    fn contains(d: Descriptor, fingerprints: &[u8], key: u64) -> Result<bool, Refusal> {
        contains8::contains(d, fingerprints, key)
    }

    fn contains_bytes(descriptor: &[u8], fingerprints: &[u8], key: u64) -> Result<bool, Refusal> {
        contains8::contains_bytes(descriptor, fingerprints, key)
    }

    fn contains_told(descriptor: &[u8], fingerprints: &[u8], key: u64) -> u32 {
        contains8::contains_told(descriptor, fingerprints, key)
    }

    fn feed(self, digest: u64) -> u64 {
        (digest ^ u64::from(self)).wrapping_mul(1099511628211)
    }
}

impl Width for u16 {
    const HEADING: &'static str = "16 bits: ";

    fn contains(d: Descriptor, fingerprints: &[u16], key: u64) -> Result<bool, Refusal> {
        bfuse16::contains(d, fingerprints, key)
    }

    fn contains_bytes(descriptor: &[u8], fingerprints: &[u16], key: u64) -> Result<bool, Refusal> {
        bfuse16::contains_bytes(descriptor, fingerprints, key)
    }

    fn contains_told(descriptor: &[u8], fingerprints: &[u16], key: u64) -> u32 {
        bfuse16::contains_told(descriptor, fingerprints, key)
    }

    fn feed(self, digest: u64) -> u64 {
        let [low, high] = self.to_le_bytes();
        high.feed(low.feed(digest))
    }
}
