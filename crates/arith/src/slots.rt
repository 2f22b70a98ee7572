// `hash_of_hash` of the Rust: the three slots of a hash, in the order of their positions.
ghost use Rattle.std.specs.Prelude.{◌≡◌, ◌+◌, ◌*◌, ◌^◌, ◌<◌};
ghost use Rattle.arith.specs.Slots.{slots_of};

use words::mul_high;

// The three numbers that cut the slots of a list into segments: the segment length L, the mask L - 1, and the segment count length,
// here `span`. The Rust's sums wrap at 2^32. Here they have room: in a layout that is built, and in one that the checks accept, they have.
#[derive(Clone, Copy)]
pub struct Segments {
    pub length: u32,
    pub mask: u32,
    pub span: u32,
    ghost room: { span + 2 * length < 2 ^ 32 },
}

impl Segments {
    pub fn slots(self, hash: u64) -> [u32; 3]
        ensures { result ≡ slots_of hash self.length self.mask self.span }
    {
        let upper = ((hash >> 18) & (self.mask as u64)) as u32;
        let lower = (hash & (self.mask as u64)) as u32;
        let first = mul_high(hash, self.span);
        let next = first + self.length;
        let after = next + self.length;
        [first, next ^ upper, after ^ lower]
    }
}
