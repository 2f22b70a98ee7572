// The scratch that a build is lent: six buffers, which always go together.
#![tactic(auto)]

ghost use Rattle.std.specs.Prelude.{◌≡◌, length, replicate};
ghost use Rattle.scratch.specs.Lent.{SameBuffers, short_of};

// For n keys: lone list, touch counts and hash sums of A elements, positions of n, order of n + 1, bucket starts of P.
#[derive(Drop)]
pub struct Scratch<'a> {
    pub lone: &'a mut [u32],
    pub counts: &'a mut [u16],
    pub sums: &'a mut [u64],
    pub positions: &'a mut [u8],
    pub order: &'a mut [u64],
    pub starts: &'a mut [u32],
}

impl Scratch<'_> {
    // Whether a buffer is too short for n keys, which ask for so many slots and bucket starts.
    pub fn is_short(&self, n: usize, slots: usize, starts: usize) -> bool
        ensures { result ≡ short_of n slots starts (length self.now.lone.now) (length self.now.counts.now) (length self.now.sums.now) (length self.now.positions.now) (length self.now.order.now) (length self.now.starts.now) }
    {
        self.lone.len() < slots
            || self.counts.len() < slots
            || self.sums.len() < slots
            || self.positions.len() < n
            || self.order.len() <= n
            || self.starts.len() < starts
    }

    // The touch counts and hash sums zeroed, and nothing else touched.
    pub fn clear_sums(&mut self)
        ensures same { SameBuffers self.old self.new }
        ensures starts { self.new.starts.now ≡ self.old.starts.now }
        ensures counts { self.new.counts.now ≡ replicate (length self.old.counts.now) 0 }
        ensures sums { self.new.sums.now ≡ replicate (length self.old.sums.now) 0 }
        ensures lone { self.new.lone.now ≡ self.old.lone.now }
        ensures positions { self.new.positions.now ≡ self.old.positions.now }
        ensures order { self.new.order.now ≡ self.old.order.now }
    {
        self.counts.fill(0);
        self.sums.fill(0);
    }
}
