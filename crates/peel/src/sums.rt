// What each slot knows of the keys that touch it, as keys come and go.
ghost use Rattle.std.specs.Prelude.{◌≡◌, ◌-◌, get_or};
ghost use Rattle.machine.specs.Machine.{change_at};
ghost use Rattle.machine.specs.SumsByKey as machine;
ghost use Rattle.peel.specs.Held.{sums_at, SameSums};
ghost use Rattle.peel.specs.Steps.{CanTouch, CanLeave, Inside, only_at};

// How many keys touch each slot and the xor of their positions, in one number: count × 4 + positions; and the xor of their hashes.
#[derive(Drop)]
pub struct Sums<'a> {
    pub counts: &'a mut [u16],
    pub hashes: &'a mut [u64],
}

// A key by its hash, and at which of its three slots it is taken.
#[derive(Clone, Copy)]
pub struct Pick {
    pub hash: u64,
    pub position: u16,
}

impl Sums<'_> {
    // One key comes to a slot: the count goes up by one, its low two bits take the position, and the sum takes the hash.
    #[tactic(auto, using(crate::proofs::Packed::touched_is))]
    pub fn touch(&mut self, hash: u64, position: u16, slot: u32)
        requires { CanTouch self.old position slot }
        ensures same { SameSums self.old self.new }
        ensures sums { sums_at self.new ≡ machine.touch hash position slot (sums_at self.old) }
    {
        let i = slot as usize;
        self.counts[i] = (self.counts[i] + 4) ^ position;
        self.hashes[i] ^= hash;
    }

    // One key leaves a slot. Returns how many touched it before.
    #[tactic(auto, using(crate::proofs::Packed::left_is, crate::proofs::Packed::count_read))]
    pub fn leave(&mut self, hash: u64, position: u16, slot: u32) -> u16
        requires { CanLeave self.old position slot }
        ensures same { SameSums self.old self.new }
        ensures sums { sums_at self.new ≡ change_at (λ c. c - 1) hash position slot (sums_at self.old) }
        ensures before { result ≡ get_or (sums_at self.old).counts slot 0 }
    {
        let i = slot as usize;
        let packed = self.counts[i];
        self.counts[i] = (packed - 4) ^ position;
        self.hashes[i] ^= hash;
        packed / 4
    }

    // The key that alone touches a slot, if one does.
    #[tactic(auto, using(crate::proofs::Packed::only_one, crate::proofs::Packed::only_none))]
    pub fn only_key(&self, slot: u32) -> Option<Pick>
        requires { Inside self.now slot }
        ensures { result ≡ only_at (sums_at self.now) slot }
    {
        let i = slot as usize;
        let packed = self.counts[i];
        if packed / 4 == 1 {
            Some(Pick {
                hash: self.hashes[i],
                position: packed % 4,
            })
        } else {
            None
        }
    }
}
