// The keys taken, in two lent lists: their hashes and their positions, the first taken first.
ghost use Rattle.std.specs.Prelude.{◌≡◌, [], ◌∷◌, ◌++◌, ◌+◌, ◌<◌, length};
ghost use Rattle.peel.specs.Held.{taken_at, pick_at, SameTaken};
ghost use Rattle.peel.specs.Steps.{CanPush};

use crate::sums::Pick;

// The first `count` of both lists are taken.
#[derive(Drop)]
pub struct Taken<'a> {
    pub order: &'a mut [u64],
    pub positions: &'a mut [u8],
    pub count: usize,
}

impl Taken<'_> {
    // One more, behind them.
    #[tactic(auto, using(crate::proofs::Turns::picks_more))]
    pub fn push(&mut self, key: Pick)
        requires { CanPush key self.old }
        ensures same { SameTaken self.old self.new }
        ensures picks { taken_at self.new ≡ taken_at self.old ++ (pick_at key ∷ []) }
    {
        self.order[self.count] = key.hash;
        self.positions[self.count] = key.position as u8;
        self.count += 1;
    }
}
