// Pseudo-random numbers.
ghost use Rattle.std.specs.Prelude.{◌≡◌, ◌<◌, ◌^◌};

/// A linear congruential generator of 31 bits; its answers come from the upper 15.
#[derive(Drop)]
pub struct Draws {
    pub state: u64,
    pub ghost small: { state < 2 ^ 31 },
}

impl Draws {
    ghost use Rattle.bk_dump.specs.Generate.{draw, next};

    /// Draws a number below `below`.
    #[tactic(auto, unfolding(crate::specs::Generate::draw, crate::specs::Generate::next))]
    pub fn draw(&mut self, below: u64) -> u64
        requires { 0 < below }
        ensures answer { result ≡ draw below self.old.state }
        ensures state { self.new.state ≡ next self.old.state }
        ensures below { result < below }
    {
        self.state = (self.state * 1_103_515_245 + 12_345) % (1 << 31);
        self.state / 65_536 % below
    }
}
