//! A linear congruential generator of 64 bits.

ghost use Rattle.std.specs.Prelude.{◌≡◌, ◌<◌};
ghost use Rattle.away_gen.specs.Draws.{draw, next};

const MULTIPLIER: u64 = 6_364_136_223_846_793_005;

const INCREMENT: u64 = 1_442_695_040_888_963_407;

/// The state from which the next number is drawn.
#[derive(Drop)]
pub struct Draws {
    pub state: u64,
}

impl Draws {
    /// The draws that begin with a number.
    pub fn new(number: u64) -> Draws
        ensures { result.state ≡ number }
    {
        Draws { state: number }
    }

    /// Draws a number below the bound.
    #[tactic(auto, using(crate::proofs::Steps::steps_once), unfolding(crate::specs::Draws::next, crate::specs::Draws::upper))]
    pub fn below(&mut self, bound: u64) -> u64
        requires { 0 < bound }
        ensures state { self.new.state ≡ next self.old.state }
        ensures drawn { result ≡ draw 1 bound self.old.state }
        ensures below { result < bound }
    {
        self.state = MULTIPLIER.wrapping_mul(self.state).wrapping_add(INCREMENT);
        (self.state >> 33) % bound
    }
}
