//! Draws from a seed, each of which depends on the seed and its place alone.
ghost use Rattle.std.specs.Prelude.{◌≡◌, ◌<◌, ◌%◌};
ghost use Rattle.ts_record.specs.Generator.{next, drawn};

// The multiplier of the linear congruential generator (that of Knuth's MMIX).
const MULTIPLIER: u64 = 6_364_136_223_846_793_005;

// Its increment.
const INCREMENT: u64 = 1_442_695_040_888_963_407;

// How many of the lower bits of a state a draw does not show.
const HIDDEN_BITS: u32 = 33;

/// A linear congruential generator of 64 bits.
#[derive(Drop)]
pub struct Draws {
    /// The seed, and then what the last draw led to.
    pub state: u64,
}

impl Draws {
    // A draw: the upper 31 bits of the next state.
    fn draw(&mut self) -> u64
        ensures state { self.new.state ≡ next self.old.state }
        ensures drawn { result ≡ drawn self.new.state }
    {
        self.state = self.state.wrapping_mul(MULTIPLIER).wrapping_add(INCREMENT);
        self.state >> HIDDEN_BITS
    }

    /// A draw modulo a limit.
    pub fn below(&mut self, limit: u64) -> u64
        requires { 0 < limit }
        ensures state { self.new.state ≡ next self.old.state }
        ensures drawn { result ≡ drawn self.new.state % limit }
        ensures below { result < limit }
    {
        self.draw() % limit
    }
}
