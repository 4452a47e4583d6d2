//! Draws of the generator.
ghost use Rattle.std.specs.Prelude.{◌≡◌, ◌/◌, ◌<◌, ◌^◌};
ghost use Rattle.tablet_gen.specs.Draws.{next_state};

/// A linear congruential generator, as the C standard's example of `rand` is one.
#[derive(Drop)]
pub struct Draws {
    pub state: u32,
}

impl Draws {
    /// The next draw, which is below 2^15.
    pub fn draw(&mut self) -> u32
        ensures drawn { result ≡ next_state self.old.state / 65536 }
        ensures state { self.new.state ≡ next_state self.old.state }
    {
        let next = (1_103_515_245 * u64::from(self.state) + 12_345) % 2_147_483_648;
        self.state = next as u32;
        self.state / 65_536
    }
}
