//! The generator of the drawn numbers.
ghost use Rattle.std.specs.Prelude.{◌≡◌, ◌<◌, ◌^◌};
ghost use Rattle.bench_problems.specs.Generator.{next_state, drawn_number};

// A linear congruential generator.
#[derive(Drop)]
pub(crate) struct Draws {
    state: u64,
    ghost within: { state < 2 ^ 31 },
}

impl Draws {
    pub(crate) fn new(seed: u64) -> Draws
        requires { seed < 2 ^ 31 }
        ensures { result.state ≡ seed }
    {
        Draws { state: seed }
    }

    // Returns the next number, which is below 4.
    pub(crate) fn draw(&mut self) -> usize
        ensures number { result ≡ drawn_number self.old.state }
        ensures state { self.new.state ≡ next_state self.old.state }
    {
        self.state = (self.state * 1_103_515_245 + 12_345) % (1 << 31);
        (self.state / 65_536 % 4) as usize
    }
}
