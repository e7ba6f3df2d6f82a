//! The generator of the drawn stores.
ghost use Rattle.std.specs.Prelude.{◌≡◌, ◌<◌, ◌^◌, length, slice_index};
ghost use Rattle.bench_problems.specs.Generator.{next_state};
ghost use Rattle.store_trials.specs.StoreLists.{drawn_below, drawn_digits, drawn_value, state_after, after_value};

use kat_model::Width;

// A linear congruential generator, that of the generated problems.
#[derive(Drop)]
pub(crate) struct Draws {
    pub state: u64,
    ghost within: { state < 2 ^ 31 },
}

impl Draws {
    pub(crate) fn new() -> Draws
        ensures { result.state ≡ 0 }
    {
        Draws { state: 0 }
    }

    // Returns a number below the bound.
    fn below(&mut self, bound: u64) -> u64
        requires { 0 < bound }
        ensures number { result ≡ drawn_below bound self.old.state }
        ensures bound { result < bound }
        ensures state { self.new.state ≡ next_state self.old.state }
    {
        self.state = (self.state * 1_103_515_245 + 12_345) % (1 << 31);
        self.state / 65_536 % bound
    }

    // Returns the number of the width whose digits to the base 32,768 are five draws.
    fn digits(&mut self, width: Width) -> u64
        ensures number { result ≡ drawn_digits width 5 0 self.old.state }
        ensures state { self.new.state ≡ state_after 5 self.old.state }
    {
        let mut total = 0;
        for _ in 0..5_u32 {
            let digit = self.below(32_768);
            total = width.add(width.mul(total, 32_768), digit);
        }
        total
    }

    // Passes over draws.
    fn pass(&mut self, count: u32)
        ensures { self.new.state ≡ state_after count self.old.state }
    {
        for _ in 0..count {
            self.below(2);
        }
    }

    // Returns a number of the list, by its place.
    fn listed(&mut self, numbers: &[u64]) -> u64
        requires { 0 < length numbers.now }
        ensures number { result ≡ slice_index numbers.now (drawn_below (length numbers.now) self.old.state) }
        ensures state { self.new.state ≡ state_after 5 self.old.state }
    {
        let place = self.below(numbers.len() as u64);
        self.pass(4);
        numbers[place as usize]
    }

    /// Returns a number: one of the list, or one of the width. Takes six draws.
    pub(crate) fn value(&mut self, width: Width, numbers: &[u64]) -> u64
        requires { 0 < length numbers.now }
        ensures number { result ≡ drawn_value width numbers.now self.old.state }
        ensures state { self.new.state ≡ after_value self.old.state }
    {
        if self.below(2) == 0 {
            return self.listed(numbers);
        }
        self.digits(width)
    }
}
