//! The count of tests of an offer against an atom.

ghost use Rattle.std.specs.Prelude.{◌≡◌, ◌+◌, ◌-◌, ◌^◌, min};

use std::marker::Model;

/// How many times an offer was tested against an atom, seen as that number. At the last value of `u128` it stays.
#[derive(Drop)]
pub struct Steps {
    count: u128,
}

impl Model for Steps {
    ghost use Rattle.std.specs.Prelude.{ℕ};

    ghost Value = { ℕ };

    ghost view = { λ s. s.count };
}

impl Steps {
    /// No test yet.
    pub fn new() -> Steps
        ensures { result ≡ 0 }
    {
        Steps { count: 0 }
    }

    /// How many tests were counted.
    pub fn count(&self) -> u128
        ensures { result ≡ self.now }
    {
        self.count
    }

    /// So many tests are counted more.
    pub fn add(&mut self, tests: usize)
        ensures { self.new ≡ min (self.old + tests) (2 ^ 128 - 1) }
    {
        self.count = self.count.saturating_add(tests as u128);
    }

    pub(crate) fn add_one(&mut self)
        ensures { self.new ≡ min (self.old + 1) (2 ^ 128 - 1) }
    {
        self.count = self.count.saturating_add(1);
    }
}
