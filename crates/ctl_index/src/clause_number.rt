//! Numbers of clauses in few bytes.

ghost use Rattle.std.specs.Prelude.{◌≡◌, ◌<◌, ◌^◌};

use std::marker::Model;
use std::mem::size_of;

// Each of the three parts counts so many of the one before.
const UNIT: u128 = 4_294_967_296;

/// The number of a clause, which is less than 2^96, in 12 bytes.
#[derive(Clone, Copy)]
pub struct ClauseNumber {
    low: u32,
    middle: u32,
    high: u32,
}

// A real list has some 300,000 of them.
const _: () = prove!(size_of::<ClauseNumber>() == 12);

impl Model for ClauseNumber {
    ghost use Rattle.std.specs.Prelude.{◌≡◌, ℕ, ◌+◌, ◌*◌, ◌/◌, ◌%◌, ◌<◌, ◌^◌};
    ghost use Rattle.std.proofs.Common.{arith};

    ghost Value = { ℕ };

    ghost view = { λ n. (n.high * 2 ^ 32 + n.middle) * 2 ^ 32 + n.low };

    ghost invariant = { λ n. (n.low < 2 ^ 32) × ((n.middle < 2 ^ 32) × (n.high < 2 ^ 32)) };

    ghost inverse = { λ m. record { low = m % 2 ^ 32; middle = m / 2 ^ 32 % 2 ^ 32; high = m / 2 ^ 32 / 2 ^ 32 } };

    ghost inverse_ok = { λ n small.
        let low : ((n.high * 2 ^ 32 + n.middle) * 2 ^ 32 + n.low) % 2 ^ 32 ≡ n.low = omega (arith, small.0) in
        let middle : ((n.high * 2 ^ 32 + n.middle) * 2 ^ 32 + n.low) / 2 ^ 32 % 2 ^ 32 ≡ n.middle = omega (arith, small.0, small.1.0) in
        let high : ((n.high * 2 ^ 32 + n.middle) * 2 ^ 32 + n.low) / 2 ^ 32 / 2 ^ 32 ≡ n.high = omega (arith, small.0, small.1.0) in
        λ i. record { low = low i; middle = middle i; high = high i } };
}

impl ClauseNumber {
    /// The same number in fewer bytes.
    pub fn new(number: u128) -> ClauseNumber
        requires { number < 2 ^ 96 }
        ensures { result ≡ number }
    {
        ClauseNumber {
            low: (number % UNIT) as u32,
            middle: (number / UNIT % UNIT) as u32,
            high: (number / UNIT / UNIT) as u32,
        }
    }

    /// The number.
    pub fn get(&self) -> u128
        ensures number { result ≡ self.now }
        ensures few { result < 2 ^ 96 }
    {
        (self.high as u128 * UNIT + self.middle as u128) * UNIT + self.low as u128
    }
}
