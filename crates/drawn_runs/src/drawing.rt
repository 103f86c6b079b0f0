ghost use Rattle.std.specs.Prelude.{◌≡◌, ℕ, ◌<◌, ◌%◌};
ghost use Rattle.drawn_runs.specs.Drawing.{draw, reached};

use std::marker::Model;

/// What a number is multiplied by, modulo 2^64, to give the next one.
const FACTOR: u64 = 6364136223846793005;

/// What is then added, modulo 2^64.
const INCREMENT: u64 = 1442695040888963407;

/// How many low bits of a number are left out of what is drawn.
const LEFT_OUT: u32 = 33;

/// Draws one number after another. Contracts see the number that it has reached.
#[derive(Drop)]
pub(crate) struct Drawing {
    number: u64,
}

impl Model for Drawing {
    ghost Value = { ℕ };

    ghost view = { λ drawing. drawing.number };
}

impl Drawing {
    /// Begins at this number.
    pub(crate) fn new(number: u64) -> Drawing
        ensures { result ≡ number }
    {
        Drawing { number }
    }

    /// Draws a number below a bound.
    pub(crate) fn below(&mut self, bound: u64) -> u64
        requires { 0 < bound }
        ensures drawn { result ≡ draw self.old 0 % bound }
        ensures below { result < bound }
        ensures after { self.new ≡ reached self.old 1 }
    {
        self.number = self.number.wrapping_mul(FACTOR).wrapping_add(INCREMENT);
        (self.number >> LEFT_OUT) % bound
    }
}
