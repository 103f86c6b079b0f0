ghost use Rattle.std.specs.Prelude.{◌≡◌, ◌<◌, ◌^◌};

use std::marker::Model;

/// A place in a file, in bytes from its start, in six bytes: a file may have less than `2^48` of them. Contracts see it as
/// the number.
#[derive(Drop)]
pub struct Place {
    high: u16,
    middle: u16,
    low: u16,
}

impl Model for Place {
    ghost use Rattle.std.specs.Prelude.{ℕ, ◌+◌, ◌*◌};

    ghost Value = { ℕ };

    ghost view = { λ place. place.low + 65536 * (place.middle + 65536 * place.high) };
}

impl Place {
    /// The place of this number.
    pub fn new(number: u64) -> Place
        requires { number < 2 ^ 48 }
        ensures { result ≡ number }
    {
        Place {
            high: (number / 65536 / 65536) as u16,
            middle: (number / 65536 % 65536) as u16,
            low: (number % 65536) as u16,
        }
    }

    /// Its number.
    pub fn number(&self) -> u64
        ensures number { result ≡ self.now }
        ensures bound { result < 2 ^ 48 }
    {
        u64::from(self.low) + 65536 * (u64::from(self.middle) + 65536 * u64::from(self.high))
    }
}
