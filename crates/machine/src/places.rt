// The thread and the location of an event, once the tests of rules.rt have found them there: types that hold their
// limits, so that what follows a test asks for none.
ghost use Rattle.std.specs.Prelude.{◌≡◌, ℕ, ◌<◌};

use std::marker::Model;

// A number below N.
#[derive(Clone, Copy)]
pub(crate) struct Below<const N: u16> {
    number: u16,
}

pub(crate) type ThreadId = Below<8>;

pub(crate) type Location = Below<256>;

impl<const N: u16> Model for Below<N> {
    ghost Value = { ℕ };

    ghost view = { λ b. b.number };

    ghost invariant = { λ b. b.number < N };

    ghost inverse = { λ n. record { number = n } };
}

impl<const N: u16> Below<N> {
    pub(crate) fn of(number: u16) -> Below<N>
        requires { number < N }
        ensures { result ≡ number }
    {
        Below { number }
    }

    pub(crate) fn number(self) -> u16
        ensures { (result ≡ self.entry) × (self.entry < N) }
    {
        self.number
    }
}
