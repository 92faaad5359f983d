ghost use Rattle.std.specs.Prelude.{◌+◌, ◌<◌, ◌≡◌};

use std::marker::Model;

// A number of up to four decimal digits that is counted up in place, so that its digits are known with no division. In
// contracts it is the number.
#[derive(Drop)]
pub(crate) struct Counter {
    pub(crate) thousands: u8,
    pub(crate) hundreds: u8,
    pub(crate) tens: u8,
    pub(crate) ones: u8,
}

impl Model for Counter {
    ghost use Rattle.std.specs.Prelude.{ℕ};
    ghost use Rattle.schedule.specs.Private.{number_of, AreDigits};

    ghost Value = { ℕ };

    ghost view = { λ c. number_of c.thousands c.hundreds c.tens c.ones };

    ghost invariant = { λ c. AreDigits c.thousands c.hundreds c.tens c.ones };
}

impl Counter {
    #[inline(always)]
    pub(crate) fn zero() -> Counter
        ensures { result ≡ 0 }
    {
        Counter {
            thousands: 0,
            hundreds: 0,
            tens: 0,
            ones: 0,
        }
    }

    // Counts one up. A 9 becomes a 0, and the digit before it is counted up.
    #[inline(always)]
    pub(crate) fn next(&mut self)
        requires { self.old < 9999 }
        ensures { self.new ≡ self.old + 1 }
    {
        if self.ones < 9 {
            self.ones += 1;
            return;
        }
        self.ones = 0;
        if self.tens < 9 {
            self.tens += 1;
            return;
        }
        self.tens = 0;
        if self.hundreds < 9 {
            self.hundreds += 1;
            return;
        }
        self.hundreds = 0;
        self.thousands += 1;
    }
}
