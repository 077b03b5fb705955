ghost use Rattle.std.specs.Prelude.{◌≡◌, ◌≤◌, ℕ, IsTrue, Some, None, if◌then◌else◌};
ghost use Rattle.kinds.specs.Days.{is_day, is_days};

use std::marker::Model;

/// A day of the server's calendar, counted from 0; below 2^31.
#[derive(Clone, Copy, Debug, PartialEq, Eq, PartialOrd, Ord)]
pub struct Day {
    number: u32,
}

impl Model for Day {
    ghost Value = { ℕ };

    ghost view = { λ d. d.number };

    ghost invariant = { λ d. IsTrue (is_day d.number) };

    ghost inverse = { λ n. record { number = n } };
}

impl Day {
    /// The day with this number; none where the calendar ends before it.
    pub fn new(number: u32) -> Option<Self>
        ensures { result ≡ (if is_day number then Some number else None) }
    {
        if number < 1 << 31 {
            Some(Day { number })
        } else {
            None
        }
    }

    /// The day's number.
    pub fn number(self) -> u32
        ensures value { result ≡ self }
        ensures grammar { IsTrue (is_day self) }
    {
        self.number
    }
}

impl Default for Day {
    ghost is_default = { λ d. d ≡ 0 };

    /// The calendar's first day.
    fn default() -> Self {
        Day { number: 0 }
    }
}

/// A span of 0 to 9,999 days, as BACKRETENTION and REUSEDELAY give it.
#[derive(Clone, Copy, Debug, PartialEq, Eq, PartialOrd, Ord)]
pub struct Days {
    count: u16,
}

impl Model for Days {
    ghost Value = { ℕ };

    ghost view = { λ d. d.count };

    ghost invariant = { λ d. IsTrue (is_days d.count) };

    ghost inverse = { λ n. record { count = n } };
}

impl Days {
    /// This many days; none where these are too many.
    pub fn new(count: u16) -> Option<Self>
        ensures { result ≡ (if is_days count then Some count else None) }
    {
        if count <= 9999 {
            Some(Days { count })
        } else {
            None
        }
    }

    /// How many days these are.
    pub fn count(self) -> u16
        ensures value { result ≡ self }
        ensures grammar { IsTrue (is_days self) }
    {
        self.count
    }
}
