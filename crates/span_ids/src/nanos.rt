//! Times of a span, in nanoseconds.
ghost use Rattle.std.specs.Prelude.{◌≡◌, ◌<◌, ◌≤◌, ◌↔◌, None, IfSome};
ghost use Rattle.span_ids.specs.Times.{micros, floor, nanos, last_micros, IsWhole};

use std::marker::Model;

/// A moment or a length of time, in nanoseconds. A moment counts from the Unix epoch (OTLP
/// `start_time_unix_nano`). Contracts see the number.
#[derive(Clone, Copy, PartialEq, Eq, PartialOrd, Ord)]
pub struct Nanos(pub u64);

impl Model for Nanos {
    ghost use Rattle.std.specs.Prelude.{ℕ};

    ghost Value = { ℕ };

    ghost view = { λ n. n.0 };

    ghost inverse = { λ n. record { 0 = n } };
}

// The last count of microseconds whose nanoseconds fit.
const LAST_MICROS: u64 = u64::MAX / 1000;

impl Nanos {
    /// The whole microseconds.
    pub fn micros(self) -> u64
        ensures value { result ≡ micros self }
        // So that `of_micros` takes them.
        ensures fits { result ≤ last_micros }
    {
        self.0 / 1000
    }

    /// The nanoseconds down to a whole microsecond.
    pub fn floor(self) -> Nanos
        ensures value { result ≡ floor self }
        // It is what `of_micros` gives of the whole microseconds.
        ensures whole { result ≡ nanos (micros self) }
        ensures again { IsWhole result }
    {
        Nanos(self.0 - self.0 % 1000)
    }

    /// So many microseconds, where their nanoseconds fit 64 bits.
    pub fn of_micros(u: u64) -> Option<Nanos>
        ensures none { (result ≡ None) ↔ (last_micros < u) }
        ensures value { IfSome result (λ n. n ≡ nanos u) }
        // So that `micros` gives the number back.
        ensures again { IfSome result (λ n. micros n ≡ u) }
    {
        if u > LAST_MICROS {
            return None;
        }
        Some(Nanos(u * 1000))
    }
}
