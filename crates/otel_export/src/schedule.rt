//! Moments at which a program exports: periodic export (Metrics SDK, "Periodic exporting MetricReader") by moments that
//! are handed in.

ghost use Rattle.std.specs.Prelude.{◌≡◌, ◌≤◌, ◌↔◌, IsTrue, max};
ghost use Rattle.std.specs.Bool.{MatchBool};
ghost use Rattle.otel_export.specs.Schedules.{IsNextAfter};

use std::marker::Model;

/// Moments a period apart, in nanoseconds since 1970, of which it keeps the next that isn't reached yet. Contracts see
/// it as its first moment, its period and its next moment.
#[derive(Clone, Copy, Debug, PartialEq, Eq)]
pub struct Schedule {
    start: u64,
    period: u64,
    next: u64,
}

impl Model for Schedule {
    ghost use Rattle.std.specs.Prelude.{◌<◌, ◌≤◌};
    ghost use Rattle.otel_export.specs.Schedules.{Moments};

    ghost Value = { Moments };

    ghost view = { λ s. record { start = s.start; period = s.period; next = s.next } };

    ghost invariant = { λ s. (0 < s.period) × (s.start ≤ s.next) };

    ghost inverse = { λ m. record { start = m.start; period = m.period; next = m.next } };
}

impl Schedule {
    /// A schedule that is first due at `start`, and then every `period` nanoseconds. A period of 0 counts as one of a
    /// nanosecond.
    pub fn new(start: u64, period: u64) -> Schedule
        ensures { result ≡ record { start = start; period = max 1 period; next = start } }
    {
        Schedule {
            start,
            period: period.max(1),
            next: start,
        }
    }

    /// The next moment at which it is due.
    pub fn next_moment(&self) -> u64
        ensures { result ≡ self.now.next }
    {
        self.next
    }

    /// Whether the next moment is reached. If it is, the next is then the first past `now`, however many were missed;
    /// past the end of `u64` it is `u64::MAX`.
    pub fn due(&mut self, now: u64) -> bool
        ensures due { IsTrue result ↔ (self.old.next ≤ now) }
        ensures next { MatchBool result (IsNextAfter self.old now self.new.next) (self.new.next ≡ self.old.next) }
        ensures start { self.new.start ≡ self.old.start }
        ensures period { self.new.period ≡ self.old.period }
    {
        if now < self.next {
            return false;
        }
        let last = now - (now - self.start) % self.period;
        self.next = last.saturating_add(self.period);
        true
    }
}
