// A clock by hand, and one over std's.
ghost use Rattle.std.specs.Prelude.{◌≡◌, ◌≤◌, drop, slice_get, unwrap_or};

use crate::Clock;
use std::marker::Model;
use std::rt::Clock as SystemClock;
use std::time::Instant;

/// Answers the numbers of a list in turn. Past the list's end it answers the last one again, or 0
/// where there was none.
#[derive(Drop)]
pub struct HandClock {
    ticks: Vec<u64>,
    at: usize,
    last: u64,
}

impl Model for HandClock {
    ghost use Rattle.std.specs.Prelude.{◌≤◌, drop, length};
    ghost use Rattle.ufs_io.specs.Views.{HandView};

    ghost Value = { HandView };

    ghost view = { λ c. record { last = c.last; coming = drop c.at c.ticks.items } };

    ghost invariant = { λ c. c.at ≤ length c.ticks.items };
}

impl HandClock {
    pub fn new(ticks: Vec<u64>) -> Self
        ensures { result ≡ record { last = 0; coming = ticks.items } }
    {
        HandClock {
            ticks,
            at: 0,
            last: 0,
        }
    }
}

impl Clock for HandClock {
    fn now(&mut self) -> u64
        ensures next { result ≡ unwrap_or (slice_get self.old.coming 0) self.old.last }
        ensures last { self.new.last ≡ result }
        ensures coming { self.new.coming ≡ drop 1 self.old.coming }
    {
        if self.at < self.ticks.len() {
            self.last = self.ticks[self.at];
            self.at += 1;
        }
        self.last
    }
}

/// Counts milliseconds since it was made. Where std's clock fails, or goes back, it answers what it
/// answered last.
#[derive(Drop)]
pub struct MilliClock<'a, R: SystemClock> {
    rt: &'a R,
    start: Option<Instant>,
    last: u64,
}

// Contracts see the last answer.
impl<'a, R: SystemClock> Model for MilliClock<'a, R> {
    ghost use Rattle.std.specs.Prelude.{ℕ};

    ghost Value = { ℕ };

    ghost view = { λ c. c.last };
}

impl<'a, R: SystemClock> MilliClock<'a, R> {
    pub fn new(rt: &'a R) -> Self
        ensures { result ≡ 0 }
    {
        MilliClock {
            rt,
            start: Instant::now(rt).ok(),
            last: 0,
        }
    }
}

impl<'a, R: SystemClock> Clock for MilliClock<'a, R> {
    fn now(&mut self) -> u64
        ensures last { self.new ≡ result }
        ensures later { self.old ≤ result }
    {
        if let Ok(now) = Instant::now(self.rt) {
            let start = *self.start.get_or_insert(now);
            let passed = now.duration_since(start).as_millis();
            self.last = self.last.max(u64::try_from(passed).unwrap_or(u64::MAX));
        }
        self.last
    }
}
