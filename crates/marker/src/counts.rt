//! How many objects were scanned. What was counted in all never falls: so the count shows that no object was scanned twice in a cycle. Only
//! contracts read that total, so there is no call that tells it.

ghost use Rattle.std.specs.Prelude.{◌≡◌, ◌<◌, ◌-◌, ◌^◌};
ghost use Rattle.marker.specs.Counts.{added, restarted};

use std::marker::Model;

/// The scans since marking began, and all of them.
#[derive(Drop)]
pub struct ScanCount {
    since: u32,
    total: u64,
}

impl Model for ScanCount {
    ghost use Rattle.marker.specs.Counts.{ScanTotals};

    ghost Value = { ScanTotals };

    ghost view = { λ s. record { since = s.since; total = s.total } };
}

impl ScanCount {
    /// Nothing was scanned.
    pub(crate) fn new() -> ScanCount
        ensures { result ≡ record { since = 0; total = 0 } }
    {
        ScanCount { since: 0, total: 0 }
    }

    /// How many since marking began.
    pub fn since(&self) -> u32
        ensures { result ≡ self.now.since }
    {
        self.since
    }

    /// Marking begins.
    pub(crate) fn restart(&mut self)
        ensures { self.new ≡ restarted self.old }
    {
        self.since = 0;
    }

    /// One object more was scanned.
    pub(crate) fn add(&mut self)
        requires { self.old.since < 2 ^ 32 - 1 }
        ensures { self.new ≡ added self.old }
    {
        self.since += 1;
        self.total = self.total.wrapping_add(1);
    }
}
