ghost use Rattle.std.specs.Prelude.{◌≡◌};

use std::marker::Model;

/// Which calls of a double in memory fail, by their numbers from 0, with the counts of the calls made and of those that failed.
/// Both counts stand still at 2^64 - 1.
#[derive(Drop)]
pub struct FaultPlan {
    fail: Vec<u64>,
    calls: u64,
    faults: u64,
}

impl Model for FaultPlan {
    ghost use Rattle.dir_disk.specs.FaultPlan.{Plan};

    ghost Value = { Plan };

    ghost view = { λ p. record { fail = p.fail.items; calls = p.calls; faults = p.faults } };
}

impl FaultPlan {
    ghost use Rattle.std.specs.Prelude.{◌≡◌, ◌≤◌};
    ghost use Rattle.std.specs.Bool.{OnTrue, OnFalse};
    ghost use Rattle.dir_disk.specs.Causes.{Rose};
    ghost use Rattle.dir_disk.specs.FaultPlan.{counted, is_due, planned};

    /// The calls of these numbers are to fail.
    pub fn new(fail: Vec<u64>) -> FaultPlan
        ensures { result ≡ planned fail.items }
    {
        FaultPlan {
            fail,
            calls: 0,
            faults: 0,
        }
    }

    /// How many calls were counted.
    pub fn calls(&self) -> u64
        ensures { result ≡ self.now.calls }
    {
        self.calls
    }

    /// Counts the next call, and says whether it fails.
    pub fn fails_next(&mut self) -> bool
        ensures answer { result ≡ is_due self.old }
        ensures counted { self.new ≡ counted self.old }
        ensures later { self.old.faults ≤ self.new.faults }
        ensures rose { OnTrue result (Rose self.old.faults self.new.faults) }
        ensures same { OnFalse result (self.new.faults ≡ self.old.faults) }
    {
        let due = self.fail.contains(&self.calls);
        self.calls = self.calls.saturating_add(1);
        if due {
            self.faults = self.faults.saturating_add(1);
        }
        due
    }
}
