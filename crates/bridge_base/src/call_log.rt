//! Calls counted, of which the listed ones fail.
ghost use Rattle.std.specs.Prelude.{◌≡◌, ◌≤◌, OnOk, OnErr, is_err};
ghost use Rattle.bridge_base.specs.Outside.{next_count};
ghost use Rattle.bridge_base.specs.Calls.{is_listed, passed, failed};

use crate::outside::Failed;
use std::marker::Model;

/// Counts calls from 1, up to the greatest u64, and says which of them are to fail.
#[derive(Debug, Drop)]
pub(crate) struct CallLog {
    made: u64,
    failing: Vec<u64>,
    faults: u64,
}

impl Model for CallLog {
    ghost use Rattle.bridge_base.specs.Calls.{Calls};

    ghost Value = { Calls };

    ghost view = { λ log. record { made = log.made; failing = log.failing.items; faults = log.faults } };
}

impl CallLog {
    /// No call was made, and those of these numbers are to fail.
    pub(crate) fn new(failing: Vec<u64>) -> CallLog
        ensures { result ≡ record { made = 0; failing = failing.items; faults = 0 } }
    {
        CallLog {
            made: 0,
            failing,
            faults: 0,
        }
    }

    /// Counts one more call, which fails if it is listed.
    pub(crate) fn count(&mut self) -> Result<(), Failed>
        ensures listed { is_err result ≡ is_listed self.old }
        ensures ok { OnOk result (self.new ≡ passed self.old) }
        ensures err { OnErr result (self.new ≡ failed self.old) }
        ensures later { self.old.faults ≤ self.new.faults }
    {
        self.made = self.made.saturating_add(1);
        if self.failing.contains(&self.made) {
            self.faults = self.faults.saturating_add(1);
            return Err(Failed);
        }
        Ok(())
    }

    /// Counts one more failure.
    pub(crate) fn fail(&mut self) -> Failed
        ensures faults { self.new ≡ record self.old { faults = next_count self.old.faults } }
        ensures later { self.old.faults ≤ self.new.faults }
    {
        self.faults = self.faults.saturating_add(1);
        Failed
    }

    /// How many calls were made.
    pub(crate) fn made(&self) -> u64
        ensures { result ≡ self.now.made }
    {
        self.made
    }

    /// How many calls failed.
    pub(crate) fn faults(&self) -> u64
        ensures { result ≡ self.now.faults }
    {
        self.faults
    }
}
