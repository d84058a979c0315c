//! What an article tells of the steps of a run.
ghost use Rattle.std.specs.Prelude.{◌≡◌};

use std::marker::Model;

/// What an article tells of a run's steps. Contracts see the flags of the steps, and the number in the names of its binders.
#[derive(Drop)]
pub struct Reach {
    pub(crate) told: Vec<bool>,
    pub(crate) is_export: Vec<bool>,
    pub(crate) number: u64,
}

impl Model for Reach {
    ghost use Rattle.article_reach.specs.Reached.{Told};

    ghost Value = { Told };

    ghost view = { λ r. record { told = r.told.items; is_export = r.is_export.items; number = r.number } };
}

impl Reach {
    /// For each step, whether the exports reach it.
    pub fn told(&self) -> &[bool]
        ensures { result.now ≡ self.now.told }
    {
        &self.told
    }

    /// For each step, whether it is an export.
    pub fn is_export(&self) -> &[bool]
        ensures { result.now ≡ self.now.is_export }
    {
        &self.is_export
    }

    /// The number in the names of the binders.
    pub fn number(&self) -> u64
        ensures { result ≡ self.now.number }
    {
        self.number
    }
}
