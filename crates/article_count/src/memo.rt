//! What was found for parts of terms, so that each is found once.
ghost use Rattle.std.specs.Prelude.{◌≡◌, ◌⊎◌, ℕ, IfSome, OnOk};
ghost use Rattle.article_count.specs.declared.memo.Place.{Place as APlace};
ghost use Rattle.article_count.specs.Noted.{IsNoted};

use common::Memory;
use hol_term::TermId;
use std::alloc::Global;
use std::collections::BTreeMap;

/// A term as a part under so many binders.
#[derive(Clone, Copy)]
pub(crate) struct Place {
    pub(crate) id: TermId,
    pub(crate) depth: u64,
}

/// A number for each place that was noted.
#[derive(Drop)]
pub(crate) struct Memo {
    // By the number of the place's term and how many binders it stands under.
    entries: BTreeMap<(usize, u64), u128>,
}

impl Memo {
    /// Nothing is noted.
    pub(crate) fn new(alloc: Global) -> Self
        ensures empty { (p : APlace) (n : ℕ) → IsNoted result p n → ⊥ }
    {
        Memo {
            entries: BTreeMap::new(alloc),
        }
    }

    /// What was noted of a place.
    pub(crate) fn find(&self, place: Place) -> Option<u128>
        ensures noted { IfSome result (λ n. IsNoted self.now place n) }
    {
        self.entries.get(&(place.id.0, place.depth)).copied()
    }

    /// Notes a number for a place.
    pub(crate) fn note(&mut self, place: Place, number: u128) -> Result<(), Memory>
        ensures noted { OnOk result ((p : APlace) (n : ℕ) → IsNoted self.new p n → IsNoted self.old p n ⊎ ((p ≡ place) × (n ≡ number))) }
    {
        self.entries.insert((place.id.0, place.depth), number)?;
        Ok(())
    }
}
