//! What was found last of trees and numbers, in a list of bounded length.
ghost use Rattle.std.specs.Prelude.{◌≡◌, ◌⊎◌, ℕ, [], List, slice_get, Some, IfNone, IfSome, OnOk};
ghost use Rattle.lp_term.specs.declared.LpId.{LpId as AnId};
ghost use Rattle.lp_kernel.specs.declared.latest.Finding.{Finding as AFinding};
ghost use Rattle.lp_kernel.specs.Latest.{place_of as place_at, IsKept};

use common::Memory;
use lp_term::LpId;
use std::alloc::Global;
use std::marker::Model;

/// What was found of a tree and a number.
#[derive(Clone, Copy)]
pub struct Finding {
    pub(crate) id: LpId,
    pub(crate) by: u128,
    pub(crate) found: LpId,
}

/// What was found, each at a place of its own: another that has the same place takes it. So there are never more than `PLACES`, a
/// look-up is one step whatever the module, and nothing is found but by all of its key.
#[derive(Drop)]
pub struct Latest {
    kept: Vec<Finding>,
}

impl Model for Latest {
    ghost use Rattle.std.specs.Prelude.{List};
    ghost use Rattle.lp_kernel.specs.declared.latest.Finding.{Finding as AFinding};

    ghost Value = { List AFinding };

    ghost view = { λ l. l.kept.items };
}

impl Latest {
    /// Nothing was found.
    pub(crate) fn new(alloc: Global) -> Self
        ensures { result ≡ [] }
    {
        Latest {
            kept: Vec::new(alloc),
        }
    }

    /// Forgets all.
    pub(crate) fn clear(&mut self)
        ensures { self.new ≡ [] }
    {
        self.kept.clear();
    }

    /// What was found of this tree and this number, if that is kept.
    pub(crate) fn find(&self, id: LpId, by: u128) -> Option<LpId>
        ensures kept { IfSome result (λ r. IsKept self.now id by r) }
        ensures absent { IfNone result ((r : AnId) → IsKept self.now id by r → ⊥) }
    {
        let kept = *self.kept.get(place_of(id, by))?;
        if kept.id == id && kept.by == by {
            Some(kept.found)
        } else {
            None
        }
    }

    /// Keeps what was found, for what was at its place before.
    pub(crate) fn keep(&mut self, finding: Finding) -> Result<(), Memory>
        ensures kept { OnOk result (IsKept self.new finding.id finding.by finding.found) }
        ensures only { OnOk result ((place : ℕ) (f : AFinding) → slice_get self.new place ≡ Some f → slice_get self.old place ≡ Some f ⊎ (f ≡ finding)) }
    {
        keep_at(&mut self.kept, place_of(finding.id, finding.by), finding)
    }
}

// How many places there are.
const PLACES: usize = 1024;

// The place of a tree and a number.
fn place_of(id: LpId, by: u128) -> usize
    ensures { result ≡ place_at id by }
{
    (id.0 % PLACES + 37 * (by % 1024) as usize) % PLACES
}

// Keeps what was found at this place of a list, which may have to be made longer.
fn keep_at(kept: &mut Vec<Finding>, place: usize, finding: Finding) -> Result<(), Memory>
    ensures kept { OnOk result (slice_get kept.new.items place ≡ Some finding) }
    ensures only { OnOk result ((p : ℕ) (f : AFinding) → slice_get kept.new.items p ≡ Some f → slice_get kept.old.items p ≡ Some f ⊎ (f ≡ finding)) }
{
    while kept.len() <= place {
        kept.push(finding)?;
    }
    kept[place] = finding;
    Ok(())
}
