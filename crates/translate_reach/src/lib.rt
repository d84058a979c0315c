//! What the exports of a proof reach.
//!
//! What a proof made is a list of items: each symbol that it took, the operator and the two constants of a type definition one after
//! the other, and each step. An item needs the constants and operators of the sequent that it says, of the term that defines it or of its
//! generic type, the premises of its proof, and what it defines or which type definition it is a law of. The operator and the constants of
//! a type definition need the step from which it is made. [`reached`] tells of each item whether an export needs it, directly or through
//! what it needs. An item needs only earlier ones, so one pass from the last item to the first tells; each type and each term is entered
//! once in the whole pass, whatever its depth. Memory grows with the items and with the table.
//!
//! ```
//! let reached = reached(alloc, &proof, &exports)?;
//! let kept = reached.contains(item);
//! ```
//!
//! | Module | What it does |
//! |---|---|
//! | `flags` | the flags of the items |
//! | `index` | which item gives a constant or an operator |
//! | `items` | the items, in one pass over what was made: what each needs |
//! | `walk` | the items that are marked, and the walk over types and terms |
//! | `needs` | what an item needs is marked |
#![tactic(auto)]

ghost use Rattle.std.specs.Prelude.{◌<◌, IfOk};
ghost use Rattle.std.specs.List.{AllByRecursion};
ghost use Rattle.hol_spec.specs.Over.{IsOver};
ghost use Rattle.hol_rules.specs.Kept.{step_count};
ghost use Rattle.translate_reach.specs.Reached.{IsReach};

mod flags;
mod index;
mod items;
mod needs;
mod walk;

use crate::items::Items;
use crate::walk::{Walk, unset};
use common::Memory;
pub use flags::Reached;
use hol_rules::{Proof, StepId};
use std::alloc::Global;

/// For each item of what the proof made, in order, whether the exports reach it.
pub fn reached(alloc: Global, proof: &Proof, exports: &[StepId]) -> Result<Reached, Memory>
    requires exports { AllByRecursion (λ id. id < step_count proof.now) exports.now }
    requires over { IsOver proof.now.made }
    ensures { IfOk result (λ r. IsReach r proof.now.made exports.now) }
{
    proof.is_proof();
    let items = Items::of(alloc, proof)?;
    let mut walk = Walk::new(alloc, proof, &items)?;
    walk.want_steps(proof, &items, exports);
    let mut flags = unset(alloc, items.count())?;
    let mut item = items.count();
    while item > 0 {
        item -= 1;
        flags[item] = walk.look(proof, &items, item)?;
    }
    Ok(Reached { flags })
}
