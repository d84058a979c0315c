//! What the article of a run tells: which steps its exports reach, which steps are exports, and the number in the names of its binders.
//!
//! A step is reached where an export needs it, directly or through what it needs: its premises, and the definitions of the constants and
//! operators of its sequent and of what its rule was given. The two laws of a type definition are reached together. A step needs only
//! earlier ones, so one pass from the last step to the first tells; each type and each term is entered once in the whole pass, whatever
//! its depth. On the way the names of variables are looked at, of those that steps are given and of those in their terms: the number in
//! the names of binders is the least q for which none of them is `_<q>_` and digits.
//!
//! ```
//! let reach = reach(alloc, &proof, &exports)?;
//! let is_told = reach.told()[step];
//! ```
//!
//! Steps are marked by their numbers, and so are types and terms that were come to, and the numbers of names. The names of constants and
//! operators that are needed are kept in two sets, each name once. Time and memory grow with the steps and with the table.
//!
//! | Module | What it does |
//! |---|---|
//! | `told` | what is told of the steps |
//! | `flags` | flags by number |
//! | `least` | the least number that isn't among some |
//! | `name_set` | the names that are needed |
//! | `walk` | what is marked, and the walk over types and terms |
//! | `needs` | what a step needs is marked, or is to be visited |
//! | `serving` | whether something that a step serves is marked |
//! | `looking` | the pass over the steps |
#![tactic(auto)]

ghost use Rattle.std.specs.Prelude.{◌<◌, IfOk};
ghost use Rattle.std.specs.List.{AllByRecursion};
ghost use Rattle.hol_rules.specs.Kept.{step_count};
ghost use Rattle.article_reach.specs.Reached.{IsReach};

mod flags;
mod least;
mod looking;
mod name_set;
mod needs;
mod serving;
mod told;
mod walk;

use crate::flags::{mark_steps, unset};
use crate::looking::looked;
use common::Memory;
use hol_rules::{Proof, StepId};
use std::alloc::Global;
pub use told::Reach;

/// What the article of a run tells, of a proof and the exports of its run.
pub fn reach(alloc: Global, proof: &Proof, exports: &[StepId]) -> Result<Reach, Memory>
    requires exports { AllByRecursion (λ i. i < step_count proof.now) exports.now }
    ensures { IfOk result (λ r. IsReach proof.now.made exports.now r) }
{
    let mut told = unset(alloc, proof.len())?;
    let mut is_export = unset(alloc, proof.len())?;
    mark_steps(&mut is_export, exports);
    let number = looked(alloc, proof, exports, &mut told)?;
    Ok(Reach {
        told,
        is_export,
        number,
    })
}
