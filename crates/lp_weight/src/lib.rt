//! What a declaration of a module weighs, and the bound that its weight sets on the steps of its check.
//!
//! The weight is the size of the declaration's type and body, as trees, with the spread of every symbol in them: a part counts as often as it
//! occurs, and is looked at once. The bound is 64 times the cube of the weight, and that of a check without
//! rechecks of sorts 64 times its square. All stop at the greatest number of their type. A bound that is
//! this number is still the bound, which is never more; a weight that is this number may be less than what the declaration weighs.
//!
//! Nothing is made: the module stays as it is. [`Weights`] keeps what it noted of the module's trees, so that each is looked at once for all
//! declarations; the calls of one declaration begin anew. Walks keep a stack of their own.
//!
//! ```
//! let mut weights = Weights::new(alloc);
//! let steps = weights.bound(&module, 0)?;
//! ```
#![tactic(auto)]

ghost use Rattle.std.specs.Prelude.{◌≡◌, ◌<◌, length, IfOk};
ghost use Rattle.holide_sig.specs.Modules.{declarations_of, IsHeld};
ghost use Rattle.lp_weight.specs.Saturation.{saturated};
ghost use Rattle.lp_weight.specs.Weights.{weight_at, bound_at, fast_bound_at};

mod column;
mod measure;
mod memo;
mod occurrences;
mod weighing;

pub use crate::weighing::Weights;
use common::Memory;
use holide_sig::Module;
use std::alloc::Global;

/// How many steps the check of this declaration may take: 64 times the cube of its weight, or the greatest number of the
/// type if that is more.
pub fn bound(alloc: Global, base: &Module, i: usize) -> Result<u128, Memory>
    requires held { IsHeld base.now }
    requires i { i < length base.now.decls }
    ensures { IfOk result (λ steps. steps ≡ bound_at (declarations_of base.now) i) }
{
    let mut weights = Weights::new(alloc);
    weights.bound(base, i)
}

/// How many steps the check of this declaration without rechecks of sorts may take: 64 times the square of its weight, or
/// the greatest number of the type if that is more.
pub fn bound_fast(alloc: Global, base: &Module, i: usize) -> Result<u128, Memory>
    requires held { IsHeld base.now }
    requires i { i < length base.now.decls }
    ensures { IfOk result (λ steps. steps ≡ fast_bound_at (declarations_of base.now) i) }
{
    let mut weights = Weights::new(alloc);
    weights.bound_fast(base, i)
}

/// What this declaration weighs, or the greatest number of the type if it weighs more.
pub fn weight(alloc: Global, base: &Module, i: usize) -> Result<u128, Memory>
    requires held { IsHeld base.now }
    requires i { i < length base.now.decls }
    ensures { IfOk result (λ n. n ≡ saturated (weight_at (declarations_of base.now) i)) }
{
    let mut weights = Weights::new(alloc);
    weights.weight(base, i)
}
