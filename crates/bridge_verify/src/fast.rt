//! The check of a module that was read back, without rechecks of sorts.
ghost use Rattle.std.specs.Prelude.{◌≡◌, Bool, IfOk, map, length, false};
ghost use Rattle.hol_spec.specs.Proofs.{Accepted};
ghost use Rattle.lp_spec.specs.ModuleOrder.{IsModule};
ghost use Rattle.lp_spec.specs.FastCheck.{fast_bound};
ghost use Rattle.lp_conv.specs.Growth.{Grows};
ghost use Rattle.lp_kernel.specs.Checks.{PassBelow};
ghost use Rattle.lp_kernel.specs.declared.checks.Verdict.TheVariants as verdict;
ghost use Rattle.holide_sig.specs.Modules.{declarations_of, IsHeld};
ghost use Rattle.bridge_spec.specs.Headline.{Headline};
ghost use Rattle.bridge_spec.specs.Texts.{module_of};

use common::Memory;
use holide_sig::Module;
use lp_kernel::{Verdict, check_fast};
use lp_weight::Weights;
use std::alloc::Global;

/// The verdict on the module of a run without rechecks of sorts, each declaration within its bound for that: it is accepted.
pub(crate) fn checked_fast(alloc: Global, back: &mut Module) -> Result<Verdict, Memory>
    requires run { (share : Bool) × (run : Accepted) × Headline share run × (declarations_of back.old ≡ module_of share run) }
    requires held { IsHeld back.old }
    requires is_module { IsModule (declarations_of back.old) }
    ensures accepts { IfOk result (λ v. v ≡ verdict.Accepted) }
    ensures pass { IfOk result (λ v. v ≡ verdict.Accepted → PassBelow false (declarations_of back.old) (length (declarations_of back.old))) }
    ensures grows { IfOk result (λ v. Grows back.old back.new) }
{
    let bounds = fast_bounds(alloc, back)?;
    check_fast(alloc, back, &bounds)
}

// The bound of each declaration for its check without rechecks of sorts.
fn fast_bounds(alloc: Global, source: &Module) -> Result<Vec<u128>, Memory>
    requires { IsHeld source.now }
    ensures { IfOk result (λ bounds. bounds.items ≡ map (fast_bound (declarations_of source.now)) (declarations_of source.now)) }
{
    let mut weights = Weights::new(alloc);
    let mut bounds = Vec::new(alloc);
    for i in 0..source.decls.len() {
        bounds.push(weights.bound_fast(source, i)?)?;
    }
    Ok(bounds)
}
