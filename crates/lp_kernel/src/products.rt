//! The product that head steps reach, each found once.
ghost use Rattle.std.specs.Prelude.{◌<◌, ◌≤◌, IfOk, length};
ghost use Rattle.holide_sig.specs.Modules.{declarations_of, IsHeld};
ghost use Rattle.lp_conv.specs.Growth.{Grows};
ghost use Rattle.lp_kernel.specs.Inference.{IsProduct, IsKnownType};
ghost use Rattle.lp_kernel.specs.Noted.{AreProducts};

use crate::inference::Inferred;
use crate::memo::Memo;
use common::{Budget, Memory};
use holide_sig::Module;
use lp_conv::head_step;
use lp_term::{LpId, LpNode};
use std::alloc::Global;

/// The product that head steps reach from a type, each step taking one of the budget. One that was found before takes one step.
pub(crate) fn reach_noted(
    alloc: Global,
    base: &mut Module,
    products: &mut Memo,
    id: LpId,
    budget: &mut Budget,
) -> Result<Inferred, Memory>
    requires held { IsHeld base.old }
    requires id { id.0 < length base.old.table }
    requires products { AreProducts (declarations_of base.old) base.old.table products.old }
    ensures grows { Grows base.old base.new }
    ensures known { IfOk result (IsKnownType base.new.table) }
    ensures less { budget.new.left ≤ budget.old.left }
    ensures answered { IfOk result (IsProduct base.old id base.new budget.old.left budget.new.left) }
    ensures products { IfOk result (λ r. AreProducts (declarations_of base.new) base.new.table products.new) }
{
    if let Some(product) = products.find(id) {
        if budget.tick() {
            return Ok(Inferred::Found(product));
        }
        return Ok(Inferred::Over);
    }
    let before = budget.left;
    let reached = reach(alloc, base, id, budget)?;
    if let Inferred::Found(product) = reached {
        if budget.left < before {
            products.note(id, product)?;
        }
    }
    Ok(reached)
}

// The same, where nothing is remembered.
fn reach(
    alloc: Global,
    base: &mut Module,
    id: LpId,
    budget: &mut Budget,
) -> Result<Inferred, Memory>
    requires held { IsHeld base.old }
    requires id { id.0 < length base.old.table }
    ensures grows { Grows base.old base.new }
    ensures known { IfOk result (IsKnownType base.new.table) }
    ensures less { budget.new.left ≤ budget.old.left }
    ensures answered { IfOk result (IsProduct base.old id base.new budget.old.left budget.new.left) }
{
    let mut reached = id;
    loop {
        if let LpNode::Pi(_domain, _body) = base.table.view(reached) {
            return Ok(Inferred::Found(reached));
        }
        match head_step(alloc, base, reached)? {
            None => return Ok(Inferred::No),
            Some(made) => {
                if !budget.tick() {
                    return Ok(Inferred::Over);
                }
                reached = made;
            }
        }
    }
}
