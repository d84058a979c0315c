//! Types whose loose variables are raised.
ghost use Rattle.std.specs.Prelude.{◌≡◌, ◌<◌, IfOk, IfSome, length};
ghost use Rattle.lp_spec.specs.Trees.{App, lift};
ghost use Rattle.lp_term.specs.Tables.{tree_at};
ghost use Rattle.lp_conv.specs.Growth.{Grows};

use common::Memory;
use holide_sig::Module;
use lp_term::{LpId, LpNode};

// How many levels of a type are gone through without a walk and its lists.
const LEVELS: u32 = 6;

/// The type with its loose variables raised by a number.
pub(crate) fn raised(base: &mut Module, b: LpId, k: u128) -> Result<LpId, Memory>
    requires b { b.0 < length base.old.table }
    ensures grows { Grows base.old base.new }
    ensures known { IfOk result (λ r. r.0 < length base.new.table) }
    ensures is { IfOk result (λ r. tree_at base.new.table r.0 ≡ lift k (tree_at base.old.table b.0)) }
{
    match raised_shallow(base, b, k, LEVELS)? {
        Some(made) => Ok(made),
        None => base.table.lift(k, b),
    }
}

// The same, without a walk, where the type has at most so many levels and no binders.
#[cycle(raising)]
fn raised_shallow(base: &mut Module, b: LpId, k: u128, levels: u32) -> Result<Option<LpId>, Memory>
    requires b { b.0 < length base.old.table }
    ensures grows { Grows base.old base.new }
    ensures known { IfOk result (λ o. IfSome o (λ r. r.0 < length base.new.table)) }
    ensures is { IfOk result (λ o. IfSome o (λ r. tree_at base.new.table r.0 ≡ lift k (tree_at base.old.table b.0))) }
{
    if base.table.is_closed_under(b, 0) {
        return Ok(Some(b));
    }
    match base.table.view(b) {
        LpNode::Var(n) => {
            let Some(number) = n.checked_add(k) else {
                return Err(Memory);
            };
            let variable = base.table.node(LpNode::Var(number))?;
            Ok(Some(variable))
        }
        LpNode::App(g, x) => application_raised(base, g, x, k, levels),
        _ => Ok(None),
    }
}

// The same of the application of two trees.
#[cycle(raising)]
fn application_raised(
    base: &mut Module,
    g: LpId,
    x: LpId,
    k: u128,
    levels: u32,
) -> Result<Option<LpId>, Memory>
    requires g { g.0 < length base.old.table }
    requires x { x.0 < length base.old.table }
    ensures grows { Grows base.old base.new }
    ensures known { IfOk result (λ o. IfSome o (λ r. r.0 < length base.new.table)) }
    ensures is { IfOk result (λ o. IfSome o (λ r. tree_at base.new.table r.0 ≡ App (lift k (tree_at base.old.table g.0)) (lift k (tree_at base.old.table x.0)))) }
{
    let Some(fewer) = levels.checked_sub(1) else {
        return Ok(None);
    };
    let Some(h) = raised_shallow(base, g, k, fewer)? else {
        return Ok(None);
    };
    let Some(y) = raised_shallow(base, x, k, fewer)? else {
        return Ok(None);
    };
    let whole = base.table.node(LpNode::App(h, y))?;
    Ok(Some(whole))
}
