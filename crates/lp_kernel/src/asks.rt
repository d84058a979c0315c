//! Turns that ask for the type of a tree.
ghost use Rattle.std.specs.Prelude.{◌≡◌, ◌<◌, ◌≤◌, Bool, IfOk, length, Some};
ghost use Rattle.lp_spec.specs.Trees.{SortKind};
ghost use Rattle.lp_term.specs.Tables.{AreKnown};
ghost use Rattle.holide_sig.specs.Modules.{IsHeld};
ghost use Rattle.lp_conv.specs.Growth.{Grows};
ghost use Rattle.lp_kernel.specs.Keys.{IsSamePlace};
ghost use Rattle.lp_kernel.specs.Lifted.{AreLifts};
ghost use Rattle.lp_kernel.specs.Pending.{IsKnownState, IsKnownNext, IsAsked, IsFoundIf, variable_type, variable_plan, IsFewerAsked};

use crate::context::Context;
use crate::latest::Latest;
use crate::lifts::lifted;
use crate::state::{Application, Frame, Next, State};
use common::{Budget, Memory};
use holide_sig::{Module, SIGNATURE};
use lp_term::{LpId, LpNode};

/// One turn: asks for the type of a tree.
pub(crate) fn ask(
    base: &mut Module,
    lifts: &mut Latest,
    state: &mut State,
    id: LpId,
    budget: &mut Budget,
) -> Result<Next, Memory>
    requires held { IsHeld base.old }
    requires known { IsKnownState base.old.table state.old }
    requires id { id.0 < length base.old.table }
    requires lifts { AreLifts base.old.table lifts.old }
    ensures grows { Grows base.old base.new }
    ensures known { IfOk result (λ n. IsKnownState base.new.table state.new) }
    ensures next { IfOk result (IsKnownNext base.new.table) }
    ensures less { budget.new.left ≤ budget.old.left }
    ensures turned { IfOk result (λ n. (rechecks : Bool) → IsAsked rechecks base.new state.old id budget.old.left budget.new.left state.new n) }
    ensures fewer { IfOk result (IsFewerAsked state.old budget.old.left budget.new.left state.new) }
    ensures lifts { IfOk result (λ n. AreLifts base.new.table lifts.new) }
    ensures same { IsSamePlace state.old state.new }
{
    if !budget.tick() {
        return Ok(Next::Over);
    }
    match base.table.view(id) {
        LpNode::App(f, x) => {
            let app = Application {
                function: f,
                argument: x,
                whole: id,
            };
            state.frames.push(Frame::Function(app))?;
            Ok(Next::Ask(f))
        }
        LpNode::Lam(a, b) => {
            state.frames.push(Frame::Domain(a, b))?;
            Ok(Next::Ask(a))
        }
        LpNode::Pi(a, b) => {
            state.frames.push(Frame::ProductDomain(a, b))?;
            Ok(Next::Ask(a))
        }
        LpNode::Sym(s) => Ok(symbol(base, s)),
        LpNode::Var(n) => variable(base, &state.context, lifts, n),
        LpNode::SortType => kind(base),
        LpNode::SortKind => Ok(Next::No),
    }
}

// The sort Kind.
fn kind(base: &mut Module) -> Result<Next, Memory>
    requires held { IsHeld base.old }
    ensures grows { Grows base.old base.new }
    ensures known { IfOk result (IsKnownNext base.new.table) }
    ensures is { IfOk result (IsFoundIf base.new.table (Some SortKind)) }
{
    let kind = base.table.node(LpNode::SortKind)?;
    Ok(Next::Tell(kind))
}

// The type of a variable.
fn variable(
    base: &mut Module,
    context: &Context,
    lifts: &mut Latest,
    n: u128,
) -> Result<Next, Memory>
    requires held { IsHeld base.old }
    requires known { AreKnown base.old.table context.now }
    requires lifts { AreLifts base.old.table lifts.old }
    ensures grows { Grows base.old base.new }
    ensures known { IfOk result (IsKnownNext base.new.table) }
    ensures is { IfOk result (IsFoundIf base.new.table (variable_type base.new.table context.now n)) }
    ensures lifts { IfOk result (λ n. AreLifts base.new.table lifts.new) }
{
    let Some(entry) = context.get(n) else {
        return Ok(Next::No);
    };
    let Some(k) = n.checked_add(1) else {
        return Err(Memory);
    };
    let ty = lifted(base, lifts, entry, k)?;
    Ok(Next::Tell(ty))
}

// The type of a symbol.
fn symbol(base: &Module, s: usize) -> Next
    requires held { IsHeld base.now }
    ensures known { IsKnownNext base.now.table result }
    ensures is { variable_plan base.now s result }
{
    if s < SIGNATURE + base.decls.len() {
        Next::Tell(base.symbol_type(s))
    } else {
        Next::No
    }
}
