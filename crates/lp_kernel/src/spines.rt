//! Types that are to have arguments of an application put in.
ghost use Rattle.std.specs.Prelude.{ℕ, ◌≡◌, ◌<◌, Bool, IfOk, IfSome, length};
ghost use Rattle.std.specs.Bool.{OnTrue};
ghost use Rattle.lp_spec.specs.Trees.{Var};
ghost use Rattle.lp_term.specs.Tables.{tree_at, trees_at, AreKnown};
ghost use Rattle.holide_sig.specs.Modules.{IsHeld};
ghost use Rattle.lp_conv.specs.Growth.{Grows};
ghost use Rattle.lp_kernel.specs.declared.state.Next.TheVariants as next;
ghost use Rattle.lp_kernel.specs.Keys.{IsSamePlace};
ghost use Rattle.lp_kernel.specs.Made.{IsFilledUnder, AreFilledUnder, IsVariableMade, StandsFor};
ghost use Rattle.lp_kernel.specs.Pending.{spine_args, IsFilled, IsFilledApplication, IsLast, IsKnownState, IsKnownNext, IsMade, IsAwaited, IsFewerMade};

use crate::state::{Argument, Frame, Next, State};
use common::Memory;
use holide_sig::Module;
use lp_term::{LpId, LpNode};
use std::alloc::Global;

// How many levels of a type are gone through to see whether it is one at hand: those of `proof (eq (arr a b) x y)` and one more.
const DEPTH: u32 = 8;

// How many nodes a type has that is made without a walk, whatever its levels, which are no more. A walk makes what stands in
// such a tree twice again, too.
const SMALL: u128 = 128;

const LEVELS: u32 = 128;

// How many arguments of an application are looked through, one after another, for that of a variable.
const NEAR: u128 = 64;

/// What stands for a variable of a type that is to have arguments put in.
#[derive(Clone, Copy)]
pub(crate) enum Stand {
    /// This argument.
    Argument(LpId),
    /// The variable with this number.
    Variable(u128),
    /// What is further off than `NEAR` isn't looked for.
    Far,
}

/// One turn: where the type is a product and its function is at an argument, asks for the argument's type; else makes the type.
pub(crate) fn under(
    alloc: Global,
    base: &mut Module,
    state: &mut State,
    b: LpId,
    k: usize,
    g: LpId,
) -> Result<Next, Memory>
    requires held { IsHeld base.old }
    requires known { IsKnownState base.old.table state.old }
    requires b { b.0 < length base.old.table }
    requires g { g.0 < length base.old.table }
    ensures grows { Grows base.old base.new }
    ensures known { IfOk result (λ n. IsKnownState base.new.table state.new) }
    ensures next { IfOk result (IsKnownNext base.new.table) }
    ensures turned { IfOk result (λ n. (rechecks : Bool) (left : ℕ) → IsMade rechecks base.new state.old b k g left state.new n) }
    ensures fewer { IfOk result (IsFewerMade state.old state.new) }
    ensures same { IsSamePlace state.old state.new }
{
    match awaited(base, state, b, k, g)? {
        Some(x) => Ok(Next::Ask(x)),
        None => {
            let made = filled(alloc, base, b, k, g)?;
            Ok(Next::Tell(made))
        }
    }
}

// The argument that the function is at, whose type is asked for, where the function's type is a product.
fn awaited(
    base: &Module,
    state: &mut State,
    b: LpId,
    k: usize,
    g: LpId,
) -> Result<Option<LpId>, Memory>
    requires held { IsHeld base.now }
    requires known { IsKnownState base.now.table state.old }
    requires b { b.0 < length base.now.table }
    requires g { g.0 < length base.now.table }
    ensures awaited { IfOk result (IsAwaited base.now state.old b k g state.new) }
    ensures same { IsSamePlace state.old state.new }
{
    let LpNode::Pi(a, c) = base.table.view(b) else {
        return Ok(None);
    };
    let Some(frame) = state.frames.pop() else {
        return Ok(None);
    };
    if let Frame::Function(app) = frame {
        if app.function == g {
            state.frames.push(Frame::Argument(Argument {
                domain: a,
                body: c,
                count: k,
                app,
            }))?;
            return Ok(Some(app.argument));
        }
    }
    state.frames.push(frame)?;
    Ok(None)
}

/// The type with so many last arguments of the application put in.
pub(crate) fn filled(
    alloc: Global,
    base: &mut Module,
    b: LpId,
    k: usize,
    f: LpId,
) -> Result<LpId, Memory>
    requires held { IsHeld base.old }
    requires b { b.0 < length base.old.table }
    requires f { f.0 < length base.old.table }
    ensures grows { Grows base.old base.new }
    ensures known { IfOk result (λ r. r.0 < length base.new.table) }
    ensures is { IfOk result (IsFilled base.old.table b k f base.new.table) }
{
    if k == 0 {
        return Ok(b);
    }
    let levels = if base.table.size(b) < SMALL {
        LEVELS
    } else {
        DEPTH
    };
    match made(base, b, 0, k, f, levels)? {
        Some(made) => Ok(made),
        None => filled_by_walk(alloc, base, b, k, f),
    }
}

// The same, of a type of any depth.
fn filled_by_walk(
    alloc: Global,
    base: &mut Module,
    b: LpId,
    k: usize,
    f: LpId,
) -> Result<LpId, Memory>
    requires b { b.0 < length base.old.table }
    requires f { f.0 < length base.old.table }
    ensures grows { Grows base.old base.new }
    ensures known { IfOk result (λ r. r.0 < length base.new.table) }
    ensures is { IfOk result (IsFilled base.old.table b k f base.new.table) }
{
    let args = arguments(alloc, base, k, f)?;
    base.table.put_all(&args, b)
}

// The same under so many binders, without a walk and its lists, where a type has at most so many levels.
#[cycle(making)]
fn made(
    base: &mut Module,
    b: LpId,
    depth: u32,
    k: usize,
    f: LpId,
    levels: u32,
) -> Result<Option<LpId>, Memory>
    requires b { b.0 < length base.old.table }
    requires f { f.0 < length base.old.table }
    ensures grows { Grows base.old base.new }
    ensures known { IfOk result (λ o. IfSome o (λ r. r.0 < length base.new.table)) }
    ensures is { IfOk result (λ o. IfSome o (IsFilledUnder base.old.table depth b k f base.new.table)) }
{
    if base.table.is_closed_under(b, depth as u128) {
        return Ok(Some(b));
    }
    match base.table.view(b) {
        LpNode::Var(n) => variable_made(base, n, depth, k, f),
        LpNode::App(g, x) => {
            let Some((h, y)) = parts_made(base, (g, x), (depth, depth), k, f, levels)? else {
                return Ok(None);
            };
            let whole = base.table.node(LpNode::App(h, y))?;
            Ok(Some(whole))
        }
        LpNode::Lam(a, c) => {
            let Some(inner) = depth.checked_add(1) else {
                return Ok(None);
            };
            let Some((h, y)) = parts_made(base, (a, c), (depth, inner), k, f, levels)? else {
                return Ok(None);
            };
            let whole = base.table.node(LpNode::Lam(h, y))?;
            Ok(Some(whole))
        }
        LpNode::Pi(a, c) => {
            let Some(inner) = depth.checked_add(1) else {
                return Ok(None);
            };
            let Some((h, y)) = parts_made(base, (a, c), (depth, inner), k, f, levels)? else {
                return Ok(None);
            };
            let whole = base.table.node(LpNode::Pi(h, y))?;
            Ok(Some(whole))
        }
        _ => Ok(None),
    }
}

// The same of the two parts of a tree, each under binders of its own.
#[cycle(making)]
fn parts_made(
    base: &mut Module,
    parts: (LpId, LpId),
    depths: (u32, u32),
    k: usize,
    f: LpId,
    levels: u32,
) -> Result<Option<(LpId, LpId)>, Memory>
    requires first { parts.0.0 < length base.old.table }
    requires second { parts.1.0 < length base.old.table }
    requires f { f.0 < length base.old.table }
    ensures grows { Grows base.old base.new }
    ensures known { IfOk result (λ o. IfSome o (λ r. (r.0.0 < length base.new.table) × (r.1.0 < length base.new.table))) }
    ensures are { IfOk result (λ o. IfSome o (AreFilledUnder base.old.table depths parts k f base.new.table)) }
{
    let Some(fewer) = levels.checked_sub(1) else {
        return Ok(None);
    };
    let Some(h) = made(base, parts.0, depths.0, k, f, fewer)? else {
        return Ok(None);
    };
    let Some(y) = made(base, parts.1, depths.1, k, f, fewer)? else {
        return Ok(None);
    };
    Ok(Some((h, y)))
}

// What stands for a variable under so many binders.
fn variable_made(
    base: &mut Module,
    n: u128,
    depth: u32,
    k: usize,
    f: LpId,
) -> Result<Option<LpId>, Memory>
    requires f { f.0 < length base.old.table }
    ensures grows { Grows base.old base.new }
    ensures known { IfOk result (λ o. IfSome o (λ r. r.0 < length base.new.table)) }
    ensures is { IfOk result (λ o. IfSome o (IsVariableMade base.old.table depth n k f base.new.table)) }
{
    let Some(outer) = n.checked_sub(depth as u128) else {
        return Ok(None);
    };
    match argument(base, k, f, outer) {
        Stand::Argument(x) => {
            if depth == 0 {
                return Ok(Some(x));
            }
            let lifted = base.table.lift(depth as u128, x)?;
            Ok(Some(lifted))
        }
        Stand::Variable(m) => {
            let Some(number) = m.checked_add(depth as u128) else {
                return Err(Memory);
            };
            let variable = base.table.node(LpNode::Var(number))?;
            Ok(Some(variable))
        }
        Stand::Far => Ok(None),
    }
}

/// The same, where it may be a type that is at hand: then nothing is made.
pub(crate) fn filled_as(
    alloc: Global,
    base: &mut Module,
    b: LpId,
    k: usize,
    f: LpId,
    found: LpId,
) -> Result<LpId, Memory>
    requires held { IsHeld base.old }
    requires b { b.0 < length base.old.table }
    requires f { f.0 < length base.old.table }
    requires found { found.0 < length base.old.table }
    ensures grows { Grows base.old base.new }
    ensures known { IfOk result (λ r. r.0 < length base.new.table) }
    ensures is { IfOk result (IsFilled base.old.table b k f base.new.table) }
{
    if is_filled(base, b, k, f, found, DEPTH) {
        return Ok(found);
    }
    filled(alloc, base, b, k, f)
}

// Whether a type with so many last arguments of the application put in is the tree found. It may answer no where it is, if so many
// levels don't tell.
#[cycle(filling)]
fn is_filled(base: &Module, b: LpId, k: usize, f: LpId, found: LpId, levels: u32) -> bool
    requires b { b.0 < length base.now.table }
    requires f { f.0 < length base.now.table }
    requires found { found.0 < length base.now.table }
    ensures { OnTrue result (IsFilled base.now.table b k f base.now.table found) }
{
    if base.table.is_closed_under(b, 0) {
        return b == found;
    }
    match base.table.view(b) {
        LpNode::Var(n) => match argument(base, k, f, n) {
            Stand::Argument(x) => x == found,
            Stand::Variable(m) => is_variable(base, found, m),
            Stand::Far => false,
        },
        LpNode::App(g, x) => are_filled(base, (g, x), k, f, found, levels),
        _ => false,
    }
}

// The same of the application of two trees.
#[cycle(filling)]
fn are_filled(
    base: &Module,
    parts: (LpId, LpId),
    k: usize,
    f: LpId,
    found: LpId,
    levels: u32,
) -> bool
    requires first { parts.0.0 < length base.now.table }
    requires second { parts.1.0 < length base.now.table }
    requires f { f.0 < length base.now.table }
    requires found { found.0 < length base.now.table }
    ensures { OnTrue result (IsFilledApplication base.now.table parts.0 parts.1 k f found) }
{
    let Some(fewer) = levels.checked_sub(1) else {
        return false;
    };
    let LpNode::App(h, y) = base.table.view(found) else {
        return false;
    };
    is_filled(base, parts.0, k, f, h, fewer) && is_filled(base, parts.1, k, f, y, fewer)
}

// Whether a tree is the variable with this number.
fn is_variable(base: &Module, id: LpId, n: u128) -> bool
    requires { id.0 < length base.now.table }
    ensures { OnTrue result (tree_at base.now.table id.0 ≡ Var n) }
{
    match base.table.view(id) {
        LpNode::Var(m) => m == n,
        _ => false,
    }
}

// What is put for the variable `n`, where so many last arguments of an application are put in: the last for 0.
fn argument(base: &Module, k: usize, f: LpId, n: u128) -> Stand
    requires f { f.0 < length base.now.table }
    ensures { StandsFor base.now.table k f n result }
{
    if n >= NEAR {
        return Stand::Far;
    }
    let mut at = f;
    let mut left = k;
    let mut number = n;
    while let Some((function, x)) = last(base, left, at) {
        if number == 0 {
            return Stand::Argument(x);
        }
        at = function;
        left -= 1;
        number -= 1;
    }
    Stand::Variable(number)
}

// So many last arguments of an application.
fn arguments(alloc: Global, base: &Module, k: usize, f: LpId) -> Result<Vec<LpId>, Memory>
    requires f { f.0 < length base.now.table }
    ensures known { IfOk result (λ args. AreKnown base.now.table args.items) }
    ensures are { IfOk result (λ args. trees_at base.now.table args.items ≡ spine_args k (tree_at base.now.table f.0)) }
{
    let mut args = Vec::new(alloc);
    let mut at = f;
    let mut left = k;
    while let Some((function, x)) = last(base, left, at) {
        args.push(x)?;
        at = function;
        left -= 1;
    }
    args.reverse();
    Ok(args)
}

// The function and the argument of an application, where arguments are left to be found.
fn last(base: &Module, left: usize, at: LpId) -> Option<(LpId, LpId)>
    requires at { at.0 < length base.now.table }
    ensures { IsLast base.now.table left at result }
{
    if left == 0 {
        return None;
    }
    let LpNode::App(function, x) = base.table.view(at) else {
        return None;
    };
    Some((function, x))
}
