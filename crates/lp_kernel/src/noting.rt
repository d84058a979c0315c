//! The type of a tree in the empty context, by what was found before of the applications in it.
ghost use Rattle.std.specs.Prelude.{◌≡◌, ◌⊎◌, ◌<◌, ◌≤◌, [], IfOk, IfNone, IfSome, OnOk, length};
ghost use Rattle.lp_spec.specs.ModuleOrder.{IsModule};
ghost use Rattle.lp_term.specs.declared.LpId.{LpId as AnId};
ghost use Rattle.holide_sig.specs.Modules.{declarations_of, IsHeld};
ghost use Rattle.lp_conv.specs.Growth.{Grows};
ghost use Rattle.lp_kernel.specs.Inference.{IsInferred, IsKnownType};
ghost use Rattle.lp_kernel.specs.Latest.{IsKept};
ghost use Rattle.lp_kernel.specs.Noted.{IsNoted, IsTakenUp};
ghost use Rattle.lp_kernel.specs.Right.{AreRight, IsTypeNoted, StaysRight, IsRecalled};

use crate::asks::ask;
use crate::context::Context;
use crate::inference::Inferred;
use crate::latest::Finding;
use crate::memo::Memos;
use crate::spines::under;
use crate::state::{Frame, Next, State, Waiting};
use crate::tells::tell;
use common::{Budget, Memory, Stack};
use holide_sig::Module;
use lp_term::{LpId, LpNode};
use std::alloc::Global;

/// What is remembered of a tree.
#[derive(Clone, Copy)]
pub(crate) enum Recall {
    /// Its type.
    Found(LpId),
    /// Nothing yet: the tree is an application, and its type is to be noted.
    Unknown,
    /// Nothing: the tree is the function of an application, and its type is not to be noted.
    Function,
    /// Nothing is noted of such trees.
    Other,
}

/// The type of a tree in the empty context, by the directed rules, each step taking one of the budget. An application whose type in its
/// context is noted takes one step.
pub(crate) fn infer_noted(
    memo: &mut Memos,
    base: &mut Module,
    id: LpId,
    budget: &mut Budget,
) -> Result<Inferred, Memory>
    requires held { IsHeld base.old }
    requires is_module { IsModule (declarations_of base.old) }
    requires right { AreRight memo.old.turns.rechecks (declarations_of base.old) base.old.table memo.old }
    requires id { id.0 < length base.old.table }
    ensures grows { Grows base.old base.new }
    ensures known { IfOk result (IsKnownType base.new.table) }
    ensures less { budget.new.left ≤ budget.old.left }
    ensures answered { IfOk result (IsInferred memo.old.turns.rechecks base.old [] id base.new.table budget.old.left budget.new.left) }
    ensures right { IfOk result (λ r. AreRight memo.old.turns.rechecks (declarations_of base.new) base.new.table memo.new) }
{
    let alloc = memo.turns.alloc;
    let mut state = State {
        context: Context::of(alloc, &[])?,
        frames: Stack::new(alloc),
        key: 0,
    };
    let mut outer = Stack::new(alloc);
    let mut spare = Stack::new(alloc);
    let mut next = Next::Ask(id);
    // Whether the tree that is asked for is the function of an application.
    let mut is_function = false;
    loop {
        let at_function = is_function;
        is_function = false;
        match next {
            Next::Ask(tree) => match look_up(base, memo, state.key, tree, at_function) {
                Recall::Found(found) => {
                    next = take_up(found, budget);
                }
                Recall::Unknown => {
                    let inner = emptied(alloc, &mut spare);
                    let below = std::mem::replace(&mut state.frames, inner);
                    outer.push(Waiting {
                        id: tree,
                        key: state.key,
                        frames: below,
                    })?;
                    next = ask(base, &mut memo.lifts, &mut state, tree, budget)?;
                    is_function = true;
                }
                Recall::Function => {
                    next = ask(base, &mut memo.lifts, &mut state, tree, budget)?;
                    is_function = true;
                }
                Recall::Other => {
                    next = ask(base, &mut memo.lifts, &mut state, tree, budget)?;
                }
            },
            Next::Tell(found) => match state.frames.pop() {
                Some(frame) => {
                    next = tell(&mut memo.turns, base, &mut state, frame, found, budget)?;
                }
                None => match outer.pop() {
                    None => return Ok(Inferred::Found(found)),
                    Some(waiting) => {
                        // It is in the context in which it was asked for.
                        if waiting.key != state.key {
                            return Err(Memory);
                        }
                        note_type(base, memo, waiting.key, waiting.id, found)?;
                        let ended = std::mem::replace(&mut state.frames, waiting.frames);
                        spare.push(ended)?;
                        next = Next::Tell(found);
                    }
                },
            },
            Next::Under(b, k, f) => {
                next = under(alloc, base, &mut state, b, k, f)?;
            }
            Next::No => return Ok(Inferred::No),
            Next::Over => return Ok(Inferred::Over),
        }
    }
}

// No frames, in the list of some that have ended, where there is one.
fn emptied(alloc: Global, spare: &mut Stack<Stack<Frame>>) -> Stack<Frame>
    ensures { result ≡ [] }
{
    let Some(mut frames) = spare.pop() else {
        return Stack::new(alloc);
    };
    while let Some(_frame) = frames.pop() {}
    frames
}

// What is remembered of a tree. Applications alone are noted, and not the functions of others: the others take few steps.
fn look_up(base: &Module, memo: &Memos, key: usize, id: LpId, is_function: bool) -> Recall
    requires id { id.0 < length base.now.table }
    ensures { IsRecalled base.now.table memo.now key id result }
{
    if !is_application(base, id) {
        return Recall::Other;
    }
    match noted_type(base, memo, key, id) {
        Some(found) => Recall::Found(found),
        None if is_function => Recall::Function,
        None => Recall::Unknown,
    }
}

// The type that was noted of a tree, in the context of this number unless it is closed.
fn noted_type(base: &Module, memo: &Memos, key: usize, id: LpId) -> Option<LpId>
    requires id { id.0 < length base.now.table }
    ensures noted { IfSome result (λ r. IsTypeNoted memo.now key id r) }
    ensures absent { IfNone result (((r : AnId) → IsNoted memo.now.types id r → ⊥) ⊎ ((r : AnId) → IsKept memo.now.open_types id key r → ⊥)) }
{
    if !base.table.is_closed_under(id, 0) {
        return memo.open_types.find(id, key as u128);
    }
    memo.types.find(id)
}

// Notes the type of a tree in the context of this number, or in all contexts if it is closed.
fn note_type(
    base: &Module,
    memo: &mut Memos,
    key: usize,
    id: LpId,
    found: LpId,
) -> Result<(), Memory>
    requires id { id.0 < length base.now.table }
    ensures noted { OnOk result (IsTypeNoted memo.new key id found) }
    ensures same { memo.new.turns ≡ memo.old.turns }
    ensures right { OnOk result (StaysRight base.now.table memo.old key id found memo.new) }
{
    if base.table.is_closed_under(id, 0) {
        return memo.types.note(id, found);
    }
    memo.open_types.keep(Finding {
        id,
        by: key as u128,
        found,
    })
}

// Whether a tree is an application.
fn is_application(base: &Module, id: LpId) -> bool
    requires id { id.0 < length base.now.table }
{
    matches!(base.table.view(id), LpNode::App(..))
}

// Goes on with a type that is remembered, at one step.
fn take_up(found: LpId, budget: &mut Budget) -> Next
    ensures { IsTakenUp found budget.old.left budget.new.left result }
{
    if budget.tick() {
        Next::Tell(found)
    } else {
        Next::Over
    }
}
