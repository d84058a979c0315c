//! The type of a tree, by the directed rules.
ghost use Rattle.std.specs.Prelude.{◌<◌, ◌≤◌, true, IfOk, length};
ghost use Rattle.lp_term.specs.Tables.{tree_at, trees_at, AreKnown};
ghost use Rattle.holide_sig.specs.Modules.{declarations_of, IsHeld};
ghost use Rattle.lp_conv.specs.Growth.{Grows};
ghost use Rattle.lp_kernel.specs.Inference.{typing, IsInferred, IsKnownType, IsTypeOf};

use crate::asks::ask;
use crate::context::Context;
use crate::latest::Latest;
use crate::memo::Turns;
use crate::spines::under;
use crate::state::{Next, State};
use crate::tells::tell;
use common::{Budget, Memory, Stack};
use holide_sig::Module;
use lp_term::LpId;
use std::alloc::Global;

/// The answer to the question for a type.
#[derive(Clone, Copy, Debug, PartialEq, Eq)]
pub enum Inferred {
    /// The type.
    Found(LpId),
    /// The directed rules find none.
    No,
    /// They do not end within the budget.
    Over,
}

/// The type of a tree in a context, by the directed rules, each step taking one of the budget.
///
/// The context is the types of the loose variables, the innermost first, each over those after it. A variable that is not
/// of the context and a symbol that is not of the module have no type.
pub fn infer(
    alloc: Global,
    base: &mut Module,
    ctx: &[LpId],
    id: LpId,
    budget: &mut Budget,
) -> Result<Inferred, Memory>
    requires held { IsHeld base.old }
    requires context { AreKnown base.old.table ctx.now }
    requires id { id.0 < length base.old.table }
    ensures grows { Grows base.old base.new }
    ensures known { IfOk result (IsKnownType base.new.table) }
    ensures less { budget.new.left ≤ budget.old.left }
    ensures answered { IfOk result (IsInferred true base.old ctx.now id base.new.table budget.old.left budget.new.left) }
    ensures sound { IfOk result (IsTypeOf base.old ctx.now id base.new.table) }
{
    let mut state = State {
        context: Context::of(alloc, ctx)?,
        frames: Stack::new(alloc),
        key: 0,
    };
    // The numbers of contexts are not asked for.
    let mut turns = Turns::new(alloc, true);
    let mut lifts = Latest::new(alloc);
    let mut next = Next::Ask(id);
    loop {
        match next {
            Next::Ask(tree) => {
                next = ask(base, &mut lifts, &mut state, tree, budget)?;
            }
            Next::Tell(found) => match state.frames.pop() {
                None => return Ok(Inferred::Found(found)),
                Some(frame) => {
                    next = tell(&mut turns, base, &mut state, frame, found, budget)?;
                }
            },
            Next::Under(b, k, f) => {
                next = under(alloc, base, &mut state, b, k, f)?;
            }
            Next::No => return Ok(Inferred::No),
            Next::Over => return Ok(Inferred::Over),
        }
    }
}
