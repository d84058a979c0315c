//! Conversion by the directed rules.
ghost use Rattle.std.specs.Prelude.{◌≡◌, ◌<◌, ◌≤◌, IfOk, length};
ghost use Rattle.lp_term.specs.Tables.{tree_at};
ghost use Rattle.holide_sig.specs.Modules.{declarations_of, IsHeld};
ghost use Rattle.lp_spec.specs.Check.{convert as convert_plan};
ghost use Rattle.lp_conv.specs.Growth.{Grows};
ghost use Rattle.lp_conv.specs.Answers.{IsAnswered, AreConvertible};
ghost use Rattle.lp_conv.specs.Conversion.{plan_of, parts_of, IsKnownLeft};
ghost use Rattle.lp_conv.specs.declared.Answer.TheVariants as answer;

use crate::Answer;
use crate::heads::head_step;
use common::{Budget, Memory, Stack};
use holide_sig::Module;
use lp_term::{LpId, LpNode};
use std::alloc::Global;

// What a turn leaves to convert.
#[derive(Clone, Copy)]
enum Left {
    Nothing,
    One(LpId, LpId),
    Two(LpId, LpId, LpId, LpId),
    Differs,
}

/// Whether two trees are convertible, each turn taking one step of the budget. A turn makes a head step of the expected
/// tree, or else of the found one, or else goes on with the parts of both, the first parts before the second.
pub fn conv(
    alloc: Global,
    base: &mut Module,
    expected: LpId,
    found: LpId,
    budget: &mut Budget,
) -> Result<Answer, Memory>
    requires held { IsHeld base.old }
    requires expected { expected.0 < length base.old.table }
    requires found { found.0 < length base.old.table }
    ensures grows { Grows base.old base.new }
    ensures less { budget.new.left ≤ budget.old.left }
    ensures answered { IfOk result (IsAnswered base.old expected found budget.old.left budget.new.left) }
    ensures sound { IfOk result (λ a. a ≡ answer.Yes → AreConvertible base.old expected found) }
{
    let mut pairs = Stack::new(alloc);
    pairs.push((expected, found))?;
    while let Some((a, b)) = pairs.pop() {
        if !budget.tick() {
            return Ok(Answer::Over);
        }
        match turn(alloc, base, a, b)? {
            Left::Nothing => {}
            Left::One(g, h) => {
                pairs.push((g, h))?;
            }
            Left::Two(g, h, x, y) => {
                pairs.push((x, y))?;
                pairs.push((g, h))?;
            }
            Left::Differs => return Ok(Answer::No),
        }
    }
    Ok(Answer::Yes)
}

// One turn.
fn turn(alloc: Global, base: &mut Module, e: LpId, f: LpId) -> Result<Left, Memory>
    requires held { IsHeld base.old }
    requires e { e.0 < length base.old.table }
    requires f { f.0 < length base.old.table }
    ensures grows { Grows base.old base.new }
    ensures known { IfOk result (IsKnownLeft base.new.table) }
    ensures is { IfOk result (λ l. plan_of base.new.table (tree_at base.old.table e.0) l ≡ convert_plan (declarations_of base.old)
        (tree_at base.old.table e.0) (tree_at base.old.table f.0)) }
{
    if e == f {
        return Ok(Left::Nothing);
    }
    if let Some(g) = head_step(alloc, base, e)? {
        return Ok(Left::One(g, f));
    }
    if let Some(g) = head_step(alloc, base, f)? {
        return Ok(Left::One(e, g));
    }
    Ok(parts(base.table.view(e), base.table.view(f)))
}

// The parts that are left to convert.
fn parts(n: LpNode, m: LpNode) -> Left
    ensures { result ≡ parts_of n m }
{
    match n {
        LpNode::App(g, x) => match m {
            LpNode::App(h, y) => Left::Two(g, h, x, y),
            _ => Left::Differs,
        },
        LpNode::Lam(g, x) => match m {
            LpNode::Lam(h, y) => Left::Two(g, h, x, y),
            _ => Left::Differs,
        },
        LpNode::Pi(g, x) => match m {
            LpNode::Pi(h, y) => Left::Two(g, h, x, y),
            _ => Left::Differs,
        },
        _ => Left::Differs,
    }
}
