//! The order in which the trees of a module are first met.
ghost use Rattle.std.specs.Prelude.{◌≡◌, ℕ, ◌<◌, ◌+◌, ◌*◌, [], ◌∷◌, ◌++◌, List, length, set, true, OnOk};
ghost use Rattle.lp_spec.specs.Trees.{size, Tree};
ghost use Rattle.lp_term.specs.Tables.{tree_at, trees_at};
ghost use Rattle.share_laws.specs.FirstsByNodes.{visit as visited};
ghost use Rattle.share.specs.declared.order.Turn.TheVariants as turn;
ghost use Rattle.share.specs.Meetings.{entered, unwound, work, met_after, AreTurnsBelow, IsMeeting};

use crate::nodes::two_parts;
use common::{Memory, Stack};
use lp_term::{LpId, LpTable};

/// A tree to enter, or one whose parts were met.
#[derive(Clone, Copy)]
pub(crate) enum Turn {
    Enter(LpId),
    Leave(LpId),
}

/// The trees that were met: which, by their numbers, and in which order.
#[derive(Drop)]
pub(crate) struct Meeting {
    pub(crate) met: Vec<bool>,
    pub(crate) order: Vec<LpId>,
    pub(crate) turns: Stack<Turn>,
}

/// Meets the trees of a tree that were not met, each after its parts.
pub(crate) fn visit(table: &LpTable, id: LpId, meeting: &mut Meeting) -> Result<(), Memory>
    requires meeting { IsMeeting table.now meeting.old.met.items meeting.old.order.items }
    requires known { id.0 < length meeting.old.met.items }
    requires begun { meeting.old.turns ≡ [] }
    ensures order { OnOk result (trees_at table.now meeting.new.order.items ≡ visited (trees_at table.now meeting.old.order.items) (tree_at table.now id.0)) }
    ensures meeting { OnOk result (IsMeeting table.now meeting.new.met.items meeting.new.order.items) }
    ensures length { OnOk result (length meeting.new.met.items ≡ length meeting.old.met.items) }
    ensures ended { OnOk result (meeting.new.turns ≡ []) }
{
    meeting.turns.push(Turn::Enter(id))?;
    while let Some(turn) = meeting.turns.pop() {
        take(table, turn, meeting)?;
    }
    Ok(())
}

// Takes one turn.
fn take(table: &LpTable, turn: Turn, meeting: &mut Meeting) -> Result<(), Memory>
    requires meeting { IsMeeting table.now meeting.old.met.items meeting.old.order.items }
    requires below { AreTurnsBelow (length meeting.old.met.items) (turn ∷ meeting.old.turns) }
    ensures order { OnOk result (met_after table.now meeting.new.turns meeting.new ≡ met_after table.now (turn ∷ meeting.old.turns) meeting.old) }
    ensures meeting { OnOk result (IsMeeting table.now meeting.new.met.items meeting.new.order.items) }
    ensures below { OnOk result (AreTurnsBelow (length meeting.new.met.items) meeting.new.turns) }
    ensures length { OnOk result (length meeting.new.met.items ≡ length meeting.old.met.items) }
    ensures less { OnOk result (work table.now meeting.new.turns < work table.now (turn ∷ meeting.old.turns)) }
{
    match turn {
        Turn::Leave(id) => leave(id, &mut meeting.met, &mut meeting.order),
        Turn::Enter(id) => {
            if meeting.met[id.0] {
                Ok(())
            } else {
                enter(table, id, &mut meeting.turns)
            }
        }
    }
}

// Meets a tree whose parts were met.
fn leave(id: LpId, met: &mut Vec<bool>, order: &mut Vec<LpId>) -> Result<(), Memory>
    requires { id.0 < length met.old.items }
    ensures met { met.new.items ≡ set met.old.items id.0 true }
    ensures order { OnOk result (order.new.items ≡ order.old.items ++ id ∷ []) }
{
    met[id.0] = true;
    order.push(id)?;
    Ok(())
}

// Sets out to meet a tree after its parts.
fn enter(table: &LpTable, id: LpId, turns: &mut Stack<Turn>) -> Result<(), Memory>
    requires { id.0 < length table.now }
    ensures order { OnOk result ((done : List Tree) → unwound table.now turns.new done ≡ unwound table.now turns.old (entered done (tree_at table.now id.0))) }
    ensures below { OnOk result ((n : ℕ) → id.0 < n → AreTurnsBelow n turns.old → AreTurnsBelow n turns.new) }
    ensures less { OnOk result (work table.now turns.new < 3 * size (tree_at table.now id.0) + work table.now turns.old) }
{
    turns.push(Turn::Leave(id))?;
    match two_parts(table.view(id)) {
        Some((first, second)) => enter_two(first, second, turns),
        None => Ok(()),
    }
}

// Sets out to meet two trees.
fn enter_two(first: LpId, second: LpId, turns: &mut Stack<Turn>) -> Result<(), Memory>
    ensures { OnOk result (turns.new ≡ turn.Enter first ∷ turn.Enter second ∷ turns.old) }
{
    turns.push(Turn::Enter(second))?;
    turns.push(Turn::Enter(first))?;
    Ok(())
}
