//! The trees of a table made anew in another, with their symbols' new numbers: each once.
ghost use Rattle.std.specs.Prelude.{◌≡◌, ◌<◌, ◌≤◌, [], length, IfOk, OnOk};
ghost use Rattle.lp_term.specs.Tables.{Keeps, PartsBelow};
ghost use Rattle.share_spec.specs.MovedTrees.{moved_symbol as moved};
ghost use Rattle.share.specs.Moving.{place_by, AreMade, IsMovedNode};

use common::Memory;
use holide_sig::SIGNATURE;
use lp_term::{LpId, LpNode, LpTable};

// The place of a declaration: that of the list, or beyond its end so many more.
fn place_of(places: &[usize], more: usize, number: usize) -> Result<usize, Memory>
    ensures { IfOk result (λ r. r ≡ place_by places.now more number) }
{
    match places.get(number) {
        Some(place) => Ok(*place),
        None => number.checked_add(more).ok_or(Memory),
    }
}

// The new number of a symbol.
fn moved_symbol(places: &[usize], more: usize, symbol: usize) -> Result<usize, Memory>
    ensures { IfOk result (λ r. r ≡ moved (place_by places.now more) symbol) }
{
    if symbol < SIGNATURE {
        return Ok(symbol);
    }
    let place = place_of(places, more, symbol - SIGNATURE)?;
    SIGNATURE.checked_add(place).ok_or(Memory)
}

// A node over the trees that are made, with its symbol's new number.
fn moved_node(places: &[usize], more: usize, made: &[LpId], node: LpNode) -> Result<LpNode, Memory>
    requires { PartsBelow (length made.now) node }
    ensures { IfOk result (IsMovedNode (place_by places.now more) made.now node) }
{
    match node {
        LpNode::SortType => Ok(LpNode::SortType),
        LpNode::SortKind => Ok(LpNode::SortKind),
        LpNode::Var(number) => Ok(LpNode::Var(number)),
        LpNode::Sym(symbol) => Ok(LpNode::Sym(moved_symbol(places, more, symbol)?)),
        LpNode::App(f, x) => Ok(LpNode::App(made[f.0], made[x.0])),
        LpNode::Lam(a, b) => Ok(LpNode::Lam(made[a.0], made[b.0])),
        LpNode::Pi(a, b) => Ok(LpNode::Pi(made[a.0], made[b.0])),
    }
}

/// Makes the first trees of a table in another: their numbers there.
pub(crate) fn make_moved(
    source: &LpTable,
    count: usize,
    places: &[usize],
    more: usize,
    target: &mut LpTable,
    made: &mut Vec<LpId>,
) -> Result<(), Memory>
    requires within { count ≤ length source.now }
    requires none { made.old.items ≡ [] }
    ensures keeps { Keeps target.old target.new }
    ensures count { OnOk result (length made.new.items ≡ count) }
    ensures made { OnOk result (AreMade (place_by places.now more) source.now target.new made.new.items) }
{
    for i in 0..count {
        let node = moved_node(places, more, made, source.view(LpId(i)))?;
        let id = target.node(node)?;
        made.push(id)?;
    }
    Ok(())
}
