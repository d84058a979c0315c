//! How often a variable occurs at a place, by the place's parts.
ghost use Rattle.std.specs.Prelude.{◌≡◌};
ghost use Rattle.lp_spec.specs.Trees.{Var};
ghost use Rattle.lp_weight.specs.Occurrences.{occurrences};
ghost use Rattle.lp_weight.specs.Measures.{place_occurrences, IsPlace, IsPart};

use crate::memo::Place;
use holide_sig::Module;
use lp_term::{LpId, LpNode};

/// How often the variable occurs that is bound right outside the binders round a place: so often, or as often as at two places.
#[derive(Clone, Copy)]
pub(crate) enum Parts {
    Alone(u128),
    Two(Place, Place),
}

/// The same of a place, whose parts are smaller. A tree that those binders close has none of it.
pub(crate) fn parts_of(base: &Module, place: Place) -> Parts
    requires { IsPlace base.now.table place }
    ensures { IsPart (place_occurrences base.now) base.now.table place result }
{
    if base.table.is_closed_under(place.id, place.depth as u128) {
        return Parts::Alone(0);
    }
    match base.table.view(place.id) {
        LpNode::Var(n) => Parts::Alone(at_variable(n, place.depth)),
        LpNode::App(f, x) => two(place, f, x, place.depth),
        LpNode::Lam(a, b) | LpNode::Pi(a, b) => two(place, a, b, place.depth + 1),
        LpNode::SortType | LpNode::SortKind | LpNode::Sym(_) => Parts::Alone(0),
    }
}

// How often the variable of this number is the variable `n`.
fn at_variable(n: u128, number: u64) -> u128
    ensures { result ≡ occurrences number (Var n) }
{
    if n == number as u128 { 1 } else { 0 }
}

// Two parts, the second under so many binders.
fn two(place: Place, first: LpId, second: LpId, depth: u64) -> Parts
    ensures { result ≡ Parts.Two (record place { id = first }) (record { id = second; depth = depth }) }
{
    let first = Place {
        id: first,
        depth: place.depth,
    };
    Parts::Two(first, Place { id: second, depth })
}
