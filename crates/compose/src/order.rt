//! Which set of hypotheses comes before another: that of which is the least number in which they differ.
ghost use Rattle.std.specs.Prelude.{◌++◌, ◌∷◌, [], List, Some};
ghost use Rattle.hol_term.specs.declared.TermId.{TermId as AnId};
ghost use Rattle.compose.specs.Orders.{Compares, IsLeastBeyond};

use hol_term::TermId;
use sequent::Hyps;
use std::cmp::Ordering;

/// How two sets of hypotheses compare. It takes no memory.
pub(crate) fn compare(a: &Hyps, b: &Hyps) -> Ordering
    ensures { Compares a.now b.now result }
{
    ordering(least_beyond(a, b), least_beyond(b, a))
}

// How two sets compare of which these are the least numbers that are not in the other.
fn ordering(own: Option<TermId>, other: Option<TermId>) -> Ordering
    ensures { (a b : List AnId) → IsLeastBeyond a b own → IsLeastBeyond b a other → Compares a b result }
{
    match (own, other) {
        (None, None) => Ordering::Equal,
        (Some(_), None) => Ordering::Less,
        (None, Some(_)) => Ordering::Greater,
        (Some(own), Some(other)) => lesser(own, other),
    }
}

// How they compare where each has such a number.
fn lesser(own: TermId, other: TermId) -> Ordering
    ensures { (a b : List AnId) → IsLeastBeyond a b (Some own) → IsLeastBeyond b a (Some other) → Compares a b result }
{
    if own.0 < other.0 {
        Ordering::Less
    } else {
        Ordering::Greater
    }
}

// The least number of these that is none of the others.
fn least_beyond(own: &Hyps, others: &Hyps) -> Option<TermId>
    ensures { IsLeastBeyond own.now others.now result }
{
    let mut least = None;
    for id in own.ids() {
        least = with_next(*id, others, least);
    }
    least
}

// The least so far, once one more number was looked at.
fn with_next(id: TermId, others: &Hyps, least: Option<TermId>) -> Option<TermId>
    ensures { (ids : List AnId) → IsLeastBeyond ids others.now least → IsLeastBeyond (ids ++ id ∷ []) others.now result }
{
    if others.contains(id) {
        return least;
    }
    let Some(other) = least else {
        return Some(id);
    };
    if other.0 < id.0 { least } else { Some(id) }
}
