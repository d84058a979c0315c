//! The places of sequents of one conclusion, in the order of their hypotheses.
ghost use Rattle.std.specs.Prelude.{◌≡◌, ◌<◌, ◌+◌, ◌∷◌, [], ℕ, List, false, length, IfOk, IfErr, IfSome, IfNone, OnOk, OnErr};
ghost use Rattle.hol_term.specs.declared.TermId.{TermId as AnId};
ghost use Rattle.sequent.specs.Sequents.{same_id};
ghost use Rattle.compose.specs.declared.pool.Said.{Said as ASaid};
ghost use Rattle.compose.specs.Listed.{list_of, place_at, set_at, AreOrdered, AreWithin, IsBetween, IsFound, IsNoted, IsStruck};

use crate::order::compare;
use crate::pool::Said;
use common::Memory;
use hol_term::TermId;
use indexmap::IndexMap;
use sequent::Hyps;
use std::alloc::Global;
use std::cmp::Ordering;

/// A list of places for each conclusion.
pub(crate) type Lists = IndexMap<TermId, Vec<usize>>;

/// The list of a conclusion.
pub(crate) fn list_for(lists: &Lists, concl: TermId) -> &[usize]
    ensures { result.now ≡ list_of lists.now.entries concl }
{
    match lists.get(&concl) {
        Some(list) => list,
        None => &[],
    }
}

// The hypotheses of the sequent at a place.
fn hyps_at(held: &[Said], place: usize) -> &Hyps
    requires { place < length held.now }
    ensures { result.now ≡ set_at held.now place }
{
    &held[place].sequent.hyps
}

/// Where a set of hypotheses stands in a list, or before which place it would.
pub(crate) fn search(list: &[usize], held: &[Said], hyps: &Hyps) -> Result<usize, usize>
    requires within { AreWithin held.now list.now }
    requires ordered { AreOrdered held.now list.now }
    ensures found { IfOk result (IsFound held.now list.now hyps.now) }
    ensures between { IfErr result (λ i. IsBetween held.now list.now hyps.now i i) }
{
    let mut low = 0;
    let mut high = list.len();
    while low < high {
        let middle = low + (high - low) / 2;
        match compare(hyps_at(held, list[middle]), hyps) {
            Ordering::Less => low = middle + 1,
            Ordering::Equal => return Ok(middle),
            Ordering::Greater => high = middle,
        }
    }
    Err(low)
}

/// Notes the place of what was added last in the list of its conclusion, unless an earlier one there has the same hypotheses.
pub(crate) fn note(
    alloc: Global,
    lists: &mut Lists,
    held: &[Said],
    concl: TermId,
    place: usize,
) -> Result<(), Memory>
    requires within { AreWithin held.now (list_of lists.old.entries concl) }
    requires ordered { AreOrdered held.now (list_of lists.old.entries concl) }
    requires last { length held.now ≡ place + 1 }
    ensures noted { OnOk result (IsNoted held.now place (list_of lists.old.entries concl) (list_of lists.new.entries concl)) }
    ensures others { (id : AnId) → same_id concl id ≡ false → list_of lists.new.entries id ≡ list_of lists.old.entries id }
    ensures unchanged { OnErr result ((id : AnId) → list_of lists.new.entries id ≡ list_of lists.old.entries id) }
{
    match lists.get_mut(&concl) {
        Some(list) => note_among(list, held, place),
        None => begin(alloc, lists, concl, place),
    }
}

// Begins the list of a conclusion.
fn begin(alloc: Global, lists: &mut Lists, concl: TermId, place: usize) -> Result<(), Memory>
    ensures list { OnOk result (list_of lists.new.entries concl ≡ place ∷ []) }
    ensures others { (id : AnId) → same_id concl id ≡ false → list_of lists.new.entries id ≡ list_of lists.old.entries id }
    ensures unchanged { OnErr result ((id : AnId) → list_of lists.new.entries id ≡ list_of lists.old.entries id) }
{
    let list = vec![in alloc; place; 1]?;
    match lists.insert(concl, list) {
        Ok(_before) => Ok(()),
        Err(_full) => Err(Memory),
    }
}

// Notes a place in its list.
fn note_among(list: &mut Vec<usize>, held: &[Said], place: usize) -> Result<(), Memory>
    requires within { AreWithin held.now list.old.items }
    requires ordered { AreOrdered held.now list.old.items }
    requires last { length held.now ≡ place + 1 }
    ensures noted { OnOk result (IsNoted held.now place list.old.items list.new.items) }
    ensures unchanged { OnErr result (list.new.items ≡ list.old.items) }
{
    match search(list, held, hyps_at(held, place)) {
        Ok(_known) => Ok(()),
        Err(at) => {
            list.insert(at, place)?;
            Ok(())
        }
    }
}

/// Strikes a place off the list of its conclusion.
pub(crate) fn strike(lists: &mut Lists, concl: TermId, place: usize)
    ensures struck { (held : List ASaid) → AreOrdered held (list_of lists.old.entries concl)
        → IsStruck held place (list_of lists.old.entries concl) (list_of lists.new.entries concl) }
    ensures others { (id : AnId) → same_id concl id ≡ false → list_of lists.new.entries id ≡ list_of lists.old.entries id }
{
    if let Some(list) = lists.get_mut(&concl) {
        strike_off(list, place);
    }
}

// Strikes a place off its list.
fn strike_off(list: &mut Vec<usize>, place: usize)
    ensures { (held : List ASaid) → AreOrdered held list.old.items → IsStruck held place list.old.items list.new.items }
{
    if let Some(at) = position_of(list, place) {
        let _struck = list.remove(at);
    }
}

// Where a place stands in a list.
fn position_of(list: &[usize], place: usize) -> Option<usize>
    ensures within { IfSome result (λ i. i < length list.now) }
    ensures found { IfSome result (λ i. place_at list.now i ≡ place) }
    ensures none { IfNone result ((i : ℕ) → i < length list.now → place_at list.now i ≡ place → ⊥) }
{
    for i in 0..list.len() {
        if list[i] == place {
            return Some(i);
        }
    }
    None
}
