//! The walk that matches a type to another.
ghost use Rattle.std.specs.Prelude.{◌≡◌, ◌<◌, ◌∷◌, length, IfOk, IfSome, OnOk, MatchOption};
ghost use Rattle.hol_spec.specs.Substitution.{TypePairs, substitute};
ghost use Rattle.hol_type.specs.declared.table.TypeId.{TypeId as AnId};
ghost use Rattle.hol_type.specs.Tables.{tree_at, pairs_at, ArePairsKnown, IsDistinct};
ghost use Rattle.hol_type.specs.Matchings.{IsMatching, GoesOn, with_pairs, total};
ghost use Rattle.hol_type.specs.Walks.{IsNoted};

use crate::marks::Marks;
use crate::{TypeId, TypeMap, TypeTable, TypeView};
use common::{Memory, Stack};
use hol_name::Name;

/// A matching on its way: the pairs of types that are still to be matched, what it has found for the variables,
/// and what each part of the general type has to become.
#[derive(Drop)]
pub(crate) struct Matching {
    tasks: Stack<(TypeId, TypeId)>,
    found: Vec<(Name, TypeId)>,
    met: Marks,
}

// A type for each variable of `general` under which it becomes `instance`.
pub(crate) fn matched(
    table: &TypeTable,
    general: TypeId,
    instance: TypeId,
) -> Result<Option<TypeMap>, Memory>
    requires general { general.0 < length table.now }
    requires instance { instance.0 < length table.now }
    requires distinct { IsDistinct table.now }
    ensures matches { IfOk result (λ found. MatchOption found
        ((s : TypePairs) → substitute s (tree_at table.now general.0) ≡ tree_at table.now instance.0 → ⊥)
        (λ pairs. substitute (pairs_at table.now pairs) (tree_at table.now general.0) ≡ tree_at table.now instance.0)) }
    ensures known { IfOk result (λ found. IfSome found (λ pairs. ArePairsKnown table.now pairs)) }
{
    let mut matching = Matching {
        tasks: Stack::new(table.alloc),
        found: Vec::new(table.alloc),
        met: Marks::new(table.alloc),
    };
    matching.tasks.push((general, instance))?;
    while let Some((part, image)) = matching.tasks.pop() {
        if !meet(table, part, image, &mut matching)? {
            return Ok(None);
        }
    }
    Ok(Some(TypeMap::of(matching.found)))
}

// Whether a part of the general type may become this type.
fn meet(
    table: &TypeTable,
    part: TypeId,
    image: TypeId,
    matching: &mut Matching,
) -> Result<bool, Memory>
    requires { (general : AnId) × (instance : AnId)
        × IsMatching general instance table.now ((part, image) ∷ matching.old.tasks) matching.old.found.items matching.old.met }
    ensures turn { IfOk result (λ may. (general instance : AnId)
        → IsMatching general instance table.now ((part, image) ∷ matching.old.tasks) matching.old.found.items matching.old.met
        → GoesOn may general instance table.now matching.new.tasks matching.new.found.items matching.new.met) }
    ensures less { OnOk result (total table.now matching.new.tasks < total table.now ((part, image) ∷ matching.old.tasks)) }
{
    match matching.met.find(part) {
        Some(met) => Ok(met == image),
        None => meet_new(table, part, image, matching),
    }
}

// Whether a part that is new may become this type.
fn meet_new(
    table: &TypeTable,
    part: TypeId,
    image: TypeId,
    matching: &mut Matching,
) -> Result<bool, Memory>
    requires new { (r : AnId) → IsNoted matching.old.met part r → ⊥ }
    requires matching { (general : AnId) × (instance : AnId)
        × IsMatching general instance table.now ((part, image) ∷ matching.old.tasks) matching.old.found.items matching.old.met }
    ensures turn { IfOk result (λ may. (general instance : AnId)
        → IsMatching general instance table.now ((part, image) ∷ matching.old.tasks) matching.old.found.items matching.old.met
        → GoesOn may general instance table.now matching.new.tasks matching.new.found.items matching.new.met) }
    ensures less { OnOk result (total table.now matching.new.tasks < total table.now ((part, image) ∷ matching.old.tasks)) }
{
    match (table.view(part), table.view(image)) {
        (TypeView::Var(name), _) => {
            matching.found.push((name.clone()?, image))?;
            matching.met.note(part, image)?;
            Ok(true)
        }
        (TypeView::Op(name, parts), TypeView::Op(other, images)) => {
            if name != other || parts.len() != images.len() {
                return Ok(false);
            }
            set_out(&mut matching.tasks, parts, images)?;
            matching.met.note(part, image)?;
            Ok(true)
        }
        (TypeView::Op(_, _), TypeView::Var(_)) => Ok(false),
    }
}

// Sets out to match each of these parts to the type at its place.
fn set_out(
    tasks: &mut Stack<(TypeId, TypeId)>,
    parts: &[TypeId],
    images: &[TypeId],
) -> Result<(), Memory>
    requires { length parts.now ≡ length images.now }
    ensures { OnOk result (tasks.new ≡ with_pairs parts.now images.now tasks.old) }
{
    for (index, part) in parts.iter().enumerate() {
        tasks.push((*part, images[index]))?;
    }
    Ok(())
}
