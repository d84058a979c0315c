//! The binders round the parts of a term, each list of them kept once under a number.
ghost use Rattle.std.specs.Prelude.{◌≡◌, ◌⊎◌, ◌<◌, [], ◌∷◌, ◌++◌, Some, length, slice_get, IfOk, IfSome, IfNone, OnOk, OnErr};
ghost use Rattle.std.specs.BTreeMap.{Updates};
ghost use Rattle.hol_term.specs.Scopes.{list_in, scope_cmp, place_in, AddsList, KeepsLists, ArePlaced};

use common::Memory;
use hol_type::TypeId;
use std::alloc::Global;
use std::collections::BTreeMap;
use std::marker::Model;

/// The number of a list of binders. The empty list has 0.
#[derive(Clone, Copy, PartialEq, Eq, PartialOrd, Ord)]
pub(crate) struct ScopeId(pub(crate) usize);

/// No binders at all.
pub(crate) const NO_BINDERS: ScopeId = ScopeId(0);

/// A list of binders that is not empty: those round the innermost one, and its type.
#[derive(Clone, Copy, PartialEq, Eq, PartialOrd, Ord)]
pub(crate) struct Scope {
    pub(crate) outer: ScopeId,
    pub(crate) ty: TypeId,
}

/// Lists of binders. Contracts see the types of each, the innermost first, by number.
#[derive(Drop)]
pub(crate) struct Scopes {
    inner: Vec<Scope>,
    // The place of each in that list.
    places: BTreeMap<Scope, usize>,
}

impl Model for Scopes {
    ghost use Rattle.std.specs.Prelude.{List};
    ghost use Rattle.hol_type.specs.declared.table.TypeId.{TypeId as AnId};
    ghost use Rattle.hol_term.specs.Scopes.{lists_of, place_in, AreInner, ArePlaced};

    ghost Value = { List (List AnId) };

    ghost view = { λ s. lists_of s.inner.items };

    ghost invariant = { λ s. AreInner s.inner.items × ArePlaced s.inner.items (place_in s.places) };
}

impl Scopes {
    pub(crate) fn new(alloc: Global) -> Self
        ensures none { result ≡ [] ∷ [] }
    {
        Scopes {
            inner: Vec::new(alloc),
            places: BTreeMap::new(alloc),
        }
    }

    // The list with a binder of this type inside those of `outer`.
    pub(crate) fn enter(&mut self, outer: ScopeId, ty: TypeId) -> Result<ScopeId, Memory>
        requires { outer.0 < length self.old }
        ensures entered { IfOk result (λ scope. slice_get self.new scope.0 ≡ Some (ty ∷ list_in self.old outer.0)) }
        ensures keeps { OnOk result (KeepsLists self.old self.new) }
        ensures adds { OnOk result (AddsList self.old self.new (ty ∷ list_in self.old outer.0)) }
    {
        let scope = Scope { outer, ty };
        let place = put(&mut self.inner, &mut self.places, scope)?;
        let _count = self.inner.len();
        Ok(ScopeId(place + 1))
    }

    // The type of a list's binder with this number, the innermost having 0.
    pub(crate) fn at(&self, scope: ScopeId, n: u128) -> Option<TypeId>
        requires { scope.0 < length self.now }
        ensures { result ≡ slice_get (list_in self.now scope.0) n }
    {
        let mut round = scope;
        let mut left = n;
        while let Some(here) = self.innermost(round) {
            if left == 0 {
                return Some(here.ty);
            }
            round = here.outer;
            left -= 1;
        }
        None
    }

    // A list's innermost binder with those round it, or `None` for the empty list.
    fn innermost(&self, scope: ScopeId) -> Option<Scope>
        requires { scope.0 < length self.now }
        ensures some { IfSome result (λ s. list_in self.now scope.0 ≡ s.ty ∷ list_in self.now s.outer.0) }
        ensures outer { IfSome result (λ s. s.outer.0 < scope.0) }
        ensures none { IfNone result (list_in self.now scope.0 ≡ []) }
    {
        let scopes = &self.inner;
        if scope.0 == 0 {
            return None;
        }
        Some(scopes[scope.0 - 1])
    }
}

// The place of a scope, the next one if it is new.
fn put(
    inner: &mut Vec<Scope>,
    places: &mut BTreeMap<Scope, usize>,
    scope: Scope,
) -> Result<usize, Memory>
    requires { ArePlaced inner.old.items (place_in places.old) }
    ensures at { IfOk result (λ place. slice_get inner.new.items place ≡ Some scope) }
    ensures adds { (inner.new.items ≡ inner.old.items) ⊎ (inner.new.items ≡ inner.old.items ++ scope ∷ []) }
    ensures placed { ArePlaced inner.new.items (place_in places.new) }
{
    match find(places, scope) {
        Some(place) => Ok(place),
        None => put_last(inner, places, scope),
    }
}

// The place of a scope.
fn find(places: &BTreeMap<Scope, usize>, scope: Scope) -> Option<usize>
    ensures { result ≡ place_in places.now scope }
{
    places.get(&scope).copied()
}

// Puts a new scope last.
fn put_last(
    inner: &mut Vec<Scope>,
    places: &mut BTreeMap<Scope, usize>,
    scope: Scope,
) -> Result<usize, Memory>
    ensures place { IfOk result (λ place. place ≡ length inner.old.items) }
    ensures inner { OnOk result (inner.new.items ≡ inner.old.items ++ scope ∷ []) }
    ensures places { OnOk result (Updates scope_cmp places.old places.new scope (Some (length inner.old.items))) }
    ensures unchanged { OnErr result ((inner.new.items ≡ inner.old.items) × (places.new.entries ≡ places.old.entries)) }
{
    inner.reserve(1)?;
    let place = inner.len();
    places.insert(scope, place)?;
    inner.push_reserved(scope);
    Ok(place)
}
