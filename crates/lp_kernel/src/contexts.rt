//! Numbers of contexts, so that what is found of a tree in a context is found again wherever that context stands.
ghost use Rattle.std.specs.Prelude.{◌≡◌, [], List, IfOk};
ghost use Rattle.std.specs.Bool.{OnTrue};
ghost use Rattle.lp_term.specs.declared.LpId.{LpId as AnId};
ghost use Rattle.lp_kernel.specs.Keys.{IsInner, IsKey, AreMore};
ghost use Rattle.lp_kernel.specs.Pending.{outside};

use crate::latest::{Finding, Latest};
use common::Memory;
use lp_term::LpId;
use std::alloc::Global;
use std::marker::Model;

/// A context that is not empty: the number of what is outside its innermost variable, and the type of that variable.
#[derive(Clone, Copy)]
pub struct Scope {
    pub(crate) outer: usize,
    pub(crate) entry: LpId,
}

/// Contexts by number: 0 is the empty one, and each other has one more than the place of its scope. The number of a context that was numbered
/// before is found again as long as it is kept; else the context gets one more.
#[derive(Drop)]
pub struct Contexts {
    scopes: Vec<Scope>,
    last: Latest,
}

impl Model for Contexts {
    ghost use Rattle.std.specs.Prelude.{List};
    ghost use Rattle.lp_kernel.specs.declared.contexts.Scope.{Scope as AScope};

    ghost Value = { List AScope };

    ghost view = { λ c. c.scopes.items };
}

impl Contexts {
    /// The empty context alone has a number.
    pub(crate) fn new(alloc: Global) -> Self
        ensures { result ≡ [] }
    {
        Contexts {
            scopes: Vec::new(alloc),
            last: Latest::new(alloc),
        }
    }

    /// Forgets all.
    pub(crate) fn clear(&mut self)
        ensures { self.new ≡ [] }
    {
        self.scopes.clear();
        self.last.clear();
    }

    /// How many there are, but for the empty one.
    pub(crate) fn len(&self) -> usize {
        self.scopes.len()
    }

    /// The number of the context outside the innermost variable.
    pub(crate) fn outer(&self, key: usize) -> usize
        ensures { (c : List AnId) → IsKey self.now key c → IsKey self.now result (outside c) }
    {
        outer_in(&self.scopes, key)
    }

    /// The number of a context with a new innermost variable of this type.
    pub(crate) fn inner(&mut self, outer: usize, entry: LpId) -> Result<usize, Memory>
        ensures more { AreMore self.old self.new }
        ensures key { IfOk result (λ key. IsInner self.new key outer entry) }
    {
        if let Some(found) = self.last.find(entry, outer as u128) {
            if is_inner(&self.scopes, found.0, outer, entry) {
                return Ok(found.0);
            }
        }
        self.scopes.push(Scope { outer, entry })?;
        let key = self.scopes.len();
        self.last.keep(Finding {
            id: entry,
            by: outer as u128,
            found: LpId(key),
        })?;
        Ok(key)
    }
}

// The number of the context outside the innermost variable.
fn outer_in(scopes: &[Scope], key: usize) -> usize
    ensures { (c : List AnId) → IsKey scopes.now key c → IsKey scopes.now result (outside c) }
{
    let Some(place) = key.checked_sub(1) else {
        return 0;
    };
    match scopes.get(place) {
        Some(scope) => scope.outer,
        None => 0,
    }
}

// Whether this is the number of a context with an innermost variable of this type.
fn is_inner(scopes: &[Scope], key: usize, outer: usize, entry: LpId) -> bool
    ensures { OnTrue result (IsInner scopes.now key outer entry) }
{
    let Some(place) = key.checked_sub(1) else {
        return false;
    };
    match scopes.get(place) {
        Some(scope) => scope.outer == outer && scope.entry == entry,
        None => false,
    }
}
