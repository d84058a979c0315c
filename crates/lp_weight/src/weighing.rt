//! The weights of a module's declarations, each of its trees looked at once.
ghost use Rattle.std.specs.Prelude.{◌≡◌, ◌<◌, ◌≤◌, [], length, IfOk, OnOk};
ghost use Rattle.lp_spec.specs.Trees.{Tree, Sym, App, Pi};
ghost use Rattle.lp_spec.specs.Weight.{spreads as spreads_of, tree_weight as tree_weighs};
ghost use Rattle.lp_term.specs.Tables.{tree_at, Holds};
ghost use Rattle.holide_sig.specs.Modules.{declarations_of, IsHeld};
ghost use Rattle.holide_sig.specs.declared.module.Module.{Module as AModule};
ghost use Rattle.lp_weight.specs.Saturation.{saturated};
ghost use Rattle.lp_weight.specs.Occurrences.{occurrences};
ghost use Rattle.lp_weight.specs.Weights.{weight_at, bound_at, fast_bound_at};
ghost use Rattle.lp_weight.specs.Spreads.{IsFront, IsSpread, AreWeights};

use crate::column::{Column, Front, Head, Spread};
use crate::measure::{Walk, measured, root};
use common::Memory;
use holide_sig::{Module, SIGNATURE};
use lp_term::{LpId, LpNode};
use std::alloc::Global;

// How many times the cube of its weight the steps of a declaration's check may be, and the square without rechecks of sorts.
const FACTOR: u128 = 64;

/// The weights of a module's declarations. Each tree of the module is looked at once, however often it is asked for.
///
/// It is for one module, which stays as it is; after want of memory it is of no more use.
#[derive(Drop)]
pub struct Weights {
    walk: Walk,
    column: Column,
}

impl Weights {
    /// The weights of a module of which nothing is known yet. It takes no memory.
    pub fn new(alloc: Global) -> Self
        ensures { (m : AModule) → AreWeights m result }
    {
        Weights {
            walk: Walk::new(alloc),
            column: Column::new(alloc),
        }
    }

    /// How many steps the check of this declaration may take: 64 times the cube of its weight, or the greatest number of the
    /// type if that is more.
    pub fn bound(&mut self, base: &Module, i: usize) -> Result<u128, Memory>
        requires held { IsHeld base.now }
        requires i { i < length base.now.decls }
        requires weights { AreWeights base.now self.old }
        ensures bound { IfOk result (λ steps. steps ≡ bound_at (declarations_of base.now) i) }
        ensures weights { OnOk result (AreWeights base.now self.new) }
    {
        let weight = self.weight(base, i)?;
        let square = weight.saturating_mul(weight);
        Ok(square.saturating_mul(weight).saturating_mul(FACTOR))
    }

    /// How many steps the check of this declaration without rechecks of sorts may take: 64 times the square of its weight, or
    /// the greatest number of the type if that is more.
    pub fn bound_fast(&mut self, base: &Module, i: usize) -> Result<u128, Memory>
        requires held { IsHeld base.now }
        requires i { i < length base.now.decls }
        requires weights { AreWeights base.now self.old }
        ensures bound { IfOk result (λ steps. steps ≡ fast_bound_at (declarations_of base.now) i) }
        ensures weights { OnOk result (AreWeights base.now self.new) }
    {
        let weight = self.weight(base, i)?;
        Ok(weight.saturating_mul(weight).saturating_mul(FACTOR))
    }

    /// What this declaration weighs, or the greatest number of the type if it weighs more.
    pub fn weight(&mut self, base: &Module, i: usize) -> Result<u128, Memory>
        requires held { IsHeld base.now }
        requires i { i < length base.now.decls }
        requires weights { AreWeights base.now self.old }
        ensures weight { IfOk result (λ n. n ≡ saturated (weight_at (declarations_of base.now) i)) }
        ensures weights { OnOk result (AreWeights base.now self.new) }
    {
        let decl = base.decls.get(i);
        let ty = self.tree_weight(base, decl.ty)?;
        match decl.body {
            None => Ok(ty),
            Some(body) => {
                let body = self.tree_weight(base, body)?;
                Ok(ty.saturating_add(body))
            }
        }
    }

    // The size of a tree with the spread of every symbol in it.
    fn tree_weight(&mut self, base: &Module, id: LpId) -> Result<u128, Memory>
        requires held { IsHeld base.now }
        requires known { id.0 < length base.now.table }
        requires weights { AreWeights base.now self.old }
        ensures weight { IfOk result (λ n. n ≡ saturated (tree_weighs (declarations_of base.now) (tree_at base.now.table id.0))) }
        ensures weights { OnOk result (AreWeights base.now self.new) }
    {
        self.reach(base, id)?;
        let size = base.table.size(id);
        Ok(size.saturating_add(self.spreads(base, id)))
    }

    // Looks at all trees up to this one.
    fn reach(&mut self, base: &Module, id: LpId) -> Result<(), Memory>
        requires held { IsHeld base.now }
        requires known { id.0 < length base.now.table }
        requires weights { AreWeights base.now self.old }
        ensures reached { OnOk result (id.0 < length self.new.column) }
        ensures weights { OnOk result (AreWeights base.now self.new) }
    {
        self.column.reserve(base.table.count())?;
        while self.column.len() <= id.0 {
            let next = LpId(self.column.len());
            let spread = self.spread(base, next)?;
            self.column.push(spread)?;
        }
        Ok(())
    }

    // The spreads of a tree whose parts were looked at.
    fn spread(&mut self, base: &Module, id: LpId) -> Result<Spread, Memory>
        requires held { IsHeld base.now }
        requires known { id.0 < length base.now.table }
        requires reached { id.0 ≤ length self.old.column }
        requires weights { AreWeights base.now self.old }
        ensures spread { IfOk result (IsSpread base.now (tree_at base.now.table id.0)) }
        ensures column { self.new.column ≡ self.old.column }
        ensures weights { OnOk result (AreWeights base.now self.new) }
    {
        match base.table.view(id) {
            LpNode::Sym(symbol) => Ok(Spread {
                front: front_of(base, symbol),
                inner: 0,
            }),
            LpNode::App(f, x) => {
                let function = self.column.get(f.0);
                let inner = function.inner.saturating_add(self.spreads(base, x));
                let front = self.applied(base, function.front, x)?;
                Ok(Spread { front, inner })
            }
            LpNode::Lam(a, b) => {
                let domain = self.spreads(base, a);
                Ok(plain(0, domain.saturating_add(self.spreads(base, b))))
            }
            LpNode::Pi(a, b) => {
                let count = self.count(base, b)?;
                let domain = self.spreads(base, a);
                Ok(plain(count, domain.saturating_add(self.spreads(base, b))))
            }
            LpNode::SortType | LpNode::SortKind | LpNode::Var(_) => Ok(plain(0, 0)),
        }
    }

    // The spreads of all symbols of a tree that was looked at.
    fn spreads(&self, base: &Module, id: LpId) -> u128
        requires reached { id.0 < length self.now.column }
        requires weights { AreWeights base.now self.now }
        ensures { result ≡ saturated (spreads_of (declarations_of base.now) [] (tree_at base.now.table id.0)) }
    {
        let spread = self.column.get(id.0);
        match spread.front {
            Front::Plain(_) => spread.inner,
            Front::Symbol(head) => {
                let rest = base.table.size(head.rest);
                spread.inner.saturating_add(head.spent).saturating_add(rest)
            }
        }
    }

    // The front of a tree applied to an argument more.
    fn applied(&mut self, base: &Module, front: Front, arg: LpId) -> Result<Front, Memory>
        requires front { (t : Tree) × IsFront base.now t front }
        requires arg { arg.0 < length base.now.table }
        requires weights { AreWeights base.now self.old }
        ensures front { IfOk result (λ new. (t : Tree) → IsFront base.now t front → IsFront base.now (App t (tree_at base.now.table arg.0)) new) }
        ensures column { self.new.column ≡ self.old.column }
        ensures weights { OnOk result (AreWeights base.now self.new) }
    {
        let Front::Symbol(head) = front else {
            return Ok(Front::Plain(0));
        };
        match base.table.view(head.rest) {
            LpNode::Pi(domain, body) => {
                let count = self.count_in(base, head.rest, body)?;
                let more = count.saturating_mul(base.table.size(arg) - 1);
                let domain = base.table.size(domain);
                Ok(Front::Symbol(Head {
                    rest: body,
                    spent: head.spent.saturating_add(domain).saturating_add(more),
                }))
            }
            _ => Ok(front),
        }
    }

    // How often the variable of a product occurs in its body: as it was found where the product was looked at, which most were.
    fn count_in(&mut self, base: &Module, product: LpId, body: LpId) -> Result<u128, Memory>
        requires known { body.0 < length base.now.table }
        requires product { (domain : Tree) × Holds base.now.table product.0 (Pi domain (tree_at base.now.table body.0)) }
        requires weights { AreWeights base.now self.old }
        ensures count { IfOk result (λ n. n ≡ saturated (occurrences 0 (tree_at base.now.table body.0))) }
        ensures column { self.new.column ≡ self.old.column }
        ensures weights { OnOk result (AreWeights base.now self.new) }
    {
        if product.0 < self.column.len() {
            if let Front::Plain(count) = self.column.get(product.0).front {
                return Ok(count);
            }
        }
        self.count(base, body)
    }

    // How often the variable of a binder occurs in its body.
    fn count(&mut self, base: &Module, body: LpId) -> Result<u128, Memory>
        requires known { body.0 < length base.now.table }
        requires weights { AreWeights base.now self.old }
        ensures count { IfOk result (λ n. n ≡ saturated (occurrences 0 (tree_at base.now.table body.0))) }
        ensures column { self.new.column ≡ self.old.column }
        ensures weights { OnOk result (AreWeights base.now self.new) }
    {
        self.walk.trim();
        measured(base, root(body), &mut self.walk)
    }
}

// The spreads of a tree that no symbol heads, where the variable of a product occurs so often in its body.
fn plain(count: u128, inner: u128) -> Spread
    ensures { result ≡ record { front = Front.Plain count; inner = inner } }
{
    Spread {
        front: Front::Plain(count),
        inner,
    }
}

// The front of a symbol alone.
fn front_of(base: &Module, symbol: usize) -> Front
    requires { IsHeld base.now }
    ensures { IsFront base.now (Sym symbol) result }
{
    if symbol < SIGNATURE + base.decls.len() {
        Front::Symbol(Head {
            rest: base.symbol_type(symbol),
            spent: 0,
        })
    } else {
        Front::Plain(0)
    }
}
