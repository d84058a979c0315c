//! The items of what a proof made, and what each of them needs.
ghost use Rattle.std.specs.Prelude.{◌≡◌, ◌<◌, ◌++◌, ◌∷◌, List, [], length, IfOk, OnOk};
ghost use Rattle.hol_rules.specs.Kept.{Kept};
ghost use Rattle.hol_spec.specs.Proofs.{Made as AMade, Step, symbols_of, IsProof};
ghost use Rattle.hol_defs.specs.Symbols.{IsKnownSymbol};
ghost use Rattle.hol_defs.specs.Views.{operator_of_view};
ghost use Rattle.translate_spec.specs.Items.{Item};
ghost use Rattle.translate_reach.specs.MadeItems.{definition_made, made_items, AddsConstant, AddsOperator, AreItems, AreListed, IsInOrder, IsNoted};

use crate::index::Index;
use common::Memory;
use hol_defs::{SymbolView, TypeOpView};
use hol_name::Name;
use hol_rules::{Made, Proof, StepId};
use hol_term::TermId;
use hol_type::TypeId;
use std::alloc::Global;

/// What an item needs.
#[derive(Clone, Copy)]
pub(crate) enum Need {
    /// Nothing.
    Nothing,
    /// The symbols of a term.
    Term(TermId),
    /// The step from which a type definition is made, and the symbols of a type.
    Part(StepId, TypeId),
    /// What the proof of a step needs, and the symbols of its sequent.
    Step(StepId),
}

/// The items of a proof: what each needs, in order, the item of each step, and the items of constants and operators.
#[derive(Drop)]
pub(crate) struct Items {
    pub(crate) index: Index,
    pub(crate) steps: Vec<usize>,
    pub(crate) needs: Vec<Need>,
}

impl Items {
    // The items of all that the proof made.
    pub(crate) fn of(alloc: Global, proof: &Proof) -> Result<Items, Memory>
        requires order { IsInOrder proof.now }
        ensures { IfOk result (λ items. AreItems proof.now items) }
    {
        proof.is_proof();
        let mut items = Items {
            index: Index::new(alloc),
            steps: Vec::new(alloc),
            needs: Vec::new(alloc),
        };
        let symbols = proof.symbols();
        let _count = symbols.count();
        let mut symbol = 0;
        for one in proof.made() {
            match one {
                Made::Step(_) => items.take_step()?,
                Made::InputConst(_) | Made::InputOp(..) | Made::Const(_) | Made::TypeOp(..) => {
                    items.take_symbol(proof, symbol, one)?;
                    symbol += 1;
                }
            }
        }
        Ok(items)
    }

    // How many items there are.
    pub(crate) fn count(&self) -> usize
        ensures { result ≡ length self.now.needs.items }
    {
        self.needs.len()
    }

    // The next step.
    fn take_step(&mut self) -> Result<(), Memory>
        ensures { OnOk result ((p : Kept) (front rest : List AMade) (x : Step) → IsProof p.made → IsInOrder p → p.made ≡ front ++ AMade.step x ∷ rest
            → AreListed p (made_items front) self.old → AreListed p (made_items (front ++ AMade.step x ∷ [])) self.new) }
    {
        let id = self.steps.len();
        self.steps.push(self.needs.len())?;
        self.needs.push(Need::Step(id))?;
        Ok(())
    }

    // The symbol with a number, and what was noted of it.
    fn take_symbol(&mut self, proof: &Proof, symbol: usize, one: &Made) -> Result<(), Memory>
        requires { symbol < length (symbols_of proof.now.made) }
        ensures { OnOk result ((front rest : List AMade) (y : AMade) → IsProof proof.now.made → IsInOrder proof.now → proof.now.made ≡ front ++ y ∷ rest
            → IsNoted y one.now → symbol ≡ length (symbols_of front) → AreListed proof.now (made_items front) self.old
            → AreListed proof.now (made_items (front ++ y ∷ [])) self.new) }
    {
        match proof.symbols().view(symbol) {
            SymbolView::InputConst(name) => self.add_constant(name, Need::Nothing),
            SymbolView::InputOp(name, arity) => self.add_operator(name, arity, Need::Nothing),
            SymbolView::Const(name, term, _) => self.add_constant(name, Need::Term(term)),
            SymbolView::TypeOp(x) => match one {
                Made::TypeOp(_, premise) => self.take_definition(x, *premise),
                // A type definition is noted with its step.
                _ => Ok(()),
            },
        }
    }

    // A type definition from this step: the operator and its two constants.
    fn take_definition(&mut self, x: TypeOpView<'_>, premise: StepId) -> Result<(), Memory>
        ensures { OnOk result ((p : Kept) (front rest : List AMade) → IsProof p.made → IsInOrder p → IsKnownSymbol p.trees (operator_of_view x.entry)
            → p.made ≡ front ++ definition_made p.trees x.entry premise ∷ rest → AreListed p (made_items front) self.old
            → AreListed p (made_items (front ++ definition_made p.trees x.entry premise ∷ [])) self.new) }
    {
        self.add_operator(x.op, x.names.len(), Need::Part(premise, x.whole))?;
        self.add_constant(x.abs, Need::Part(premise, x.abs_type))?;
        self.add_constant(x.rep, Need::Part(premise, x.rep_type))
    }

    // The next item is a constant.
    fn add_constant(&mut self, name: &Name, need: Need) -> Result<(), Memory>
        ensures { OnOk result ((p : Kept) (list : List Item) (x : Item) → AddsConstant p list name.now need x → AreListed p list self.old
            → AreListed p (list ++ x ∷ []) self.new) }
    {
        self.index.add_constant(name, self.needs.len())?;
        self.needs.push(need)?;
        Ok(())
    }

    // The next item is an operator.
    fn add_operator(&mut self, name: &Name, arity: usize, need: Need) -> Result<(), Memory>
        ensures { OnOk result ((p : Kept) (list : List Item) (x : Item) → AddsOperator p list name.now arity need x → AreListed p list self.old
            → AreListed p (list ++ x ∷ []) self.new) }
    {
        self.index.add_operator(name, arity, self.needs.len())?;
        self.needs.push(need)?;
        Ok(())
    }
}
