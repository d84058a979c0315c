//! Terms of higher-order logic, each kept once under a number, with the table of their types.
//!
//! A table's value is the list of its types and that of its trees, by number: two numbers are equal exactly where their
//! trees are. A call that makes a term keeps every number that was given before, and after a refusal or want of memory
//! the table is as before. A term that is made is within the limits of size and depth, or refused for exactly the limit
//! that it passes; where types do not fit, that is told first. What makes several terms before it judges any calls
//! `raw_application` and its like (`raw_abstraction`, `raw_instance`, `raw_equation`, `raw_subst`), or `image`, which judge nothing and refuse nothing.
//! No binder captures: to put a term into what closed a variable is to substitute it. `subst` puts types and then terms,
//! each list all at once; pairs that are put many times are made ready once, as a `PutIndex`, for `image`. The free
//! variables and the type variables of a term are listed in order of first occurrence, each once. Walks come once to each
//! part, or where binders matter once to each part under the same binders. What lifts, puts, closes or substitutes passes
//! over a tree where a node's measures tell that nothing in it changes, or the order of numbers that a variable is not in it.
//!
//! ```
//! let mut table = TermTable::new(alloc);
//! let a = table.ty_var(&Name::single(alloc, b"A")?)?;
//! let x = table.free(&Name::single(alloc, b"x")?, a)?;
//! ```
#![tactic(auto)]

ghost use Rattle.std.specs.Prelude.{◌≡◌, ◌<◌, ◌^◌, ◌-◌, [], length, IfOk};
ghost use Rattle.hol_spec.specs.Terms.{type_of as the_type};
ghost use Rattle.hol_spec.specs.Primitives.{function as function_type, bool as bool_type};
ghost use Rattle.hol_type.specs.Tables as type;
ghost use Rattle.hol_term.specs.Tables.{Trees, term_at, type_at, Holds, Keeps, IsDistinct, IsTypeNumber};
ghost use Rattle.hol_term.specs.Nodes.{tree_of_node, PartsBelow, AreMeasures, IsMeasured};
ghost use Rattle.hol_term.specs.Parts.{HasParts, AreLower};
ghost use Rattle.hol_term.specs.Owned.{HasItsTypes, IsEarlier};

mod absent;
mod binding;
mod entries;
mod equalities;
mod makers;
mod masks;
mod memo;
mod names;
mod node;
mod pairs;
mod readers;
mod scopes;
mod seats;
mod seen;
mod substitution;
mod typing;
mod variables;
mod walk;

use crate::entries::Entries;
pub use crate::names::Names;
use crate::node::{Entry, Measures, Node};
pub use crate::pairs::PutIndex;
use common::Memory;
use hol_name::Name;
use hol_type::{TypeId, TypeTable};
use std::alloc::{AllocError, Global};
use std::marker::Model;

/// The number of a term in its table. A number that no call of the table gave means nothing there.
#[derive(Clone, Copy, Debug, PartialEq, Eq, PartialOrd, Ord, Hash)]
pub struct TermId(pub usize);

/// A free variable: its name and its type.
#[derive(PartialEq, Eq, PartialOrd, Ord, Hash, Drop)]
pub struct Variable {
    pub name: Name,
    pub ty: TypeId,
}

// A variable is copied with its name.
impl Clone for Variable {
    ghost is_clone = { λ variable copy. copy ≡ variable };

    fn clone(&self) -> Result<Variable, AllocError> {
        Ok(Variable {
            name: self.name.clone()?,
            ty: self.ty,
        })
    }
}

/// The head of a term, with the numbers of its parts.
#[derive(Clone, Copy)]
pub enum TermView<'a> {
    /// A free variable with its name and its type.
    Free(&'a Name, TypeId),
    /// A variable that a binder binds: the number of binders between it and its own.
    Bound(u128),
    /// A constant with its name and its type.
    Const(&'a Name, TypeId),
    /// A function and its argument.
    App(TermId, TermId),
    /// An abstraction: its variable's type and its body.
    Lam(TypeId, TermId),
}

/// What a tree is made of.
#[derive(Clone, Copy)]
pub(crate) enum Parts {
    /// A free variable or a constant.
    Leaf,
    /// A bound number.
    Bound(u128),
    /// A function and its argument.
    App(TermId, TermId),
    /// A variable's type and a body.
    Lam(TypeId, TermId),
}

/// How many types and terms a table has.
#[derive(Clone, Copy)]
pub(crate) struct Mark {
    pub(crate) types: usize,
    pub(crate) terms: usize,
}

/// A table of terms, with the table of their types.
#[derive(Drop)]
pub struct TermTable {
    alloc: Global,
    types: TypeTable,
    entries: Entries,
    // For types by their numbers, guesses at the number of the constant of equality over each. A guess is looked at before it is believed.
    equalities: Vec<TermId>,
}

impl Model for TermTable {
    ghost use Rattle.hol_term.specs.Tables.{Trees, coded_trees};

    ghost Value = { Trees };

    ghost coded = { coded_trees };

    ghost use Rattle.hol_term.specs.Nodes.{terms_of, IsTable};

    ghost view = { λ t. record { types = t.types; terms = terms_of t.types t.entries } };

    ghost invariant = { λ t. IsTable t.types t.entries };
}

impl TermTable {
    /// An empty table. It takes no memory.
    pub fn new(alloc: Global) -> Self
        ensures empty { result ≡ record { types = []; terms = [] } }
    {
        TermTable {
            alloc,
            types: TypeTable::new(alloc),
            entries: Entries::new(alloc),
            equalities: Vec::new(alloc),
        }
    }

    /// The types, for reading.
    pub fn types(&self) -> &TypeTable
        ensures types { result.now ≡ self.now.types }
    {
        &self.types
    }

    // The entry of a tree.
    pub(crate) fn entry(&self, id: TermId) -> &Entry
        requires { id.0 < length self.now.terms }
        ensures is { Holds self.now id.0 (tree_of_node self.now result.now.node) }
        ensures lower { PartsBelow id.0 (length self.now.types) result.now.node }
        ensures measured { IsMeasured self.now.types result.now (term_at self.now id.0) }
        ensures one_each { type.IsDistinct self.now.types }
        ensures distinct { IsDistinct self.now.terms }
        ensures small { length self.now.terms < 2 ^ 63 }
    {
        let _count = self.entries.len();
        self.entries.get(id.0)
    }

    // What a tree is made of.
    pub(crate) fn parts(&self, id: TermId) -> Parts
        requires { id.0 < length self.now.terms }
        ensures is { HasParts self.now (term_at self.now id.0) result }
        ensures lower { AreLower self.now id.0 result }
        ensures distinct { IsDistinct self.now.terms }
        ensures small { length self.now.terms < 2 ^ 63 }
    {
        match &self.entry(id).node {
            Node::Free(..) | Node::Const(..) => Parts::Leaf,
            Node::Bound(n) => Parts::Bound(*n as u128),
            Node::App(f, x) => Parts::App(*f, *x),
            Node::Lam(ty, body) => Parts::Lam(*ty, *body),
        }
    }

    /// How many trees there are.
    pub fn count(&self) -> usize
        ensures { result ≡ length self.now.terms }
    {
        self.entries.len()
    }

    /// The number of a tree's type, if it is a term.
    pub fn ty(&self, id: TermId) -> Option<TypeId>
        requires { id.0 < length self.now.terms }
        ensures typed { IsTypeNumber self.now.types result (the_type (term_at self.now id.0)) }
        ensures one_each { type.IsDistinct self.now.types }
    {
        self.entry(id).facts.ty()
    }

    // The measures of a tree.
    pub(crate) fn measures_of(&self, id: TermId) -> Measures
        requires { id.0 < length self.now.terms }
        ensures { AreMeasures result (term_at self.now id.0) }
    {
        self.entry(id).facts.measures()
    }

    // The tree of this entry's node, which has a number already, or else gets the next one.
    pub(crate) fn insert(&mut self, entry: Entry) -> Result<TermId, Memory>
        requires parts { PartsBelow (length self.old.terms) (length self.old.types) entry.node }
        requires measured { IsMeasured self.old.types entry (tree_of_node self.old entry.node) }
        ensures known { IfOk result (λ id. id.0 < length self.new.terms) }
        ensures made { IfOk result (λ id. Holds self.new id.0 (tree_of_node self.old entry.node)) }
        ensures keeps { Keeps self.old self.new }
        ensures distinct { IsDistinct self.new.terms }
    {
        match self.entries.insert_full(entry) {
            Ok((index, _)) => Ok(TermId(index)),
            Err(memory) => Err(memory),
        }
    }

    // The type of functions from `domain` to `codomain`. No term is made.
    pub(crate) fn function_type(
        &mut self,
        domain: TypeId,
        codomain: TypeId,
    ) -> Result<TypeId, Memory>
        requires domain { domain.0 < length self.old.types }
        requires codomain { codomain.0 < length self.old.types }
        ensures known { IfOk result (λ id. id.0 < length self.new.types) }
        ensures made { IfOk result (λ id. type_at self.new id.0 ≡ function_type (type_at self.old domain.0) (type_at self.old codomain.0)) }
        ensures terms { self.new.terms ≡ self.old.terms }
        ensures keeps { Keeps self.old self.new }
    {
        self.types.function(domain, codomain)
    }

    // The type of truth values. No term is made.
    pub(crate) fn bool_type(&mut self) -> Result<TypeId, Memory>
        ensures known { IfOk result (λ id. id.0 < length self.new.types) }
        ensures made { IfOk result (λ id. type_at self.new id.0 ≡ bool_type) }
        ensures terms { self.new.terms ≡ self.old.terms }
        ensures keeps { Keeps self.old self.new }
    {
        self.types.bool()
    }

    // How many types and terms there are.
    pub(crate) fn mark(&self) -> Mark
        ensures types { result.types ≡ length self.now.types }
        ensures terms { result.terms ≡ length self.now.terms }
        ensures own { HasItsTypes self.now }
        ensures small { length self.now.terms < 2 ^ 63 }
        ensures distinct { IsDistinct self.now.terms }
    {
        Mark {
            types: self.types.count(),
            terms: self.entries.len(),
        }
    }

    // Gives up all types and terms that came after the mark.
    pub(crate) fn cut(&mut self, mark: Mark)
        requires { (before : Trees) × IsEarlier before self.old mark }
        ensures { (before : Trees) → IsEarlier before self.old mark → self.new ≡ before }
    {
        self.entries.truncate(mark.terms);
        self.types.cut(mark.types);
    }
}
