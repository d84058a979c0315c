//! Types and terms of higher-order logic as trees of the lambda-Pi calculus, made in the table of a module (Assaf and
//! Burel, "Translating HOL to Dedukti").
//!
//! A module tells the symbol of an operator or of a constant by its name, and a scope tells what stands for type variables and for
//! free variables: the tree of a type or a term is the translation in that scope. Where a scope tells nothing, `bool` stands for a
//! type variable and some term of its type for a free variable. Walks keep a stack of their own and come once to each part, or
//! where binders matter once to each part under as many binders.
//!
//! A constant is its symbol at what the variables of its generic type have in its type. The generic type is read back from the
//! declared type of the symbol, of primitive, input and defined constants alike. That what is made in a shaped scope is shaped is
//! a law of the clauses `made`: `terms_shaped` of `translate_laws`.
//!
//! The names of the symbols of operators and constants are spelled here, for those that declare them too: [`input_constant_name`],
//! [`input_operator_name`], [`constant_name`] and [`operator_name`], with [`push_numeral`] for a number in a name.
//!
//! A closed sequent needs no table and no scope: its tree is the product over its parameters, whose places are their numbers. It is
//! the tree of each sequent of which this is the closed form, and it stands for the closed sequent, where the module's symbols mean
//! what they are used for.
//!
//! ```
//! let mut scope = Scope::new(alloc);
//! scope.types.set(name, variable)?;
//! let tree = ty(alloc, &mut module, &types, &scope, id)?;
//! ```
#![tactic(auto)]

ghost use Rattle.std.specs.Prelude.{◌≡◌, ◌<◌, length, IfOk};
ghost use Rattle.std.specs.List.{AllByRecursion};
ghost use Rattle.hol_spec.specs.Limits.{SequentWithin};
ghost use Rattle.hol_spec.specs.Sequents.{Sequent, terms_of};
ghost use Rattle.hol_type.specs.Tables as type;
ghost use Rattle.hol_term.specs.Tables.{term_at};
ghost use Rattle.holide_sig.specs.Modules.{declarations_of, IsHeld};
ghost use Rattle.lp_term.specs.Tables.{tree_at, Holds, Keeps};
ghost use Rattle.translate_spec.specs.Enc.{Enc};
ghost use Rattle.translate_spec.specs.Scopes.{SymbolMap, constant_tree, filler as filler_of, sequent_tree, term_tree as tree_of_term, type_tree as tree_of_type};
ghost use Rattle.translate_laws.specs.ListedScopes.{told, told_types};
ghost use Rattle.translate_laws.specs.SequentEncoding.{TermMeant};
ghost use Rattle.sequent.specs.Closed.{closed_view};
ghost use Rattle.translate_term.specs.Told.{AreTermsKnown, AreTypesKnown, TellsClosed, TellsConstant, TellsTerm, TellsType, terms_in, types_in};

mod closed;
mod generic;
mod memo;
mod nodes;
mod scope;
mod sources;
mod spelling;
mod symbols;
mod tasks;
mod terms;
mod types;

use crate::closed::closed_type;
use crate::generic::constant_of;
use crate::memo::TypeMemo;
use crate::nodes::filling;
use crate::sources::{Source, TypeSource};
use crate::terms::term_tree;
use crate::types::type_of;
use common::Memory;
use hol_name::Name;
use hol_term::{TermId, TermTable};
use hol_type::{TypeId, TypeTable};
use holide_sig::Module;
use lp_term::LpId;
pub use scope::{Scope, ScopeTerms, ScopeTypes};
use sequent::Closed;
pub use spelling::{
    constant_name, input_constant_name, input_operator_name, operator_name, push_numeral,
};
use std::alloc::Global;

/// The tree of a type.
pub fn ty(
    alloc: Global,
    target: &mut Module,
    table: &TypeTable,
    scope: &Scope,
    id: TypeId,
) -> Result<LpId, Memory>
    requires held { IsHeld target.old }
    requires id { id.0 < length table.now }
    requires types { AreTypesKnown target.old.table scope.now.types }
    requires told { (symbols : SymbolMap) × TellsType (declarations_of target.old) symbols (type.tree_at table.now id.0) }
    ensures made { IfOk result (λ r. (symbols : SymbolMap) → TellsType (declarations_of target.old) symbols (type.tree_at table.now id.0)
        → Holds target.new.table r.0 (tree_of_type symbols (told_types (types_in target.old.table scope.now.types)) (type.tree_at table.now id.0))) }
    ensures known { IfOk result (λ r. r.0 < length target.new.table) }
    ensures keeps { Keeps target.old.table target.new.table }
    ensures decls { target.new.decls ≡ target.old.decls }
    ensures held { IsHeld target.new }
    ensures declared { declarations_of target.new ≡ declarations_of target.old }
{
    let mut memo = TypeMemo::new(alloc);
    let source = TypeSource {
        alloc,
        table,
        scope: &scope.types,
    };
    type_of(source, target, &mut memo, id)
}

/// The tree of a term.
pub fn tm(
    alloc: Global,
    target: &mut Module,
    table: &TermTable,
    scope: &Scope,
    id: TermId,
) -> Result<LpId, Memory>
    requires held { IsHeld target.old }
    requires id { id.0 < length table.now.terms }
    requires types { AreTypesKnown target.old.table scope.now.types }
    requires terms { AreTermsKnown table.now.types target.old.table scope.now.terms }
    requires told { (symbols : SymbolMap) × TellsTerm (declarations_of target.old) symbols (term_at table.now id.0) }
    ensures made { IfOk result (λ r. (symbols : SymbolMap) → TellsTerm (declarations_of target.old) symbols (term_at table.now id.0)
        → Holds target.new.table r.0
        (tree_of_term symbols (told symbols (types_in target.old.table scope.now.types) (terms_in table.now.types target.old.table scope.now.terms))
        (term_at table.now id.0))) }
    ensures known { IfOk result (λ r. r.0 < length target.new.table) }
    ensures keeps { Keeps target.old.table target.new.table }
    ensures decls { target.new.decls ≡ target.old.decls }
    ensures held { IsHeld target.new }
    ensures declared { declarations_of target.new ≡ declarations_of target.old }
{
    // As many terms as the table has can be counted.
    let _count = table.count();
    let source = Source {
        alloc,
        table,
        scope,
    };
    term_tree(source, target, id)
}

/// A constant at a type: its symbol at what the variables of its generic type have there.
pub fn constant(
    alloc: Global,
    target: &mut Module,
    table: &TypeTable,
    scope: &Scope,
    name: &Name,
    ty: TypeId,
) -> Result<LpId, Memory>
    requires held { IsHeld target.old }
    requires ty { ty.0 < length table.now }
    requires types { AreTypesKnown target.old.table scope.now.types }
    requires told { (symbols : SymbolMap) × TellsConstant (declarations_of target.old) symbols name.now (type.tree_at table.now ty.0) }
    ensures made { IfOk result (λ r. (symbols : SymbolMap) → TellsConstant (declarations_of target.old) symbols name.now (type.tree_at table.now ty.0)
        → Holds target.new.table r.0 (constant_tree symbols (told_types (types_in target.old.table scope.now.types)) name.now (type.tree_at table.now ty.0))) }
    ensures known { IfOk result (λ r. r.0 < length target.new.table) }
    ensures keeps { Keeps target.old.table target.new.table }
    ensures decls { target.new.decls ≡ target.old.decls }
    ensures held { IsHeld target.new }
    ensures declared { declarations_of target.new ≡ declarations_of target.old }
{
    let mut memo = TypeMemo::new(alloc);
    let source = TypeSource {
        alloc,
        table,
        scope: &scope.types,
    };
    let made = type_of(source, target, &mut memo, ty);
    drop(memo);
    let tree = made?;
    let mut text = Vec::new(alloc);
    let instance = constant_of(alloc, target, name, tree, &mut text);
    drop(text);
    instance
}

/// The type that a theorem of this closed sequent is declared at: the product over its type variables, its free variables and
/// its hypotheses, which ends in the proofs of its conclusion. It stands for the closed sequent.
pub fn closed_ty(alloc: Global, target: &mut Module, closed: &Closed) -> Result<LpId, Memory>
    requires held { IsHeld target.old }
    requires told { (symbols : SymbolMap) × (s : Sequent) × TellsClosed (declarations_of target.old) symbols s (closed_view closed.now) }
    ensures made { IfOk result (λ r. (symbols : SymbolMap) (s : Sequent) → TellsClosed (declarations_of target.old) symbols s (closed_view closed.now)
        → Holds target.new.table r.0 (sequent_tree symbols s)) }
    ensures encoded { IfOk result (λ r. (symbols : SymbolMap) (s : Sequent) → TellsClosed (declarations_of target.old) symbols s (closed_view closed.now)
        → SequentWithin s → AllByRecursion (TermMeant (declarations_of target.old) symbols) (terms_of s)
        → Enc (declarations_of target.old) (closed_view closed.now) (tree_at target.new.table r.0)) }
    ensures known { IfOk result (λ r. r.0 < length target.new.table) }
    ensures keeps { Keeps target.old.table target.new.table }
    ensures decls { target.new.decls ≡ target.old.decls }
    ensures held { IsHeld target.new }
    ensures declared { declarations_of target.new ≡ declarations_of target.old }
{
    closed_type(alloc, target, closed)
}

/// Some term of a type: the choice of one that is itself, `select A (x : term A => eq A x x)`.
pub fn filler(target: &mut Module, ty: LpId) -> Result<LpId, Memory>
    requires held { IsHeld target.old }
    requires ty { ty.0 < length target.old.table }
    ensures made { IfOk result (λ r. Holds target.new.table r.0 (filler_of (tree_at target.old.table ty.0))) }
    ensures known { IfOk result (λ r. r.0 < length target.new.table) }
    ensures keeps { Keeps target.old.table target.new.table }
    ensures decls { target.new.decls ≡ target.old.decls }
    ensures held { IsHeld target.new }
    ensures declared { declarations_of target.new ≡ declarations_of target.old }
{
    filling(&mut target.table, ty)
}
