//! The calls of the translation, each in a module that declares the input constant.
ghost use Rattle.std.specs.Prelude.{◌≡◌, ◌<◌, [], List, length, IfOk, OnOk};
ghost use Rattle.hol_spec.specs.Types.{HolType};
ghost use Rattle.holide_sig.specs.Modules.{declarations_of, IsHeld};
ghost use Rattle.lp_spec.specs.Trees.{Tree};
ghost use Rattle.lp_term.specs.Tables.{PartsBelow};
ghost use Rattle.translate_term.specs.Told.{AreTermsKnown, AreTypesKnown};
ghost use Rattle.translate_term_tests.specs.Inputs.{input_module};
ghost use Rattle.translate_term_tests.specs.Plain.{HasPlainTree, HasPlainType};

use crate::making::{named, predicate, relation, shared};
use crate::sequents::{Given, closed_of};
use common::{Fault, Memory};
use hol_term::{TermId, TermTable, Variable};
use hol_type::{TypeId, TypeTable};
use holide_sig::Module;
use lp_term::{LpId, LpNode};
use std::alloc::Global;
use translate_term::{Scope, closed_ty, constant, filler, tm, ty};

/// What is translated.
#[derive(Clone, Copy)]
pub(crate) enum Case {
    /// A closed sequent.
    Theorem(Given),
    /// The type a -> bool, where v0 stands for a.
    Type,
    /// The input constant u at this type.
    Constant,
    /// So many doublings of the truth value x by g, where v0 stands for g.
    Doubled(u32),
    /// Nothing: some truth value.
    Filler,
}

/// A tree of the module's table.
pub(crate) fn node(base: &mut Module, node: LpNode) -> Result<LpId, Memory>
    requires held { IsHeld base.old }
    requires parts { PartsBelow (length base.old.table) node }
    ensures known { IfOk result (λ id. id.0 < length base.new.table) }
    ensures held { IsHeld base.new }
    ensures declared { declarations_of base.new ≡ declarations_of base.old }
{
    base.table.node(node)
}

// Lets a tree stand for a.
fn set_type(scope: &mut Scope, alloc: Global, tree: LpId) -> Result<(), Memory>
    requires { scope.old.types ≡ [] }
    ensures types { OnOk result ((trees : List Tree) → tree.0 < length trees → AreTypesKnown trees scope.new.types) }
    ensures terms { scope.new.terms ≡ scope.old.terms }
{
    let name = named(alloc, b"a")?;
    scope.types.set(name, tree)
}

// Lets a tree stand for the variable g of a type.
fn set_term(scope: &mut Scope, alloc: Global, ty: TypeId, tree: LpId) -> Result<(), Memory>
    requires { scope.old.terms ≡ [] }
    ensures terms { OnOk result ((types : List HolType) (trees : List Tree) → ty.0 < length types → tree.0 < length trees
        → AreTermsKnown types trees scope.new.terms) }
    ensures types { scope.new.types ≡ scope.old.types }
{
    let name = named(alloc, b"g")?;
    scope.terms.set(Variable { name, ty }, tree)
}

// The scope in which a tree stands for a, and for the variable g of a type.
fn scope(alloc: Global, tree: LpId, ty: TypeId) -> Result<Scope, Memory>
    ensures types { IfOk result (λ scope. (trees : List Tree) → tree.0 < length trees → AreTypesKnown trees scope.types) }
    ensures terms { IfOk result (λ scope. (types : List HolType) (trees : List Tree) → ty.0 < length types → tree.0 < length trees
        → AreTermsKnown types trees scope.terms) }
{
    let mut scope = Scope::new(alloc);
    set_type(&mut scope, alloc, tree)?;
    set_term(&mut scope, alloc, ty, tree)?;
    Ok(scope)
}

// The type of the theorems of a closed sequent.
fn theorem_tree(base: &mut Module, alloc: Global, case: Given) -> Result<LpId, Memory>
    requires held { IsHeld base.old }
    requires declared { declarations_of base.old ≡ input_module }
    ensures held { IsHeld base.new }
    ensures known { IfOk result (λ r. r.0 < length base.new.table) }
{
    let closed = closed_of(alloc, case)?;
    closed_ty(alloc, base, &closed)
}

// The tree of a type, in which v0 stands for a.
fn type_tree(
    base: &mut Module,
    alloc: Global,
    types: &TypeTable,
    id: TypeId,
) -> Result<LpId, Memory>
    requires held { IsHeld base.old }
    requires id { HasPlainType types.now id.0 }
    ensures held { IsHeld base.new }
    ensures known { IfOk result (λ r. r.0 < length base.new.table) }
{
    let a = node(base, LpNode::Var(0))?;
    let scope = scope(alloc, a, id)?;
    let made = ty(alloc, base, types, &scope, id);
    drop(scope);
    made
}

// The tree of the input constant at a type, in a scope.
#[tactic(auto, using(crate::proofs::PlainLaws::input_told))]
fn constant_in(
    base: &mut Module,
    alloc: Global,
    types: &TypeTable,
    id: TypeId,
    scope: &Scope,
) -> Result<LpId, Memory>
    requires held { IsHeld base.old }
    requires declared { declarations_of base.old ≡ input_module }
    requires id { HasPlainType types.now id.0 }
    requires types { AreTypesKnown base.old.table scope.now.types }
    ensures held { IsHeld base.new }
    ensures known { IfOk result (λ r. r.0 < length base.new.table) }
{
    let name = named(alloc, b"u")?;
    constant(alloc, base, types, scope, &name, id)
}

// The same, in which v0 stands for a.
fn constant_tree(
    base: &mut Module,
    alloc: Global,
    types: &TypeTable,
    id: TypeId,
) -> Result<LpId, Memory>
    requires held { IsHeld base.old }
    requires declared { declarations_of base.old ≡ input_module }
    requires id { HasPlainType types.now id.0 }
    ensures held { IsHeld base.new }
    ensures known { IfOk result (λ r. r.0 < length base.new.table) }
{
    let a = node(base, LpNode::Var(0))?;
    let scope = scope(alloc, a, id)?;
    constant_in(base, alloc, types, id, &scope)
}

// The tree of a term, in which v0 stands for the variable g of a type.
fn term_tree(
    base: &mut Module,
    alloc: Global,
    table: &TermTable,
    ty: TypeId,
    id: TermId,
) -> Result<LpId, Memory>
    requires held { IsHeld base.old }
    requires ty { HasPlainType table.now.types ty.0 }
    requires id { HasPlainTree table.now id.0 }
    ensures held { IsHeld base.new }
    ensures known { IfOk result (λ r. r.0 < length base.new.table) }
{
    let g = node(base, LpNode::Var(0))?;
    let scope = scope(alloc, g, ty)?;
    let made = tm(alloc, base, table, &scope, id);
    drop(scope);
    made
}

// The tree of so many doublings.
fn doubled_tree(
    base: &mut Module,
    alloc: Global,
    table: &mut TermTable,
    times: u32,
) -> Result<LpId, Fault>
    requires { IsHeld base.old }
    ensures held { IsHeld base.new }
    ensures known { IfOk result (λ r. r.0 < length base.new.table) }
{
    let ty = relation(table, alloc)?;
    let id = shared(table, alloc, ty, times)?;
    let made = term_tree(base, alloc, table, ty, id)?;
    Ok(made)
}

// Some truth value.
fn filler_tree(base: &mut Module) -> Result<LpId, Memory>
    requires { IsHeld base.old }
    ensures held { IsHeld base.new }
    ensures known { IfOk result (λ r. r.0 < length base.new.table) }
{
    let truth = node(base, LpNode::Sym(1))?;
    filler(base, truth)
}

// The tree of a case, whose types and terms are made in a table.
fn made_of(
    base: &mut Module,
    alloc: Global,
    table: &mut TermTable,
    case: Case,
) -> Result<LpId, Fault>
    requires held { IsHeld base.old }
    requires declared { declarations_of base.old ≡ input_module }
    ensures held { IsHeld base.new }
    ensures known { IfOk result (λ r. r.0 < length base.new.table) }
{
    let id = predicate(table, alloc)?;
    let made = match case {
        Case::Theorem(case) => theorem_tree(base, alloc, case)?,
        Case::Type => type_tree(base, alloc, table.types(), id)?,
        Case::Constant => constant_tree(base, alloc, table.types(), id)?,
        Case::Doubled(times) => return doubled_tree(base, alloc, table, times),
        Case::Filler => filler_tree(base)?,
    };
    Ok(made)
}

/// The tree of a case.
pub(crate) fn made(base: &mut Module, alloc: Global, case: Case) -> Result<LpId, Fault>
    requires held { IsHeld base.old }
    requires declared { declarations_of base.old ≡ input_module }
    ensures held { IsHeld base.new }
    ensures known { IfOk result (λ r. r.0 < length base.new.table) }
{
    let mut table = TermTable::new(alloc);
    made_of(base, alloc, &mut table, case)
}
