//! The closed form of a sequent.
ghost use Rattle.std.specs.Prelude.{◌≡◌, ◌<◌, ◌∷◌, ◌++◌, length, map, IfOk, OnOk};
ghost use Rattle.std.specs.List.{position_or_len};
ghost use Rattle.hol_spec.specs.ClosedForm.{ClosedTerm as AClosedTerm, ClosedType as AClosedType, close_type as closed_type, close_term as closed_term};
ghost use Rattle.hol_spec.specs.NameEquality.{name_eq};
ghost use Rattle.hol_type.specs.Tables as type;
ghost use Rattle.hol_term.specs.Subterms.{HaveTypes, variables_of};
ghost use Rattle.hol_term.specs.Tables.{term_at, terms_at, AreKnown};
ghost use Rattle.sequent.specs.Closed.{closed_type_view, closed_term_view};
ghost use Rattle.sequent.specs.Params.{is_variable};
ghost use Rattle.sequent.specs.Closing.{IsTypeWalk, IsWalk, type_work, work};

use crate::Params;
use common::{Memory, Stack};
use hol_name::Name;
use hol_term::{TermId, TermTable, TermView, Variable};
use hol_type::{TypeId, TypeTable, TypeView};
use std::alloc::Global;

/// A node of a type whose variables are numbers.
#[derive(Drop)]
pub enum TypeNode {
    /// A type variable: its place among the sequent's.
    Parameter(usize),
    /// An operator with so many arguments.
    Operator(Name, usize),
}

/// A type whose variables are numbers, as the list of its nodes: an operator stands before its arguments, and these
/// stand in order.
#[derive(Drop)]
pub struct ClosedType {
    pub nodes: Vec<TypeNode>,
}

/// A node of a term whose type variables and free variables are numbers.
#[derive(Drop)]
pub enum TermNode {
    /// A free variable: its place among the sequent's.
    Parameter(usize),
    /// A variable that a binder binds: the number of binders between it and its own.
    Bound(u128),
    /// A constant.
    Constant(Name, ClosedType),
    /// The application of a function to its argument.
    App,
    /// An abstraction over a variable of this type.
    Lam(ClosedType),
}

/// A term whose type variables and free variables are numbers, as the list of its nodes: an application stands before
/// its function, which stands before its argument, and an abstraction stands before its body.
#[derive(Drop)]
pub struct ClosedTerm {
    pub nodes: Vec<TermNode>,
}

/// The closed form of a sequent: its type variables, free variables and hypotheses are parameters, numbered in order of
/// first occurrence in the hypotheses and then in the conclusion. It needs no table (Assaf and Burel, "Translating HOL
/// to Dedukti"). Its types and terms are lists of nodes, so that letting go of deep ones takes no deep stack.
#[derive(Drop)]
pub struct Closed {
    /// How many type variables there are.
    pub type_vars: usize,
    /// The types of the free variables.
    pub free_vars: Vec<ClosedType>,
    /// The hypotheses.
    pub hyps: Vec<ClosedTerm>,
    /// The conclusion.
    pub concl: ClosedTerm,
}

// The types of free variables.
pub(crate) fn close_variables(
    alloc: Global,
    params: &Params,
    table: &TermTable,
) -> Result<Vec<ClosedType>, Memory>
    requires { HaveTypes table.now params.now.free_vars }
    ensures { IfOk result (λ closed. map closed_type_view closed.items ≡ map (λ v. closed_type params.now.type_vars v.1)
        (variables_of table.now params.now.free_vars)) }
{
    let names = params.type_vars.names();
    let mut closed = Vec::new(alloc);
    for variable in params.free_vars.variables() {
        closed.push(close_type(alloc, names, table.types(), variable.ty)?)?;
    }
    Ok(closed)
}

// Terms over parameters.
pub(crate) fn close_terms(
    alloc: Global,
    params: &Params,
    table: &TermTable,
    ids: &[TermId],
) -> Result<Vec<ClosedTerm>, Memory>
    requires ids { AreKnown table.now ids.now }
    requires types { HaveTypes table.now params.now.free_vars }
    requires distinct { type.IsDistinct table.now.types }
    ensures { IfOk result (λ closed. map closed_term_view closed.items ≡ map (closed_term params.now.type_vars (variables_of table.now params.now.free_vars))
        (terms_at table.now ids.now)) }
{
    let mut closed = Vec::new(alloc);
    for id in ids {
        closed.push(close_term(alloc, params, table, *id)?)?;
    }
    Ok(closed)
}

// A term over parameters.
pub(crate) fn close_term(
    alloc: Global,
    params: &Params,
    table: &TermTable,
    id: TermId,
) -> Result<ClosedTerm, Memory>
    requires id { id.0 < length table.now.terms }
    requires types { HaveTypes table.now params.now.free_vars }
    requires distinct { type.IsDistinct table.now.types }
    ensures { IfOk result (λ closed. closed_term_view closed ≡ closed_term params.now.type_vars (variables_of table.now params.now.free_vars)
        (term_at table.now id.0)) }
{
    let mut tasks = Stack::new(alloc);
    let mut nodes = Vec::new(alloc);
    tasks.push(id)?;
    while let Some(next) = tasks.pop() {
        visit(alloc, params, table, next, &mut tasks, &mut nodes)?;
    }
    Ok(ClosedTerm { nodes })
}

// Adds the node of a term, and sets out to visit its parts.
fn visit(
    alloc: Global,
    params: &Params,
    table: &TermTable,
    id: TermId,
    tasks: &mut Stack<TermId>,
    nodes: &mut Vec<TermNode>,
) -> Result<(), Memory>
    requires id { id.0 < length table.now.terms }
    requires types { HaveTypes table.now params.now.free_vars }
    requires distinct { type.IsDistinct table.now.types }
    ensures walk { OnOk result ((root : AClosedTerm)
        → IsWalk table.now params.now.type_vars (variables_of table.now params.now.free_vars) root (id ∷ tasks.old) nodes.old.items
        → IsWalk table.now params.now.type_vars (variables_of table.now params.now.free_vars) root tasks.new nodes.new.items) }
    ensures less { OnOk result (work table.now tasks.new < work table.now (id ∷ tasks.old)) }
{
    match table.view(id) {
        TermView::Free(name, ty) => {
            let place = place_of_variable(name, ty, params.free_vars.variables());
            nodes.push(TermNode::Parameter(place))?;
        }
        TermView::Bound(n) => nodes.push(TermNode::Bound(n))?,
        TermView::Const(name, ty) => {
            let name = name.clone()?;
            let ty = close_type(alloc, params.type_vars.names(), table.types(), ty)?;
            nodes.push(TermNode::Constant(name, ty))?;
        }
        TermView::App(f, x) => {
            nodes.push(TermNode::App)?;
            tasks.push(x)?;
            tasks.push(f)?;
        }
        TermView::Lam(ty, body) => {
            let ty = close_type(alloc, params.type_vars.names(), table.types(), ty)?;
            nodes.push(TermNode::Lam(ty))?;
            tasks.push(body)?;
        }
    }
    Ok(())
}

// A type over a list of type variables.
fn close_type(
    alloc: Global,
    names: &[Name],
    types: &TypeTable,
    id: TypeId,
) -> Result<ClosedType, Memory>
    requires { id.0 < length types.now }
    ensures { IfOk result (λ closed. closed_type_view closed ≡ closed_type names.now (type.tree_at types.now id.0)) }
{
    let mut tasks = Stack::new(alloc);
    let mut nodes = Vec::new(alloc);
    tasks.push(id)?;
    while let Some(next) = tasks.pop() {
        visit_type(names, types, next, &mut tasks, &mut nodes)?;
    }
    Ok(ClosedType { nodes })
}

// Adds the node of a type, and sets out to visit its arguments.
fn visit_type(
    names: &[Name],
    types: &TypeTable,
    id: TypeId,
    tasks: &mut Stack<TypeId>,
    nodes: &mut Vec<TypeNode>,
) -> Result<(), Memory>
    requires { id.0 < length types.now }
    ensures walk { OnOk result ((root : AClosedType) → IsTypeWalk types.now names.now root (id ∷ tasks.old) nodes.old.items
        → IsTypeWalk types.now names.now root tasks.new nodes.new.items) }
    ensures less { OnOk result (type_work types.now tasks.new < type_work types.now (id ∷ tasks.old)) }
{
    match types.view(id) {
        TypeView::Var(name) => {
            nodes.push(TypeNode::Parameter(place_of_name(name, names)))?;
            Ok(())
        }
        TypeView::Op(name, args) => {
            let name = name.clone()?;
            nodes.push(TypeNode::Operator(name, args.len()))?;
            set_out(args, tasks)
        }
    }
}

// Sets out to visit some types, the first of them next.
fn set_out(args: &[TypeId], tasks: &mut Stack<TypeId>) -> Result<(), Memory>
    ensures { OnOk result (tasks.new ≡ args.now ++ tasks.old) }
{
    let mut rest = args;
    while let [front @ .., last] = rest {
        tasks.push(*last)?;
        rest = front;
    }
    Ok(())
}

// Where a name stands first, or how many there are where it stands nowhere.
fn place_of_name(name: &Name, names: &[Name]) -> usize
    ensures { result ≡ position_or_len (name_eq name.now) names.now }
{
    for (place, other) in names.iter().enumerate() {
        if name == other {
            return place;
        }
    }
    names.len()
}

// Where a variable stands first, or how many there are where it stands nowhere.
fn place_of_variable(name: &Name, ty: TypeId, variables: &[Variable]) -> usize
    ensures { result ≡ position_or_len (is_variable name.now ty) variables.now }
{
    for (place, variable) in variables.iter().enumerate() {
        if name == &variable.name && ty == variable.ty {
            return place;
        }
    }
    variables.len()
}
