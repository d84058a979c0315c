//! Closed sequents, whose symbols the module of the tests tells.
ghost use Rattle.std.specs.Prelude.{◌≡◌, ◌∷◌, ◌++◌, ◌<◌, ◌^◌, [], List, codes, map, replicate, IfOk, OnOk};
ghost use Rattle.hol_spec.specs.ClosedForm.{ClosedTerm as AClosedTerm, app, constant, lam, parameter};
ghost use Rattle.sequent.specs.declared.closed.TypeNode.{TypeNode as ATypeNode};
ghost use Rattle.sequent.specs.Closed.{closed_term_view, closed_type_view, closed_view, term_step};
ghost use Rattle.translate_term_tests.specs.Sequents.{IsToldClosed, assumed, closed_bool, closed_function, parameters as first_parameters};

use crate::making::named;
use common::Memory;
use sequent::{Closed, ClosedTerm, ClosedType, TermNode, TypeNode};
use std::alloc::Global;

// Adds the node of an operator with so many arguments.
fn add_operator(
    alloc: Global,
    nodes: &mut Vec<TypeNode>,
    name: &[u8],
    arguments: usize,
) -> Result<(), Memory>
    ensures { OnOk result (nodes.new.items ≡ nodes.old.items ++ ATypeNode.Operator (name.now ∷ []) arguments ∷ []) }
{
    let name = named(alloc, name)?;
    nodes.push(TypeNode::Operator(name, arguments))?;
    Ok(())
}

// `bool`
fn truth(alloc: Global) -> Result<ClosedType, Memory>
    ensures { IfOk result (λ made. closed_type_view made ≡ closed_bool) }
{
    let mut nodes = Vec::new(alloc);
    add_operator(alloc, &mut nodes, b"bool", 0)?;
    Ok(ClosedType { nodes })
}

// The types of so many truth values.
fn truths(alloc: Global, count: usize) -> Result<Vec<ClosedType>, Memory>
    ensures { IfOk result (λ types. map closed_type_view types.items ≡ replicate count closed_bool) }
{
    let mut types = Vec::new(alloc);
    for place in 0..count {
        types.push(truth(alloc)?)?;
    }
    Ok(types)
}

// A free variable.
fn parameter_of(alloc: Global, place: usize) -> Result<ClosedTerm, Memory>
    ensures { IfOk result (λ made. closed_term_view made ≡ parameter place) }
{
    let mut nodes = Vec::new(alloc);
    nodes.push(TermNode::Parameter(place))?;
    Ok(ClosedTerm { nodes })
}

// So many free variables.
fn parameters(alloc: Global, count: usize) -> Result<Vec<ClosedTerm>, Memory>
    ensures { IfOk result (λ terms. map closed_term_view terms.items ≡ first_parameters count) }
{
    let mut terms = Vec::new(alloc);
    for place in 0..count {
        terms.push(parameter_of(alloc, place)?)?;
    }
    Ok(terms)
}

// So many truth values, from which one more follows.
fn assuming(alloc: Global, count: usize) -> Result<Closed, Memory>
    requires { count < 2 ^ 32 }
    ensures { IfOk result (λ closed. closed_view closed ≡ assumed count) }
{
    let free_vars = truths(alloc, count + 1)?;
    let hyps = parameters(alloc, count)?;
    let concl = parameter_of(alloc, count)?;
    Ok(Closed {
        type_vars: 0,
        free_vars,
        hyps,
        concl,
    })
}

// {x0} |- x1
#[tactic(auto, using(crate::proofs::SequentLaws::one_assumed))]
fn one_assumed(alloc: Global) -> Result<Closed, Memory>
    ensures { IfOk result (λ closed. IsToldClosed (closed_view closed)) }
{
    assuming(alloc, 1)
}

// {x0, x1} |- x2
#[tactic(auto, using(crate::proofs::SequentLaws::two_assumed))]
fn two_assumed(alloc: Global) -> Result<Closed, Memory>
    ensures { IfOk result (λ closed. IsToldClosed (closed_view closed)) }
{
    assuming(alloc, 2)
}

// (bool -> bool) -> bool
fn quantifier_type(alloc: Global) -> Result<ClosedType, Memory>
    ensures { IfOk result (λ made. closed_type_view made ≡ closed_function (closed_function closed_bool closed_bool) closed_bool) }
{
    let mut nodes = Vec::new(alloc);
    add_operator(alloc, &mut nodes, b"->", 2)?;
    add_operator(alloc, &mut nodes, b"->", 2)?;
    add_operator(alloc, &mut nodes, b"bool", 0)?;
    add_operator(alloc, &mut nodes, b"bool", 0)?;
    add_operator(alloc, &mut nodes, b"bool", 0)?;
    Ok(ClosedType { nodes })
}

// u, of predicates of truth values.
fn quantifier(alloc: Global) -> Result<TermNode, Memory>
    ensures { IfOk result (λ node. (ts : List AClosedTerm)
        → term_step node ts ≡ constant (codes "u" ∷ []) (closed_function (closed_function closed_bool closed_bool) closed_bool) ∷ ts) }
{
    let ty = quantifier_type(alloc)?;
    let name = named(alloc, b"u")?;
    Ok(TermNode::Constant(name, ty))
}

// The abstraction over another truth value.
fn binder(alloc: Global) -> Result<TermNode, Memory>
    ensures { IfOk result (λ node. (t : AClosedTerm) (ts : List AClosedTerm) → term_step node (t ∷ ts) ≡ lam closed_bool t ∷ ts) }
{
    Ok(TermNode::Lam(truth(alloc)?))
}

// u (\y. x0)
fn application(alloc: Global) -> Result<ClosedTerm, Memory>
    ensures { IfOk result (λ made. closed_term_view made ≡ app
        (constant (codes "u" ∷ []) (closed_function (closed_function closed_bool closed_bool) closed_bool)) (lam closed_bool (parameter 0))) }
{
    let mut nodes = Vec::new(alloc);
    nodes.push(TermNode::App)?;
    nodes.push(quantifier(alloc)?)?;
    nodes.push(binder(alloc)?)?;
    nodes.push(TermNode::Parameter(0))?;
    Ok(ClosedTerm { nodes })
}

// |- u (\y. x0)
#[tactic(auto, using(crate::proofs::SequentLaws::quantified_is))]
fn quantified(alloc: Global) -> Result<Closed, Memory>
    ensures { IfOk result (λ closed. IsToldClosed (closed_view closed)) }
{
    let concl = application(alloc)?;
    Ok(Closed {
        type_vars: 0,
        free_vars: truths(alloc, 1)?,
        hyps: Vec::new(alloc),
        concl,
    })
}

/// A closed sequent.
#[derive(Clone, Copy)]
pub(crate) enum Given {
    /// {x0} |- x1
    One,
    /// {x0, x1} |- x2
    Two,
    /// |- u (\y. x0)
    Quantified,
}

/// The closed sequent.
pub(crate) fn closed_of(alloc: Global, given: Given) -> Result<Closed, Memory>
    ensures { IfOk result (λ closed. IsToldClosed (closed_view closed)) }
{
    match given {
        Given::One => one_assumed(alloc),
        Given::Two => two_assumed(alloc),
        Given::Quantified => quantified(alloc),
    }
}
