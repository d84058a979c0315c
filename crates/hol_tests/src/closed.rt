//! The closed form of a sequent, with numbers for its parameters.
ghost use Rattle.sequent.specs.Sequents.{IsKnown};

use crate::sequent_trials::{Trial, comes_out};
use common::Memory;
use hol_term::TermTable;
use sequent::{Closed, ClosedTerm, ClosedType, Sequent, TermNode, TypeNode};
use std::alloc::Global;
use std::test::Fail;

fn is_variable(node: &TypeNode, number: usize) -> bool {
    match node {
        TypeNode::Parameter(place) => *place == number,
        TypeNode::Operator(..) => false,
    }
}

fn is_operator(node: &TypeNode, wanted: &[u8], arguments: usize) -> bool {
    match node {
        TypeNode::Operator(name, count) => name.is_single(wanted) && *count == arguments,
        TypeNode::Parameter(_) => false,
    }
}

fn is_type_parameter(ty: &ClosedType, number: usize) -> bool {
    match ty.nodes.as_slice() {
        [node] => is_variable(node, number),
        _ => false,
    }
}

// Whether the types are these type variables.
fn are_type_parameters(types: &[ClosedType], wanted: &[usize]) -> bool {
    types.len() == wanted.len()
        && types
            .iter()
            .zip(wanted)
            .all(|(ty, number)| is_type_parameter(ty, *number))
}

// Whether a type is that of the relations over a type variable.
fn is_relation(ty: &ClosedType, number: usize) -> bool {
    match ty.nodes.as_slice() {
        [relation, first, predicate, second, truth] => {
            is_operator(relation, b"->", 2)
                && is_variable(first, number)
                && is_operator(predicate, b"->", 2)
                && is_variable(second, number)
                && is_operator(truth, b"bool", 0)
        }
        _ => false,
    }
}

fn is_application(node: &TermNode) -> bool {
    match node {
        TermNode::App => true,
        TermNode::Parameter(_) | TermNode::Bound(_) | TermNode::Constant(..) | TermNode::Lam(_) =>
            false,
    }
}

fn is_parameter(node: &TermNode, number: usize) -> bool {
    match node {
        TermNode::Parameter(place) => *place == number,
        TermNode::Bound(_) | TermNode::Constant(..) | TermNode::App | TermNode::Lam(_) => false,
    }
}

fn is_equality(node: &TermNode, number: usize) -> bool {
    match node {
        TermNode::Constant(name, ty) => name.is_single(b"=") && is_relation(ty, number),
        TermNode::Parameter(_) | TermNode::Bound(_) | TermNode::App | TermNode::Lam(_) => false,
    }
}

// Whether a term is the equation of two variables over a type variable, all by number.
fn is_equation(term: &ClosedTerm, (ty, l, r): (usize, usize, usize)) -> bool {
    match term.nodes.as_slice() {
        [equation, half, equality, left, right] => {
            is_application(equation)
                && is_application(half)
                && is_equality(equality, ty)
                && is_parameter(left, l)
                && is_parameter(right, r)
        }
        _ => false,
    }
}

// Whether the terms are these equations.
fn are_equations(terms: &[ClosedTerm], wanted: &[(usize, usize, usize)]) -> bool {
    terms.len() == wanted.len()
        && terms
            .iter()
            .zip(wanted)
            .all(|(term, numbers)| is_equation(term, *numbers))
}

// Whether the closed form is that of the sample.
fn is_the_sample(closed: &Closed) -> bool {
    closed.type_vars == 2
        && are_type_parameters(&closed.free_vars, &[0, 0, 1, 1, 1])
        && are_equations(&closed.hyps, &[(0, 0, 1), (1, 2, 3)])
        && is_equation(&closed.concl, (1, 3, 4))
}

/// Whether the closed form of the sample has the right numbers.
pub(crate) fn closes(sequent: &Sequent, table: &TermTable, alloc: Global) -> Result<bool, Memory>
    requires { IsKnown table.now sequent.now }
{
    let closed = sequent.closed(alloc, table)?;
    let right = is_the_sample(&closed);
    drop(closed);
    Ok(right)
}

#[test]
fn closes_by_number(rt: HostRuntime) -> Result<(), Fail> {
    assert!(rt; comes_out(rt.alloc(), Trial::Closed)?);
    Ok(())
}
