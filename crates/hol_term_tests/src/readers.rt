//! What the table tells of a type and of a term.
use crate::bench::{Bench, Step};
use crate::samples::*;
use crate::trials::{Trial, comes_out};
use common::Fault;
use std::test::Fail;

/// Whether a type may become another, or may not, as is wanted.
pub(crate) fn is_instance(
    bench: &mut Bench,
    general: &[&[Step]],
    instance: &[&[Step]],
    wanted: bool,
) -> Result<bool, Fault> {
    Ok(bench.is_instance(general, instance)? == wanted)
}

#[test]
fn types_match_their_instances(rt: HostRuntime) -> Result<(), Fail> {
    let cases: [(&[&[Step]], &[&[Step]], bool); 2] = [
        (&[ENDO], &[PREDICATE], true),
        (&[PREDICATE], &[ENDO], false),
    ];
    for (index, (general, instance, wanted)) in cases.iter().enumerate() {
        let trial = Trial::Instance(general, instance, *wanted);
        assert!(rt; comes_out(rt.alloc(), trial)?, "case {index}");
    }
    Ok(())
}

/// Whether the term that the steps make has the type that others make.
pub(crate) fn has_type(bench: &mut Bench, term: &[&[Step]], ty: &[&[Step]]) -> Result<bool, Fault> {
    let wanted = bench.make_type(ty)?;
    Ok(bench.type_of(term)? == wanted)
}

#[test]
fn terms_have_types(rt: HostRuntime) -> Result<(), Fail> {
    let cases: [(&[&[Step]], &[&[Step]]); 6] = [
        (&[K, X, APP, Y, APP, OVER_Y], &[UNARY]),
        (&[K, X, APP, Y, APP, OVER_Y, OVER_X], &[BINARY]),
        (&[P, Q, EQUALS], &[BOOL]),
        (&[LARGE, OVER_P], &[PREDICATE]),
        (&[DEEP_BODY, OVER_P], &[PREDICATE]),
        // Each part is typed by the binders round it: \x. p (\y. k x y) (\b. m x b).
        (
            &[
                PAIRING,
                K,
                X,
                APP,
                Y,
                APP,
                OVER_Y,
                APP,
                M,
                X,
                APP,
                TRUTH_VALUE,
                APP,
                OVER_TRUTH_VALUE,
                APP,
                OVER_X,
            ],
            &[UNARY],
        ),
    ];
    for (index, (term, ty)) in cases.iter().enumerate() {
        let trial = Trial::Type(term, ty);
        assert!(rt; comes_out(rt.alloc(), trial)?, "case {index}");
    }
    Ok(())
}

/// Whether the tree that the steps make has this size and this depth.
pub(crate) fn has_measures(
    bench: &mut Bench,
    term: &[&[Step]],
    wanted: (u64, u64),
) -> Result<bool, Fault> {
    Ok(bench.measures(term)? == wanted)
}

#[test]
fn terms_have_a_size_and_a_depth(rt: HostRuntime) -> Result<(), Fail> {
    let cases: [(&[&[Step]], (u64, u64)); 5] = [
        (&[P], (2, 2)),
        (&[P, Q, EQUALS], (12, 8)),
        (&[DEEP], (81_902, 16_384)),
        (&[LARGE], (655_352, 38)),
        (&[LARGE_DEEP], (737_082, 16_384)),
    ];
    for (index, (term, wanted)) in cases.iter().enumerate() {
        let trial = Trial::Measures(term, *wanted);
        assert!(rt; comes_out(rt.alloc(), trial)?, "case {index}");
    }
    Ok(())
}

/// Whether an equation has its sides, and a variable none.
pub(crate) fn has_sides(bench: &mut Bench) -> Result<bool, Fault> {
    let p = bench.make(&[P])?;
    let q = bench.make(&[Q])?;
    let sides = bench.sides(&[P, Q, EQUALS])?;
    let none = bench.sides(&[P])?;
    Ok(sides == Some((p, q)) && none.is_none())
}

#[test]
fn equations_have_sides(rt: HostRuntime) -> Result<(), Fail> {
    assert!(rt; comes_out(rt.alloc(), Trial::Sides)?);
    Ok(())
}

/// Whether the steps make an abstraction applied to an argument, or do not, as is wanted.
pub(crate) fn is_redex(bench: &mut Bench, term: &[&[Step]], wanted: bool) -> Result<bool, Fault> {
    Ok(bench.is_redex(term)? == wanted)
}

#[test]
fn redexes_are_told(rt: HostRuntime) -> Result<(), Fail> {
    let cases: [(&[&[Step]], bool); 2] = [
        (&[UNARY_X, X, APP, OVER_X, Y, APP], true),
        (&[UNARY_X, Y, APP], false),
    ];
    for (index, (term, wanted)) in cases.iter().enumerate() {
        let trial = Trial::Redex(term, *wanted);
        assert!(rt; comes_out(rt.alloc(), trial)?, "case {index}");
    }
    Ok(())
}

#[test]
fn free_variables_come_in_order(rt: HostRuntime) -> Result<(), Fail> {
    let cases: [(&[&[Step]], &[&[Step]]); 3] = [
        // \y. f x x
        (&[A_F, A_X, APP, A_X, APP, OVER_B_Y], &[A_F, A_X]),
        // \x. f x x has no bound variable free.
        (&[A_F, A_X, APP, A_X, APP, OVER_A_X], &[A_F]),
        (&[K], &[]),
    ];
    for (index, (term, wanted)) in cases.iter().enumerate() {
        let trial = Trial::Variables(term, wanted);
        assert!(rt; comes_out(rt.alloc(), trial)?, "case {index}");
    }
    Ok(())
}

#[test]
fn type_variables_come_in_order(rt: HostRuntime) -> Result<(), Fail> {
    let cases: [(&[&[Step]], &[u8]); 3] = [
        // The type of y comes before its body.
        (&[A_F, A_X, APP, A_X, APP, OVER_B_Y], b"BAC"),
        (&[A_F, A_X, APP, A_X, APP, OVER_A_X], b"AC"),
        (&[K], b""),
    ];
    for (index, (term, wanted)) in cases.iter().enumerate() {
        let trial = Trial::TypeVariables(term, wanted);
        assert!(rt; comes_out(rt.alloc(), trial)?, "case {index}");
    }
    Ok(())
}
