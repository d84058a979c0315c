//! One type and one term has one number, however it is made.
use crate::bench::{Bench, Step};
use crate::samples::*;
use crate::trials::{Trial, comes_out};
use common::Fault;
use std::alloc::Global;
use std::process::Abort;
use std::test::Fail;

/// What a case makes, and the same made otherwise.
type Same<'a> = (&'a [&'a [Step]], &'a [&'a [Step]]);

/// Whether a type is the same made otherwise.
pub(crate) fn is_same_type(
    bench: &mut Bench,
    made: &[&[Step]],
    wanted: &[&[Step]],
) -> Result<bool, Fault> {
    let wanted = bench.make_type(wanted)?;
    Ok(bench.make_type(made)? == wanted)
}

/// Whether a tree is the same made otherwise.
pub(crate) fn is_same(
    bench: &mut Bench,
    made: &[&[Step]],
    wanted: &[&[Step]],
) -> Result<bool, Fault> {
    let wanted = bench.make(wanted)?;
    Ok(bench.make(made)? == wanted)
}

#[test]
fn types_have_one_number(rt: HostRuntime) -> Result<(), Fail> {
    let cases: [Same; 2] = [
        (&[BOOL, ENDO, PUT_TYPE], &[PREDICATE]),
        (&[BOOL, BOOL, PUT_TYPE], &[BOOL]),
    ];
    for (index, (made, wanted)) in cases.iter().enumerate() {
        let trial = Trial::SameType(made, wanted);
        assert!(rt; comes_out(rt.alloc(), trial)?, "case {index}");
    }
    Ok(())
}

// That in each case the same is made twice.
fn assert_same(rt: &impl Abort, alloc: Global, cases: &[Same]) {
    for (index, (made, wanted)) in cases.iter().enumerate() {
        let right = comes_out(alloc, Trial::Same(made, wanted));
        assert_eq!(rt; right, Ok(true), "case {index}");
    }
}

#[test]
fn binders_put_without_capture(rt: HostRuntime) {
    assert_same(
        &rt,
        rt.alloc(),
        &[
            // y for x in \x. \y. k x y is \z. k y z.
            (
                &[K, X, APP, Y, APP, OVER_Y, OVER_X, Y, INST],
                &[K, Y, APP, Z, APP, OVER_Z],
            ),
            // x of another type stays.
            (&[UNARY_X, X, APP, OVER_X, Y, INST], &[UNARY_X, Y, APP]),
            (&[LARGE, OVER_P, P, INST], &[LARGE]),
        ],
    );
}

#[test]
fn loose_numbers_are_raised_and_put(rt: HostRuntime) {
    assert_same(
        &rt,
        rt.alloc(),
        &[
            (
                &[
                    X, Y, K, X, APP, Y, APP, OVER_Y, OVER_X, BODY, BODY, PUT_BOTH,
                ],
                &[K, X, APP, Y, APP],
            ),
            (
                &[X, K, X, APP, Y, APP, OVER_Y, OVER_X, BODY, PUT],
                &[K, X, APP, Y, APP, OVER_Y],
            ),
            (&[K, X, APP, Y, APP, RAISE_BY_SEVEN], &[K, X, APP, Y, APP]),
            // What was raised has no number for y.
            (
                &[Y, K, X, APP, Y, APP, OVER_Y, OVER_X, BODY, BODY, RAISE, PUT],
                &[K, X, APP, Y, APP, OVER_Y, OVER_X, BODY, BODY],
            ),
        ],
    );
}

#[test]
fn substitution_is_all_at_once(rt: HostRuntime) {
    assert_same(
        &rt,
        rt.alloc(),
        &[
            (
                &[IND, X, Y, Y, X, K, X, APP, Y, APP, SUBST],
                &[K, Y, APP, X, APP],
            ),
            // The first pair counts.
            (
                &[IND, X, Y, X, X, K, X, APP, Y, APP, SUBST],
                &[K, Y, APP, Y, APP],
            ),
            // y for x in \y. x is \z. y.
            (&[IND, X, Y, X, Y, X, OVER_Y, SUBST], &[Y, OVER_Z]),
        ],
    );
}

#[test]
fn of_many_pairs_the_first_of_a_variable_counts(rt: HostRuntime) {
    assert_same(
        &rt,
        rt.alloc(),
        &[
            (
                &[X, Y, X, Z, K, X, APP, Y, APP, PUT_TEN],
                &[K, Y, APP, Y, APP],
            ),
            // x of another type is another variable.
            (
                &[UNARY_X, K, Y, APP, X, Z, UNARY_X, X, APP, PUT_TEN],
                &[K, Y, APP, Z, APP],
            ),
            (
                &[X, Y, Y, Z, K, LETTER_A, APP, X, APP, PUT_TEN],
                &[K, Z, APP, Y, APP],
            ),
        ],
    );
}

#[test]
fn what_came_after_a_term_is_not_in_it(rt: HostRuntime) {
    assert_same(
        &rt,
        rt.alloc(),
        &[
            (&[X, OVER_EIGHT, BODY], &[X]),
            (
                &[EIGHT, Y, Z, Y, K, X, APP, X, APP, PUT_TWO],
                &[K, X, APP, X, APP],
            ),
            // What came before it may be.
            (
                &[EIGHT, Y, X, Z, K, X, APP, EIGHT, APP, PUT_TWO],
                &[K, Z, APP, Y, APP],
            ),
        ],
    );
}

#[test]
fn substitution_puts_types_first(rt: HostRuntime) {
    assert_same(
        &rt,
        rt.alloc(),
        &[
            // x : bool after the types.
            (&[BOOL, A_X, A_U, BOOL_X, TRUE, A_X, SUBST], &[TRUE]),
            // x : A is there no more.
            (&[BOOL, A_X, A_U, A_X, A_U, A_X, SUBST], &[BOOL_X]),
            // The type of the binder.
            (
                &[BOOL, BOOL_X, TRUE, BOOL_X, TRUE, A_U, OVER_A_Y, SUBST],
                &[BOOL_U, OVER_BOOL_Y],
            ),
        ],
    );
}

#[test]
fn an_equation_has_one_number(rt: HostRuntime) {
    assert_same(&rt, rt.alloc(), &[(&[P, Q, EQUALS], &[P, Q, EQUALS])]);
}
