//! What is refused, is refused for the reason that is named, and takes no number.
use crate::bench::{Bench, Step};
use crate::samples::*;
use crate::trials::{Trial, comes_out};
use common::{Fault, Kind};
use std::alloc::Global;
use std::process::Abort;
use std::test::Fail;

/// What is made first, the step that is refused, and why.
type Refusal<'a> = (&'a [&'a [Step]], &'a [Step], Kind);

/// Whether the last step is refused so, and leaves as many types and trees.
pub(crate) fn is_refused(
    bench: &mut Bench,
    given: &[&[Step]],
    last: &[Step],
    kind: Kind,
) -> Result<bool, Fault> {
    bench.set_out(given)?;
    let counts = bench.counts();
    let refused = bench.obey(last) == Err(Fault::Refused(kind));
    Ok(refused && bench.counts() == counts)
}

// That in each case the last step is refused so, and leaves as many types and trees.
fn assert_refused(rt: &impl Abort, alloc: Global, cases: &[Refusal]) -> Result<(), Fail> {
    for (index, (given, last, kind)) in cases.iter().enumerate() {
        let trial = Trial::Refused(given, last, *kind);
        assert!(rt; comes_out(alloc, trial)?, "case {index}");
    }
    Ok(())
}

#[test]
fn terms_that_do_not_fit_are_refused(rt: HostRuntime) -> Result<(), Fail> {
    assert_refused(
        &rt,
        rt.alloc(),
        &[
            (&[K, X], EQUALS, Kind::TypeMismatch),
            (&[X, Y], APP, Kind::TypeMismatch),
            // A pair that does not count is judged.
            (&[IND, X, Y, X, K, Y], SUBST, Kind::BadSubst),
        ],
    )
}

#[test]
fn large_and_deep_types_are_refused(rt: HostRuntime) -> Result<(), Fail> {
    assert_refused(
        &rt,
        rt.alloc(),
        &[
            (&[LARGEST_TYPE], LIST, Kind::TooLarge),
            (&[DEEPEST_TYPE], LIST, Kind::TooDeep),
            (&[LARGE_TYPE, LARGE_OVER_A], PUT_TYPE, Kind::TooLarge),
            (&[DEEP_TYPE, DEEP_OVER_A], PUT_TYPE, Kind::TooDeep),
        ],
    )
}

#[test]
fn large_and_deep_leaves_are_refused(rt: HostRuntime) -> Result<(), Fail> {
    assert_refused(
        &rt,
        rt.alloc(),
        &[
            (&[LARGEST_TYPE], V, Kind::TooLarge),
            (&[DEEPEST_TYPE], V, Kind::TooDeep),
            (&[LARGEST_TYPE], CONSTANT_V, Kind::TooLarge),
            (&[DEEPEST_TYPE], CONSTANT_V, Kind::TooDeep),
        ],
    )
}

#[test]
fn large_and_deep_terms_are_refused(rt: HostRuntime) -> Result<(), Fail> {
    assert_refused(
        &rt,
        rt.alloc(),
        &[
            (&[G, LARGE, APP, LARGE], APP, Kind::TooLarge),
            (&[F, DEEP], APP, Kind::TooDeep),
            (&[P, LARGE_TYPE], OVER_TYPE, Kind::TooLarge),
            (&[P, DEEPEST_TYPE], OVER_TYPE, Kind::TooDeep),
            (&[DEEP], OVER_Q, Kind::TooDeep),
            (&[LARGE, LARGE], EQUALS, Kind::TooLarge),
            (&[DEEP, P], EQUALS, Kind::TooDeep),
            // Size is judged before depth.
            (&[LARGE_DEEP, LARGE_DEEP], EQUALS, Kind::TooLarge),
        ],
    )
}

#[test]
fn large_and_deep_instances_are_refused(rt: HostRuntime) -> Result<(), Fail> {
    assert_refused(
        &rt,
        rt.alloc(),
        &[
            (&[LARGE, OVER_P, G, P, APP, P, APP], INST, Kind::TooLarge),
            (&[DEEP_BODY, OVER_P, F, F, P, APP, APP], INST, Kind::TooDeep),
            (
                &[G, P, APP, P, APP, LARGE, OVER_P, BODY],
                PUT,
                Kind::TooLarge,
            ),
            (
                &[F, F, P, APP, APP, DEEP_BODY, OVER_P, BODY],
                PUT,
                Kind::TooDeep,
            ),
            (
                &[Q, G, P, APP, P, APP, LARGE, OVER_P, OVER_Q, BODY, BODY],
                PUT_BOTH,
                Kind::TooLarge,
            ),
            (
                &[
                    Q,
                    F,
                    F,
                    F,
                    P,
                    APP,
                    APP,
                    APP,
                    DEEP_BODY_OF_TWO,
                    OVER_P,
                    OVER_Q,
                    BODY,
                    BODY,
                ],
                PUT_BOTH,
                Kind::TooDeep,
            ),
        ],
    )
}

#[test]
fn large_and_deep_substitutes_are_refused(rt: HostRuntime) -> Result<(), Fail> {
    assert_refused(
        &rt,
        rt.alloc(),
        &[
            (
                &[BOOL, P, G, P, APP, P, APP, Q, Q, LARGE],
                SUBST,
                Kind::TooLarge,
            ),
            (&[BOOL, P, F, P, APP, Q, Q, DEEP], SUBST, Kind::TooDeep),
            // By the type alone.
            (
                &[LARGE_TYPE, P, P, Q, Q, LARGE_OVER_A, V],
                SUBST,
                Kind::TooLarge,
            ),
            (
                &[DEEP_TYPE, P, P, Q, Q, DEEP_OVER_A, V],
                SUBST,
                Kind::TooDeep,
            ),
        ],
    )
}
