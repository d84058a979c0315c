//! Hypotheses are sets, in order of first occurrence.
use common::Memory;
use hol_term::TermId;
use sequent::{Hyps, Sequent};
use std::alloc::Global;
use std::test::Fail;

// Three terms of any table.
const P: TermId = TermId(0);

const Q: TermId = TermId(1);

const R: TermId = TermId(2);

// Whether the union of two is this.
fn is_union(alloc: Global, a: &Hyps, b: &Hyps, wanted: &[TermId]) -> Result<bool, Memory> {
    let united = Sequent::union(alloc, a, b)?;
    let right = united.ids() == wanted;
    drop(united);
    Ok(right)
}

// Whether the union with a second one is this.
fn unites_with(
    alloc: Global,
    a: &Hyps,
    second: &[TermId],
    wanted: &[TermId],
) -> Result<bool, Memory> {
    let b = Hyps::of(alloc, second)?;
    let right = is_union(alloc, a, &b, wanted);
    drop(b);
    right
}

// Whether a first and a second one unite to this.
fn unite(
    alloc: Global,
    first: &[TermId],
    second: &[TermId],
    wanted: &[TermId],
) -> Result<bool, Memory> {
    let a = Hyps::of(alloc, first)?;
    let right = unites_with(alloc, &a, second, wanted);
    drop(a);
    right
}

#[test]
fn unites_in_order(rt: HostRuntime) -> Result<(), Fail> {
    let cases: [(&[TermId], &[TermId], &[TermId]); 5] = [
        (&[P, Q], &[Q, R], &[P, Q, R]),
        (&[Q, R], &[P, Q], &[Q, R, P]),
        (&[P, P], &[R, P, R], &[P, R]),
        (&[], &[Q, Q], &[Q]),
        (&[P], &[], &[P]),
    ];
    for (first, second, wanted) in cases {
        assert!(rt;
            unite(rt.alloc(), first, second, wanted)?,
            "of {first:?} and {second:?}"
        );
    }
    Ok(())
}

#[test]
fn no_hypotheses_are_none(rt: HostRuntime) {
    assert!(rt; Hyps::new(rt.alloc()).ids().is_empty());
}

// Whether without one this is left.
fn leaves(alloc: Global, rest: &Hyps, removed: TermId, wanted: &[TermId]) -> Result<bool, Memory> {
    let again = Sequent::without(alloc, rest, removed)?;
    let right = again.ids() == wanted;
    drop(again);
    Ok(right)
}

// Whether without one this is left, and again this.
fn leaves_twice(
    alloc: Global,
    all: &Hyps,
    removed: TermId,
    wanted: &[TermId],
) -> Result<bool, Memory> {
    let rest = Sequent::without(alloc, all, removed)?;
    let once = rest.ids() == wanted && all.contains(removed) && !rest.contains(removed);
    let twice = leaves(alloc, &rest, removed, wanted);
    drop(rest);
    Ok(once && twice?)
}

// Whether without one this is left of all.
fn removes(
    alloc: Global,
    all: &[TermId],
    removed: TermId,
    wanted: &[TermId],
) -> Result<bool, Memory> {
    let all = Hyps::of(alloc, all)?;
    let right = leaves_twice(alloc, &all, removed, wanted);
    drop(all);
    right
}

#[test]
fn removes_one_alone(rt: HostRuntime) -> Result<(), Fail> {
    let cases: [(TermId, &[TermId]); 3] = [(P, &[R, Q]), (Q, &[R, P]), (R, &[P, Q])];
    for (removed, wanted) in cases {
        assert!(rt;
            removes(rt.alloc(), &[R, P, Q, P], removed, wanted)?,
            "without {removed:?}"
        );
    }
    Ok(())
}

/// The hypotheses of a sequent and its conclusion.
type Shape<'a> = (&'a [TermId], TermId);

fn make(alloc: Global, (hyps, concl): Shape) -> Result<Sequent, Memory> {
    let hyps = Hyps::of(alloc, hyps)?;
    Ok(Sequent { hyps, concl })
}

// Whether the first is within the second, and the second within the first, as is wanted, and the same if both are.
fn compare(a: &Sequent, b: &Sequent, within: bool, back: bool) -> bool {
    Sequent::within(a, b) == within
        && Sequent::within(b, a) == back
        && Sequent::same(a, b) == (within && back)
        && Sequent::same(b, a) == (within && back)
}

// The same of a sequent and a second one.
fn compares_with(
    alloc: Global,
    a: &Sequent,
    second: Shape,
    within: bool,
    back: bool,
) -> Result<bool, Memory> {
    let b = make(alloc, second)?;
    let right = compare(a, &b, within, back);
    drop(b);
    Ok(right)
}

// The same of a first sequent and a second one.
fn compare_made(
    alloc: Global,
    first: Shape,
    second: Shape,
    within: bool,
    back: bool,
) -> Result<bool, Memory> {
    let a = make(alloc, first)?;
    let right = compares_with(alloc, &a, second, within, back);
    drop(a);
    right
}

#[test]
fn compares_hypotheses_as_sets(rt: HostRuntime) -> Result<(), Fail> {
    let cases: [(Shape, Shape, bool, bool); 5] = [
        ((&[P, Q], R), (&[Q, P, Q], R), true, true),
        ((&[P], R), (&[P, Q], R), true, false),
        ((&[P], R), (&[P], Q), false, false),
        ((&[], R), (&[Q, P, Q], R), true, false),
        ((&[], R), (&[], R), true, true),
    ];
    for (index, (first, second, within, back)) in cases.iter().enumerate() {
        assert!(rt;
            compare_made(rt.alloc(), *first, *second, *within, *back)?,
            "case {index}"
        );
    }
    Ok(())
}
