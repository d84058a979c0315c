//! Pools by their public calls.
use common::Memory;
use compose::Pool;
use hol_term::TermId;
use sequent::{Hyps, Sequent};
use std::alloc::Global;
use std::test::Fail;

// Three terms of any table.
const P: TermId = TermId(0);

const Q: TermId = TermId(1);

const R: TermId = TermId(2);

/// The hypotheses of a sequent and its conclusion.
type Shape<'a> = (&'a [TermId], TermId);

fn make(alloc: Global, (hyps, concl): Shape) -> Result<Sequent, Memory> {
    let hyps = Hyps::of(alloc, hyps)?;
    Ok(Sequent { hyps, concl })
}

fn filled(alloc: Global) -> Result<Pool, Memory> {
    let shapes: [(Shape, usize); 5] = [
        ((&[P, Q], R), 4),
        ((&[Q, P, P], R), 6),
        ((&[P], R), 7),
        ((&[], P), 9),
        ((&[P], R), 12),
    ];
    let mut pool = Pool::new(alloc);
    for (shape, step) in shapes {
        pool.add(make(alloc, shape)?, step)?;
    }
    Ok(pool)
}

#[test]
fn finds_the_first_that_is_the_same(rt: HostRuntime) -> Result<(), Fail> {
    let pool = filled(rt.alloc())?;
    let cases: [(Shape, Option<usize>); 6] = [
        ((&[Q, P, Q], R), Some(4)),
        ((&[P, P], R), Some(7)),
        ((&[], P), Some(9)),
        ((&[], R), None),
        ((&[P, Q, R], R), None),
        ((&[P], Q), None),
    ];
    for (index, (shape, wanted)) in cases.iter().enumerate() {
        let sequent = make(rt.alloc(), *shape)?;
        assert_eq!(rt; pool.find(&sequent), *wanted, "case {index}");
    }
    Ok(())
}

#[test]
fn finds_among_the_first_alone(rt: HostRuntime) -> Result<(), Fail> {
    let pool = filled(rt.alloc())?;
    let sequent = make(rt.alloc(), (&[P], R))?;
    for (count, wanted) in [(0, None), (2, None), (3, Some(7)), (9, Some(7))] {
        assert_eq!(rt; pool.find_among(count, &sequent), wanted, "among {count}");
    }
    Ok(())
}

#[test]
fn takes_back_what_came_last(rt: HostRuntime) -> Result<(), Fail> {
    let mut pool = filled(rt.alloc())?;
    let sequent = make(rt.alloc(), (&[P], R))?;
    for (steps, wanted) in [
        ([4, 6, 7, 9].as_slice(), Some(7)),
        ([4, 6, 7].as_slice(), Some(7)),
        ([4, 6].as_slice(), None),
    ] {
        pool.forget_last();
        assert_eq!(rt; pool.steps(), steps);
        assert_eq!(rt; pool.len(), steps.len());
        assert_eq!(rt; pool.find(&sequent), wanted);
    }
    pool.add(sequent, 20)?;
    assert_eq!(rt; pool.steps(), [4, 6, 20].as_slice());
    Ok(())
}
