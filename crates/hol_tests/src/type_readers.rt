//! What the table tells of a type: its measures, its head and its variables.
use crate::type_bench::{Bench, Step};
use crate::type_trials::{Trial, comes_out};
use common::Fault;
use std::test::Fail;

/// Whether the type that the steps make has this size and this depth.
pub(crate) fn has_measures(
    bench: &mut Bench,
    steps: &[Step],
    wanted: (u64, u64),
) -> Result<bool, Fault> {
    Ok(bench.measures(steps)? == wanted)
}

#[test]
fn types_have_a_size_and_a_depth(rt: HostRuntime) -> Result<(), Fail> {
    let cases: [(&[Step], (u64, u64)); 8] = [
        (&[Step::Variable(b'A')], (1, 1)),
        (&[Step::Bool], (1, 1)),
        (&[Step::Variable(b'A'), Step::List], (2, 2)),
        (&[Step::Bool, Step::Bool, Step::Function], (3, 3)),
        (
            &[
                Step::Bool,
                Step::Bool,
                Step::Function,
                Step::Variable(b'A'),
                Step::List,
                Step::Function,
            ],
            (6, 5),
        ),
        (
            &[Step::Variable(b'A'), Step::Lists(16_383)],
            (16_384, 16_384),
        ),
        (
            &[Step::Variable(b'A'), Step::Doubled(19), Step::List],
            (1_048_576, 40),
        ),
        (
            &[
                Step::Variable(b'A'),
                Step::Variable(b'B'),
                Step::Function,
                Step::Doubled(100_000),
            ],
            (u64::MAX, 200_003),
        ),
    ];
    for (index, (steps, wanted)) in cases.iter().enumerate() {
        let trial = Trial::Measures(steps, *wanted);
        assert!(rt; comes_out(rt.alloc(), trial)?, "case {index}");
    }
    Ok(())
}

/// Whether types of functions show their sides, and others none.
pub(crate) fn show_sides(bench: &mut Bench) -> Result<bool, Fault> {
    let a = bench.make(&[Step::Variable(b'A')])?;
    let truth = bench.make(&[Step::Bool])?;
    let cases: [(&[Step], Option<_>); 4] = [
        (
            &[Step::Variable(b'A'), Step::Bool, Step::Function],
            Some((a, truth)),
        ),
        (
            &[Step::Bool, Step::Variable(b'A'), Step::Function],
            Some((truth, a)),
        ),
        (&[Step::Bool], None),
        (&[Step::Variable(b'A')], None),
    ];
    for (steps, wanted) in cases {
        if bench.sides(steps)? != wanted {
            return Ok(false);
        }
    }
    Ok(true)
}

#[test]
fn types_of_functions_show_their_sides(rt: HostRuntime) -> Result<(), Fail> {
    assert!(rt; comes_out(rt.alloc(), Trial::Sides)?);
    Ok(())
}

#[test]
fn variables_come_in_order(rt: HostRuntime) -> Result<(), Fail> {
    let cases: [(&[Step], &[u8]); 4] = [
        (&[Step::Bool], b""),
        (&[Step::Variable(b'A'), Step::Lists(2)], b"A"),
        (
            &[
                Step::Variable(b'B'),
                Step::Variable(b'A'),
                Step::Function,
                Step::Variable(b'B'),
                Step::Function,
            ],
            b"BA",
        ),
        (
            &[
                Step::Variable(b'A'),
                Step::Variable(b'B'),
                Step::Function,
                Step::Doubled(100_000),
            ],
            b"AB",
        ),
    ];
    for (steps, letters) in cases {
        let trial = Trial::Variables(steps, letters);
        assert!(rt; comes_out(rt.alloc(), trial)?, "{letters:?}");
    }
    Ok(())
}
