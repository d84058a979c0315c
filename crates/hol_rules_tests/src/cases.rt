//! The cases, each over a proof of its own.
use crate::bench::Bench;
use crate::turns::Case;
use crate::{definitions, equations, functions, hypotheses, limits, stating, steps, substitution};
use common::Fault;
use std::alloc::Global;
use std::test::Fail;

// Whether a case comes out as it must.
fn comes_out(alloc: Global, case: Case) -> Result<bool, Fault> {
    let mut bench = Bench::new(alloc)?;
    let right = bench.all_hold(case.turns);
    drop(bench);
    right
}

// The name of the first case that comes out otherwise.
fn first_wrong(alloc: Global, cases: &[Case]) -> Result<Option<&'static str>, Fault> {
    for case in cases {
        if !comes_out(alloc, *case)? {
            return Ok(Some(case.name));
        }
    }
    Ok(None)
}

#[test]
fn rules_make_their_sequents_or_refuse(rt: HostRuntime) -> Result<(), Fail> {
    for cases in [
        steps::CASES.as_slice(),
        &equations::CASES,
        &functions::CASES,
        &hypotheses::CASES,
        &substitution::CASES,
        &stating::CASES,
        &definitions::CASES,
        &limits::CASES,
    ] {
        let wrong = first_wrong(rt.alloc(), cases)?;
        assert!(rt; wrong.is_none(), "{wrong:?}");
    }
    Ok(())
}
