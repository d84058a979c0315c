//! The cases of symbols, of inference, of definitions, of what is stated and of what is held, each over a machine of its
//! own.
use crate::trials::{Case, Trial, comes_out};
use crate::{collecting, definitions, inference, stating, symbols};
use article_read::LineFault;
use std::alloc::Global;
use std::test::Fail;

// The name of the first case that comes out otherwise.
fn first_wrong(alloc: Global, cases: &[Case]) -> Result<Option<&'static str>, LineFault> {
    for case in cases {
        if !comes_out(alloc, Trial::Turns(case.turns))? {
            return Ok(Some(case.name));
        }
    }
    Ok(None)
}

#[test]
fn symbols_and_theorems_are_made_or_refused(rt: HostRuntime) -> Result<(), Fail> {
    for cases in [
        symbols::CASES.as_slice(),
        &inference::CASES,
        &stating::CASES,
        &definitions::CASES,
        &collecting::CASES,
    ] {
        let wrong = first_wrong(rt.alloc(), cases)?;
        assert!(rt; wrong.is_none(), "{wrong:?}");
    }
    Ok(())
}
