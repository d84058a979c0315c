//! One type has one number, however it is made: by its parts, by substitution or as an instance.
use crate::type_bench::{Bench, Step};
use crate::type_trials::{Trial, comes_out};
use common::{Fault, Kind};
use std::test::Fail;

/// Whether a type that is made twice has one number, and the type turned round another.
pub(crate) fn one_number(bench: &mut Bench) -> Result<bool, Fault> {
    let arrow = bench.make(&[Step::Variable(b'A'), Step::Bool, Step::Function])?;
    let again = bench.make(&[Step::Variable(b'A'), Step::Bool, Step::Function])?;
    let turned = bench.make(&[Step::Bool, Step::Variable(b'A'), Step::Function])?;
    Ok(again == arrow && turned != arrow)
}

#[test]
fn a_type_has_one_number(rt: HostRuntime) -> Result<(), Fail> {
    assert!(rt; comes_out(rt.alloc(), Trial::OneNumber)?);
    Ok(())
}

/// Whether variables that are put for each other change places.
pub(crate) fn all_at_once(bench: &mut Bench) -> Result<bool, Fault> {
    let made = bench.make(&[
        Step::Variable(b'A'),
        Step::Variable(b'B'),
        Step::Function,
        Step::List,
        Step::Swap,
    ])?;
    let wanted = bench.make(&[
        Step::Variable(b'B'),
        Step::Variable(b'A'),
        Step::Function,
        Step::List,
    ])?;
    Ok(made == wanted)
}

#[test]
fn substitution_is_all_at_once(rt: HostRuntime) -> Result<(), Fail> {
    assert!(rt; comes_out(rt.alloc(), Trial::AllAtOnce)?);
    Ok(())
}

/// Whether the second type is found as an instance of the first, or refused as one, as is wanted.
pub(crate) fn matches(
    bench: &mut Bench,
    general: &[Step],
    instance: &[Step],
    is_instance: bool,
) -> Result<bool, Fault> {
    let wanted = bench.make(instance)?;
    bench.set_out(general)?;
    bench.set_out(instance)?;
    let found = bench.make(&[Step::Match]);
    if is_instance {
        Ok(found == Ok(wanted))
    } else {
        Ok(found == Err(Fault::Refused(Kind::NotAlike)))
    }
}

// The steps that match two types, and whether the second is an instance of the first.
type Matching<'a> = (&'a [Step], &'a [Step], bool);

#[test]
fn instances_alone_match(rt: HostRuntime) -> Result<(), Fail> {
    let endo: &[Step] = &[Step::Variable(b'A'), Step::Doubled(1)];
    let arrow: &[Step] = &[Step::Variable(b'A'), Step::Variable(b'B'), Step::Function];
    let lists: &[Step] = &[Step::Bool, Step::List];
    let instance: &[Step] = &[Step::Bool, Step::List, Step::Bool, Step::Function];
    let huge: &[Step] = &[
        Step::Variable(b'A'),
        Step::Variable(b'B'),
        Step::Function,
        Step::Doubled(100_000),
    ];
    let huge_endo: &[Step] = &[Step::Variable(b'A'), Step::Doubled(100_001)];
    let cases: [Matching; 6] = [
        (arrow, instance, true),
        (endo, instance, false),
        (&[Step::Bool], &[Step::Variable(b'A')], false),
        (lists, arrow, false),
        (huge, huge_endo, true),
        (huge_endo, huge, false),
    ];
    for (index, (general, instance, is_instance)) in cases.iter().enumerate() {
        let trial = Trial::Matches(general, instance, *is_instance);
        assert!(rt; comes_out(rt.alloc(), trial)?, "case {index}");
    }
    Ok(())
}
