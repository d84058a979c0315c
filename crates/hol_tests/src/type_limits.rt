//! What passes a limit is refused for that limit, size before depth, and takes no number.
use crate::type_bench::{Bench, Step};
use crate::type_trials::{Trial, comes_out};
use common::{Fault, Kind};
use std::test::Fail;

/// Whether a last step is refused for this reason, and takes no number.
pub(crate) fn is_refused(
    bench: &mut Bench,
    steps: &[Step],
    last: Step,
    kind: Kind,
) -> Result<bool, Fault> {
    bench.set_out(steps)?;
    let count = bench.table.count();
    let refused = bench.obey(last) == Err(Fault::Refused(kind));
    Ok(refused && bench.table.count() == count)
}

#[test]
fn refusals_name_the_limit(rt: HostRuntime) -> Result<(), Fail> {
    let a = Step::Variable(b'A');
    let cases: [(&[Step], Step, Kind); 6] = [
        (
            &[a, Step::Doubled(19), Step::List],
            Step::List,
            Kind::TooLarge,
        ),
        (&[a, Step::Lists(16_383)], Step::List, Kind::TooDeep),
        (&[a, Step::Doubled(100_000)], Step::List, Kind::TooLarge),
        (
            &[a, Step::Doubled(19), a, Step::Doubled(19)],
            Step::Put,
            Kind::TooLarge,
        ),
        (
            &[a, Step::Lists(10_000), a, Step::Lists(10_000)],
            Step::Put,
            Kind::TooDeep,
        ),
        (&[a, a, Step::Doubled(100_000)], Step::Put, Kind::TooLarge),
    ];
    for (index, (steps, last, kind)) in cases.iter().enumerate() {
        let trial = Trial::Refused(steps, *last, *kind);
        assert!(rt; comes_out(rt.alloc(), trial)?, "case {index}");
    }
    Ok(())
}
