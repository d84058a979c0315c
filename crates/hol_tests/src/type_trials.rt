//! What is tried over a table, which one function owns and lets go: what is let go at the end of a scope costs more to
//! prove, at each end, than all that is done with it.
use crate::type_bench::{Bench, Step};
use crate::{type_limits, type_makers, type_readers};
use common::{Fault, Kind};
use std::alloc::Global;

/// What is tried.
#[derive(Clone, Copy)]
pub(crate) enum Trial<'a> {
    /// After these steps one more is refused for this reason, and takes no number.
    Refused(&'a [Step], Step, Kind),
    /// A type that is made twice has one number.
    OneNumber,
    /// Two variables are put for each other.
    AllAtOnce,
    /// A type, and another: whether the second is an instance of the first.
    Matches(&'a [Step], &'a [Step], bool),
    /// A type has this size and this depth.
    Measures(&'a [Step], (u64, u64)),
    /// Types of functions show their sides, and others none.
    Sides,
    /// A type has the variables of these letters in this order.
    Variables(&'a [Step], &'a [u8]),
}

fn tried_on(bench: &mut Bench, trial: Trial) -> Result<bool, Fault> {
    match trial {
        Trial::Refused(steps, last, kind) => type_limits::is_refused(bench, steps, last, kind),
        Trial::OneNumber => type_makers::one_number(bench),
        Trial::AllAtOnce => type_makers::all_at_once(bench),
        Trial::Matches(general, instance, wanted) => {
            type_makers::matches(bench, general, instance, wanted)
        }
        Trial::Measures(steps, wanted) => type_readers::has_measures(bench, steps, wanted),
        Trial::Sides => type_readers::show_sides(bench),
        Trial::Variables(steps, letters) => bench.has_variables(steps, letters),
    }
}

/// Whether a trial comes out as it must, over a table of its own.
pub(crate) fn comes_out(alloc: Global, trial: Trial) -> Result<bool, Fault> {
    let mut bench = Bench::new(alloc);
    let right = tried_on(&mut bench, trial);
    drop(bench);
    right
}
