//! What is tried over a table, which one function owns and lets go: what is let go at the end of a scope costs more to
//! prove, at each end, than all that is done with it.
use crate::bench::{Bench, Step};
use crate::{limits, makers, readers};
use common::{Fault, Kind};
use std::alloc::Global;

/// What is tried.
#[derive(Clone, Copy)]
pub(crate) enum Trial<'a> {
    /// After these steps these are refused for this reason, and take no number.
    Refused(&'a [&'a [Step]], &'a [Step], Kind),
    /// A type is the same made otherwise.
    SameType(&'a [&'a [Step]], &'a [&'a [Step]]),
    /// A tree is the same made otherwise.
    Same(&'a [&'a [Step]], &'a [&'a [Step]]),
    /// A type, and another: whether the first may become the second.
    Instance(&'a [&'a [Step]], &'a [&'a [Step]], bool),
    /// A term has this type.
    Type(&'a [&'a [Step]], &'a [&'a [Step]]),
    /// A tree has this size and this depth.
    Measures(&'a [&'a [Step]], (u64, u64)),
    /// An equation has sides, and another term none.
    Sides,
    /// Whether a term is an abstraction applied to an argument.
    Redex(&'a [&'a [Step]], bool),
    /// A tree has these free variables in this order.
    Variables(&'a [&'a [Step]], &'a [&'a [Step]]),
    /// A tree has the type variables of these letters in this order.
    TypeVariables(&'a [&'a [Step]], &'a [u8]),
}

fn tried_on(bench: &mut Bench, trial: Trial) -> Result<bool, Fault> {
    match trial {
        Trial::Refused(given, last, kind) => limits::is_refused(bench, given, last, kind),
        Trial::SameType(made, wanted) => makers::is_same_type(bench, made, wanted),
        Trial::Same(made, wanted) => makers::is_same(bench, made, wanted),
        Trial::Instance(general, instance, wanted) => {
            readers::is_instance(bench, general, instance, wanted)
        }
        Trial::Type(term, ty) => readers::has_type(bench, term, ty),
        Trial::Measures(term, wanted) => readers::has_measures(bench, term, wanted),
        Trial::Sides => readers::has_sides(bench),
        Trial::Redex(term, wanted) => readers::is_redex(bench, term, wanted),
        Trial::Variables(term, wanted) => bench.has_variables(term, wanted),
        Trial::TypeVariables(term, letters) => bench.has_type_variables(term, letters),
    }
}

/// Whether a trial comes out as it must, over a table of its own.
pub(crate) fn comes_out(alloc: Global, trial: Trial) -> Result<bool, Fault> {
    let mut bench = Bench::new(alloc);
    let right = tried_on(&mut bench, trial);
    drop(bench);
    right
}
