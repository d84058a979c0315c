//! The parameters of a sequent, in order of first occurrence.
ghost use Rattle.sequent.specs.Sequents.{IsKnown};

use crate::sample::Sample;
use crate::sequent_trials::{Trial, comes_out};
use common::Memory;
use hol_name::Name;
use hol_term::{TermTable, Variable};
use hol_type::TypeId;
use sequent::Params;
use std::alloc::Global;
use std::test::Fail;

// Whether the variables have these names and types.
fn are_variables(variables: &[Variable], wanted: &[(&[u8], TypeId)]) -> bool {
    variables.len() == wanted.len()
        && variables.iter().zip(wanted).all(|(variable, (text, ty))| variable.name.is_single(text)
            && variable.ty == *ty)
}

// Whether the names are these.
fn are_names(names: &[Name], wanted: &[&[u8]]) -> bool {
    names.len() == wanted.len()
        && names
            .iter()
            .zip(wanted)
            .all(|(name, text)| name.is_single(text))
}

// Whether the parameters are those of the sample, whose types these are.
fn are_the_samples(params: &Params, a: TypeId, b: TypeId) -> bool {
    let wanted: [(&[u8], TypeId); 5] = [(b"z", b), (b"x", b), (b"y", a), (b"x", a), (b"z", a)];
    are_variables(params.free_vars.variables(), &wanted)
        && are_names(params.type_vars.names(), &[b"B", b"A"])
}

/// Whether the sample lists its parameters in order.
pub(crate) fn lists(sample: &Sample, table: &TermTable, alloc: Global) -> Result<bool, Memory>
    requires { IsKnown table.now sample.now.sequent }
{
    let params = sample.sequent.params(alloc, table)?;
    let right = are_the_samples(&params, sample.a, sample.b);
    drop(params);
    Ok(right)
}

#[test]
fn lists_parameters_in_order(rt: HostRuntime) -> Result<(), Fail> {
    assert!(rt; comes_out(rt.alloc(), Trial::Params)?);
    Ok(())
}
