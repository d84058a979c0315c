//! What is tried with a sample. One function owns its table, and one the sample: what is let go at the end of a scope
//! costs more to prove, at each end, than all that is done with it.
ghost use Rattle.sequent.specs.Sequents.{IsKnown};

use crate::sample::{Sample, make_sample};
use crate::{closed, params};
use common::{Fault, Memory};
use hol_term::TermTable;
use std::alloc::Global;

/// What is tried.
#[derive(Clone, Copy)]
pub(crate) enum Trial {
    /// The parameters of the sample.
    Params,
    /// Its closed form.
    Closed,
}

fn tried_with(
    sample: &Sample,
    table: &TermTable,
    alloc: Global,
    trial: Trial,
) -> Result<bool, Memory>
    requires { IsKnown table.now sample.now.sequent }
{
    match trial {
        Trial::Params => params::lists(sample, table, alloc),
        Trial::Closed => closed::closes(&sample.sequent, table, alloc),
    }
}

fn tried_over(table: &mut TermTable, alloc: Global, trial: Trial) -> Result<bool, Fault> {
    let sample = make_sample(table, alloc)?;
    let right = tried_with(&sample, table, alloc, trial);
    drop(sample);
    Ok(right?)
}

/// Whether a trial comes out as it must.
pub(crate) fn comes_out(alloc: Global, trial: Trial) -> Result<bool, Fault> {
    let mut table = TermTable::new(alloc);
    let right = tried_over(&mut table, alloc, trial);
    drop(table);
    right
}
