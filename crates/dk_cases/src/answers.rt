//! What comes of a case.
ghost use Rattle.std.specs.Prelude.{◌≡◌, ◌<◌};
ghost use Rattle.lp_spec.specs.ModuleOrder.{IsModule};
ghost use Rattle.holide_sig.specs.Modules.{declarations_of, IsHeld};

use crate::checks::{add_checks, add_verdict};
use crate::conversions::{add_conversions, add_step};
use crate::faults::add_fault;
use crate::modules::{Reading, read};
use crate::readings::{add_again, add_cuts, add_feeding, add_finds, add_reading, add_steps};
use crate::sequents::{add_sequent, add_whether};
use crate::types::add_types;
use crate::weights::add_weights;
use crate::writing::add_written;
use case_files::{Case, Wrong, number, text_at, word};
use dk_read::Limit;
use holide_sig::Module;
use std::alloc::Global;

/// Adds what comes of a case by this reading.
pub(crate) fn answer(
    alloc: Global,
    case: &Case<'_>,
    reading: Reading,
    came: &mut Vec<u8>,
) -> Result<(), Wrong>
    requires { 0 < reading.size }
{
    let text = text_at(alloc, case, "text")?;
    let added = add_answer(alloc, case, reading, &text, came);
    drop(text);
    added
}

// Adds what comes of this text.
fn add_answer(
    alloc: Global,
    case: &Case<'_>,
    reading: Reading,
    text: &[u8],
    came: &mut Vec<u8>,
) -> Result<(), Wrong>
    requires { 0 < reading.size }
{
    match word(case, "by")? {
        "read" => add_reading(alloc, case, reading, text, came),
        "again" => add_again(alloc, case, reading.limit, text, came),
        "feed" => add_feeding(alloc, case, reading, text, came),
        "steps" => add_steps(alloc, case, reading.limit, came),
        "cuts" => add_cuts(alloc, reading, text, came),
        "find" => add_finds(alloc, case, reading, text, came),
        "check" => add_checks(alloc, case, reading.limit, text, came),
        "infer" => add_types(alloc, case, reading.limit, true, text, came),
        "loose" => add_types(alloc, case, reading.limit, false, text, came),
        "convert" => add_conversions(alloc, case, reading.limit, text, came),
        by => add_asked(alloc, case, by, reading.limit, text, came),
    }
}

// Adds what comes of the module of this text.
fn add_asked(
    alloc: Global,
    case: &Case<'_>,
    by: &str,
    limit: Limit,
    text: &[u8],
    came: &mut Vec<u8>,
) -> Result<(), Wrong> {
    match read(alloc, limit, text) {
        Ok(mut source) => {
            let added = add_asked_of(alloc, case, by, &mut source, came);
            drop(source);
            added
        }
        Err(fault) => {
            let added = add_fault(alloc, came, number(case, "start")?, &fault);
            drop(fault);
            added
        }
    }
}

// Adds what comes of a module.
fn add_asked_of(
    alloc: Global,
    case: &Case<'_>,
    by: &str,
    source: &mut Module,
    came: &mut Vec<u8>,
) -> Result<(), Wrong>
    requires held { IsHeld source.old }
    requires is_module { IsModule (declarations_of source.old) }
{
    match by {
        "verdict" => add_verdict(alloc, case, source, false, came),
        "fast" => add_verdict(alloc, case, source, true, came),
        "step" => add_step(alloc, source, came),
        "weigh" => add_weights(alloc, source, came),
        "decode" => add_sequent(alloc, source, came),
        "decodes" => add_whether(alloc, source, came),
        by => add_written(alloc, case, by, source, came),
    }
}
