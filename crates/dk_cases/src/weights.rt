//! What declarations weigh.
ghost use Rattle.std.specs.Prelude.{◌<◌, length};
ghost use Rattle.holide_sig.specs.Modules.{IsHeld};

use crate::faults::{add_comma, add_number};
use case_files::Wrong;
use holide_sig::Module;
use lp_weight::{bound, bound_fast, weight};
use std::alloc::Global;

/// Adds the weight of each declaration, its bound, and its bound without rechecks of sorts.
pub(crate) fn add_weights(alloc: Global, source: &Module, came: &mut Vec<u8>) -> Result<(), Wrong>
    requires { IsHeld source.now }
{
    for i in 0..source.decls.len() {
        add_weight(alloc, source, i, came)?;
    }
    Ok(())
}

// Adds those of this declaration.
fn add_weight(alloc: Global, source: &Module, i: usize, came: &mut Vec<u8>) -> Result<(), Wrong>
    requires held { IsHeld source.now }
    requires i { i < length source.now.decls }
{
    let numbers = (
        weight(alloc, source, i),
        bound(alloc, source, i),
        bound_fast(alloc, source, i),
    );
    match numbers {
        (Ok(weighs), Ok(takes), Ok(fast)) => add_numbers(alloc, came, weighs, takes, fast),
        _ => Err(Wrong("out of memory")),
    }
}

// Adds a weight and two bounds.
fn add_numbers(
    alloc: Global,
    came: &mut Vec<u8>,
    weighs: u128,
    takes: u128,
    fast: u128,
) -> Result<(), Wrong> {
    add_comma(came)?;
    add_number(alloc, came, weighs)?;
    came.push(b' ')?;
    add_number(alloc, came, takes)?;
    came.push(b' ')?;
    add_number(alloc, came, fast)
}
