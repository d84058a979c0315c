//! The names that parameters have in the table of terms.
ghost use Rattle.std.specs.Prelude.{◌≡◌, ◌≤◌, IfOk};
ghost use Rattle.decode_back.specs.Walks.{greatest_number, parameter_name as the_name};

use common::Memory;
use hol_name::Name;
use std::alloc::Global;

/// The greatest number of a parameter that has a name.
pub(crate) const GREATEST_NUMBER: usize = 1_048_576;

/// The name of the parameter with this number.
pub(crate) fn parameter_name(alloc: Global, number: usize) -> Result<Name, Memory>
    requires { number ≤ greatest_number }
    ensures { IfOk result (λ name. name ≡ the_name number) }
{
    let text = [
        (number % 256) as u8,
        (number / 256 % 256) as u8,
        (number / 65_536) as u8,
    ];
    let Ok(name) = Name::single(alloc, &text) else {
        return Err(Memory);
    };
    Ok(name)
}
