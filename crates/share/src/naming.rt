//! The names of a folded module's declarations.
ghost use Rattle.std.specs.Prelude.{◌≡◌, ◌++◌, codes, decimal, IfOk, OnOk};
ghost use Rattle.lp_spec.specs.Numerals.{numeral};

use common::Memory;
use holide_sig::Ident;
use itoa::Buffer;
use std::alloc::Global;

/// The name of the abbreviation of a number: `X` and the number.
pub(crate) fn short_name(alloc: Global, number: usize) -> Result<Ident, Memory>
    ensures { IfOk result (λ name. name ≡ codes "X" ++ numeral number) }
{
    let mut text = Vec::from_slice(alloc, b"X")?;
    push_digits(&mut text, number)?;
    Ok(Ident::new(text))
}

// Adds the digits of a number.
fn push_digits(text: &mut Vec<u8>, number: usize) -> Result<(), Memory>
    ensures { OnOk result (text.new.items ≡ text.old.items ++ decimal number) }
{
    let mut buffer = Buffer::new();
    text.extend_from_slice(buffer.format(number).as_bytes())?;
    Ok(())
}

/// A name of these bytes.
pub(crate) fn copied(alloc: Global, bytes: &[u8]) -> Result<Ident, Memory>
    ensures { IfOk result (λ name. name ≡ bytes.now) }
{
    let text = Vec::from_slice(alloc, bytes)?;
    Ok(Ident::new(text))
}
