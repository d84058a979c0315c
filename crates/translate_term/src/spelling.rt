//! The names of symbols, spelled into texts.
ghost use Rattle.std.specs.Prelude.{◌≡◌, ◌++◌, decimal, IfOk, OnOk};
ghost use Rattle.hol_spec.specs.Mangling.{mangled};
ghost use Rattle.lp_spec.specs.Numerals.{numeral};
ghost use Rattle.translate_spec.specs.Image.{constant_name as name_of_constant, input_constant_name as name_of_input_constant, input_operator_name as name_of_input_operator, operator_name as name_of_operator};

use common::Memory;
use hol_name::Name;
use itoa::Buffer;
use std::alloc::Global;

// Room for as many bytes as most names have, so that a text mostly grows once.
const ROOM: usize = 64;

/// The name of an input constant's symbol.
pub fn input_constant_name(alloc: Global, name: &Name) -> Result<Vec<u8>, Memory>
    ensures { IfOk result (λ text. text.items ≡ name_of_input_constant name.now) }
{
    spelled(alloc, b"i_", name)
}

/// The name of the symbol of an input operator with so many arguments.
pub fn input_operator_name(alloc: Global, name: &Name, arity: usize) -> Result<Vec<u8>, Memory>
    ensures { IfOk result (λ text. text.items ≡ name_of_input_operator arity name.now) }
{
    let mut text = Vec::new(alloc);
    spell_input_operator(&mut text, name, arity)?;
    Ok(text)
}

/// The name of the symbol of a constant that is defined, also by a type definition.
pub fn constant_name(alloc: Global, name: &Name) -> Result<Vec<u8>, Memory>
    ensures { IfOk result (λ text. text.items ≡ name_of_constant name.now) }
{
    spelled(alloc, b"c_", name)
}

/// The name of the symbol of an operator that is defined.
pub fn operator_name(alloc: Global, name: &Name) -> Result<Vec<u8>, Memory>
    ensures { IfOk result (λ text. text.items ≡ name_of_operator name.now) }
{
    spelled(alloc, b"o_", name)
}

/// Adds a number as names write it.
pub fn push_numeral(text: &mut Vec<u8>, number: usize) -> Result<(), Memory>
    ensures { OnOk result (text.new.items ≡ text.old.items ++ numeral number) }
{
    if number < 10 {
        text.push(b'0' + number as u8)?;
        return Ok(());
    }
    push_digits(text, number)
}

// Adds the digits of a number.
fn push_digits(text: &mut Vec<u8>, number: usize) -> Result<(), Memory>
    ensures { OnOk result (text.new.items ≡ text.old.items ++ decimal number) }
{
    let mut buffer = Buffer::new();
    text.extend_from_slice(buffer.format(number).as_bytes())?;
    Ok(())
}

// Some bytes, and the mangled text of a name after them.
fn spelled(alloc: Global, front: &[u8], name: &Name) -> Result<Vec<u8>, Memory>
    ensures { IfOk result (λ text. text.items ≡ front.now ++ mangled name.now) }
{
    let mut text = Vec::new(alloc);
    spell(&mut text, front, name)?;
    Ok(text)
}

// Spells some bytes and the mangled text of a name after them, in place of what a text had.
pub(crate) fn spell(text: &mut Vec<u8>, front: &[u8], name: &Name) -> Result<(), Memory>
    ensures { OnOk result (text.new.items ≡ front.now ++ mangled name.now) }
{
    text.clear();
    text.reserve(ROOM)?;
    text.extend_from_slice(front)?;
    push_mangled(text, name)
}

// Spells the name of the symbol of an input operator with so many arguments, in place of what a text had.
pub(crate) fn spell_input_operator(
    text: &mut Vec<u8>,
    name: &Name,
    arity: usize,
) -> Result<(), Memory>
    ensures { OnOk result (text.new.items ≡ name_of_input_operator arity name.now) }
{
    text.clear();
    text.reserve(ROOM)?;
    text.push(b't')?;
    push_numeral(text, arity)?;
    text.push(b'_')?;
    push_mangled(text, name)
}

// Adds the mangled text of a name.
fn push_mangled(text: &mut Vec<u8>, name: &Name) -> Result<(), Memory>
    ensures { OnOk result (text.new.items ≡ text.old.items ++ mangled name.now) }
{
    for byte in name.mangled() {
        text.push(byte)?;
    }
    Ok(())
}
