//! Which symbols of a module stand for operators and constants: they are found by their names, each spelled into a text that is lent.
ghost use Rattle.std.specs.Prelude.{◌≡◌, IfOk};
ghost use Rattle.holide_sig.specs.Modules.{declarations_of};
ghost use Rattle.translate_term.specs.Told.{told_constant, told_operator};

use crate::spelling::{spell, spell_input_operator};
use common::Memory;
use hol_name::Name;
use holide_sig::Module;
use holide_sig::symbols::{ARR, BOOL, EQ, IND, SELECT};

// The symbol of an operator with so many arguments.
pub(crate) fn operator(
    source: &Module,
    name: &Name,
    arity: usize,
    text: &mut Vec<u8>,
) -> Result<Option<usize>, Memory>
    ensures { IfOk result (λ symbol. symbol ≡ told_operator (declarations_of source.now) name.now arity) }
{
    if name.is_single(b"->") {
        return Ok(Some(ARR));
    }
    if name.is_single(b"bool") {
        return Ok(Some(BOOL));
    }
    if name.is_single(b"ind") {
        return Ok(Some(IND));
    }
    spell_input_operator(text, name, arity)?;
    if let Some(symbol) = source.find(text) {
        return Ok(Some(symbol));
    }
    spell(text, b"o_", name)?;
    Ok(source.find(text))
}

// The symbol of a constant.
pub(crate) fn constant(
    source: &Module,
    name: &Name,
    text: &mut Vec<u8>,
) -> Result<Option<usize>, Memory>
    ensures { IfOk result (λ symbol. symbol ≡ told_constant (declarations_of source.now) name.now) }
{
    if name.is_single(b"=") {
        return Ok(Some(EQ));
    }
    if name.is_single(b"select") {
        return Ok(Some(SELECT));
    }
    spell(text, b"i_", name)?;
    if let Some(symbol) = source.find(text) {
        return Ok(Some(symbol));
    }
    // The name of a definition has another first byte, and is otherwise the same.
    text[0] = b'c';
    Ok(source.find(text))
}
