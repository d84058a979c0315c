//! What the exports of a module say, a line for each.
ghost use Rattle.std.specs.Prelude.{◌≡◌, ◌<◌, ◌++◌, IfOk, OnOk, length};
ghost use Rattle.std.specs.List.{list_all};
ghost use Rattle.holide_sig.specs.Modules.{declarations_of, IsHeld};
ghost use Rattle.lp_spec.specs.Numerals.{is_decimal_digit, is_numeral};
ghost use Rattle.translate_spec.specs.Stands.{is_export_name};
ghost use Rattle.sequent.specs.Closed.{closed_view};
ghost use Rattle.bridge_spec.specs.Texts.{export_line};
ghost use Rattle.bridge_decode.specs.Saying.{IsSaid, IsOneSaid};

use common::Memory;
use decode_back::decode;
use hol_text::append_closed;
use holide_sig::Module;
use sequent::Closed;
use std::alloc::Global;

/// What the exports of a module say.
#[derive(Drop)]
pub(crate) enum Said {
    /// The lines for the exports, of which each says a closed sequent.
    Lines(Vec<u8>),
    /// The first export that says nothing.
    Nothing(usize),
}

/// What the exports of a module say.
pub(crate) fn exports_said(alloc: Global, source: &Module) -> Result<Said, Memory>
    requires { IsHeld source.now }
    ensures { IfOk result (IsSaid (declarations_of source.now)) }
{
    let mut text = Vec::new(alloc);
    for i in 0..source.decls.len() {
        if !add_said(alloc, source, i, &mut text)? {
            return Ok(Said::Nothing(i));
        }
    }
    Ok(Said::Lines(text))
}

/// Adds the line for a declaration, where it is an export, and tells whether it says something.
fn add_said(alloc: Global, source: &Module, i: usize, text: &mut Vec<u8>) -> Result<bool, Memory>
    requires held { IsHeld source.now }
    requires declared { i < length source.now.decls }
    ensures { IfOk result (IsOneSaid (declarations_of source.now) i text.old.items text.new.items) }
{
    let name = source.decls.get(i).name.as_bytes();
    if !is_export(name) {
        return Ok(true);
    }
    match decode(alloc, source, i)? {
        Some(closed) => {
            add_line(alloc, text, name, &closed)?;
            Ok(true)
        }
        None => Ok(false),
    }
}

/// Adds the line for an export: its name, and the closed text of what it says.
fn add_line(alloc: Global, text: &mut Vec<u8>, name: &[u8], closed: &Closed) -> Result<(), Memory>
    ensures { OnOk result (text.new.items ≡ text.old.items ++ export_line name.now (closed_view closed.now)) }
{
    text.extend_from_slice(name)?;
    text.extend_from_slice(b": ")?;
    append_closed(alloc, text, closed)?;
    text.extend_from_slice(b"\n")?;
    Ok(())
}

/// Whether a name is that of an export: `E` and a decimal number without leading zeros.
fn is_export(name: &[u8]) -> bool
    ensures { result ≡ is_export_name name.now }
{
    match name {
        [b'E', digits @ ..] => is_number(digits),
        _ => false,
    }
}

/// Whether a text is a decimal number without leading zeros.
fn is_number(text: &[u8]) -> bool
    ensures { result ≡ is_numeral text.now }
{
    match text {
        [] => false,
        [digit] => digit.is_ascii_digit(),
        [first, _, ..] => *first != b'0' && are_digits(text),
    }
}

/// Whether a text has digits alone.
fn are_digits(text: &[u8]) -> bool
    ensures { result ≡ list_all is_decimal_digit text.now }
{
    text.iter().all(|byte| byte.is_ascii_digit())
}
