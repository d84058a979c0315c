//! The module of a text.
ghost use Rattle.std.specs.Prelude.{◌<◌, IfOk};
ghost use Rattle.lp_spec.specs.ModuleOrder.{IsModule};
ghost use Rattle.holide_sig.specs.Modules.{declarations_of, IsHeld};

use crate::faults::add_comma;
use case_files::Wrong;
use dk_read::{DkFault, Limit, Reader, SharingReader};
use holide_sig::{Decl, Form, Module};
use std::alloc::Global;

/// How a text is read: under this limit, in pieces of so many bytes.
#[derive(Clone, Copy)]
pub(crate) struct Reading {
    pub(crate) limit: Limit,
    pub(crate) size: usize,
}

/// Feeds a text in pieces of this size.
pub(crate) fn feed(reader: &mut Reader, text: &[u8], size: usize) -> Result<(), DkFault>
    requires { 0 < size }
{
    for piece in text.chunks(size) {
        reader.feed(piece)?;
    }
    Ok(())
}

/// The module of a text, which is read in pieces. A fault of what is fed is told at the end too.
pub(crate) fn read_in_pieces(
    alloc: Global,
    reading: Reading,
    text: &[u8],
) -> Result<Module, DkFault>
    requires { 0 < reading.size }
{
    let mut reader = Reader::new(alloc, reading.limit);
    let _fed = feed(&mut reader, text, reading.size);
    reader.finish()
}

/// The module of a text. A fault of what is fed is told at the end too.
pub(crate) fn read(alloc: Global, limit: Limit, text: &[u8]) -> Result<Module, DkFault>
    ensures held { IfOk result IsHeld }
    ensures is_module { IfOk result (λ m. IsModule (declarations_of m)) }
{
    let mut reader = Reader::new(alloc, limit);
    let _fed = reader.feed(text);
    reader.finish()
}

/// The module of a text behind the signature's own, read over the table of another module.
pub(crate) fn read_over(alloc: Global, source: Module, text: &[u8]) -> Result<Module, DkFault>
    requires held { IsHeld source }
{
    let Module { table, decls } = source;
    drop(decls);
    let Ok(mut reader) = SharingReader::new(alloc, 0) else {
        drop(table);
        return Err(DkFault::Memory);
    };
    let mut table = table;
    match reader.feed(&mut table, text) {
        Ok(()) => reader.finish(table),
        Err(fault) => {
            drop(reader);
            drop(table);
            Err(fault)
        }
    }
}

/// Adds the declarations of a module, each by its form and its name.
pub(crate) fn add_declarations(text: &mut Vec<u8>, source: &Module) -> Result<(), Wrong> {
    for i in 0..source.decls.len() {
        add_declaration(text, source.decls.get(i))?;
    }
    Ok(())
}

// Adds a declaration.
fn add_declaration(text: &mut Vec<u8>, decl: &Decl) -> Result<(), Wrong> {
    add_comma(text)?;
    text.extend_from_slice(form_word(decl))?;
    text.extend_from_slice(decl.name.as_bytes())?;
    Ok(())
}

// The form of a declaration, which is none if it has a body that its form has not, or lacks one.
fn form_word(decl: &Decl) -> &'static [u8] {
    match (decl.form, decl.body) {
        (Form::Symbol, None) => b"symbol ",
        (Form::Def, Some(_)) => b"def ",
        (Form::Thm, Some(_)) => b"thm ",
        _ => b"none ",
    }
}
