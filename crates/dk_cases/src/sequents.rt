//! The sequents for which types of declarations stand.
ghost use Rattle.std.specs.Prelude.{◌<◌, length};
ghost use Rattle.holide_sig.specs.Modules.{IsHeld};

use case_files::Wrong;
use common::Memory;
use decode_back::decode;
use hol_text::append_closed;
use holide_sig::Module;
use std::alloc::Global;

/// Adds the closed sequent for which the type of the last declaration stands, or that it stands for none.
pub(crate) fn add_sequent(alloc: Global, source: &Module, came: &mut Vec<u8>) -> Result<(), Wrong>
    requires { IsHeld source.now }
{
    match source.decls.len().checked_sub(1) {
        Some(last) => match decode(alloc, source, last) {
            Ok(Some(closed)) => {
                let added = append_closed(alloc, came, &closed);
                drop(closed);
                added.map_err(|_| Wrong("out of memory"))
            }
            Ok(None) => {
                came.extend_from_slice(b"none")?;
                Ok(())
            }
            Err(Memory) => Err(Wrong("out of memory")),
        },
        None => Err(Wrong("text")),
    }
}

/// Adds whether the type of the last declaration stands for a closed sequent.
pub(crate) fn add_whether(alloc: Global, source: &Module, came: &mut Vec<u8>) -> Result<(), Wrong>
    requires { IsHeld source.now }
{
    match source.decls.len().checked_sub(1) {
        Some(last) => {
            came.extend_from_slice(whether(alloc, source, last)?)?;
            Ok(())
        }
        None => Err(Wrong("text")),
    }
}

// Whether the type of this declaration stands for one, as a word.
fn whether(alloc: Global, source: &Module, last: usize) -> Result<&'static [u8], Wrong>
    requires held { IsHeld source.now }
    requires last { last < length source.now.decls }
{
    match decode(alloc, source, last) {
        Ok(closed) => Ok(if closed.is_some() { b"some" } else { b"none" }),
        Err(Memory) => Err(Wrong("out of memory")),
    }
}
