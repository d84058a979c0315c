//! The text of a closed sequent, as the program shows it on one line.
//!
//! [`append_closed`] adds it to a text: the type variables and the free variables with their types, each by its number; the
//! hypotheses; and the conclusion. A variable that a binder binds has the number of its binder, counted from outside, and
//! names are mangled. The text is `closed_text` of `decode_spec`.
//!
//! It is made in one pass over the nodes, with a list of what is still to be written, so that a deep term takes memory
//! alone.
//!
//! ```text
//! let mut text = Vec::new(alloc);
//! append_closed(alloc, &mut text, &sequent.closed(alloc, &table)?)?;
//! assert_eq!(text.as_slice(), b"[] [x0:bool x1:bool] {x0} |- x1");
//! ```
#![tactic(auto)]

ghost use Rattle.std.specs.Prelude.{◌≡◌, ◌++◌, map, codes, IfOk, OnOk, OnErr};
ghost use Rattle.decode_spec.specs.ClosedText.{closed_text, hypothesis_texts, separated, type_variable_texts, variable_texts};
ghost use Rattle.sequent.specs.Closed.{closed_term_view, closed_type_view, closed_view};
ghost use Rattle.hol_text.specs.Works.{variable_text};

mod names;
mod walk;

use crate::names::{add_mark, add_numbered};
use crate::walk::{add_term, add_type};
use common::Memory;
use sequent::{Closed, ClosedTerm, ClosedType};
use std::alloc::Global;

/// Adds the text of a closed sequent. After want of memory the text is as before.
pub fn append_closed(alloc: Global, text: &mut Vec<u8>, closed: &Closed) -> Result<(), Memory>
    ensures added { OnOk result (text.new.items ≡ text.old.items ++ closed_text (closed_view closed.now)) }
    ensures unchanged { OnErr result (text.new.items ≡ text.old.items) }
{
    let line = line_of(alloc, closed)?;
    text.extend_from_slice(&line)?;
    Ok(())
}

// The text of a closed sequent.
fn line_of(alloc: Global, closed: &Closed) -> Result<Vec<u8>, Memory>
    ensures { IfOk result (λ line. line.items ≡ closed_text (closed_view closed.now)) }
{
    let mut line = Vec::from_slice(alloc, b"[")?;
    add_type_variables(&mut line, closed.type_vars)?;
    line.extend_from_slice(b"] [")?;
    add_variables(alloc, &mut line, &closed.free_vars)?;
    line.extend_from_slice(b"] {")?;
    add_hypotheses(alloc, &mut line, &closed.hyps)?;
    line.extend_from_slice(b"} |- ")?;
    add_term(alloc, &mut line, &closed.concl)?;
    Ok(line)
}

// Adds so many type variables, with a blank between any two.
fn add_type_variables(text: &mut Vec<u8>, count: usize) -> Result<(), Memory>
    ensures { OnOk result (text.new.items ≡ text.old.items ++ separated (codes " ") (type_variable_texts 0 count)) }
{
    for number in 0..count {
        add_mark(text, number, b" ")?;
        add_numbered(text, b"a", number as u128)?;
    }
    Ok(())
}

// Adds free variables with their types, with a blank between any two.
fn add_variables(alloc: Global, text: &mut Vec<u8>, types: &[ClosedType]) -> Result<(), Memory>
    ensures { OnOk result (text.new.items ≡ text.old.items ++ separated (codes " ") (variable_texts 0 (map closed_type_view types.now))) }
{
    for (number, ty) in types.iter().enumerate() {
        add_mark(text, number, b" ")?;
        add_variable(alloc, text, number, ty)?;
    }
    Ok(())
}

// Adds a free variable of this number with its type.
fn add_variable(
    alloc: Global,
    text: &mut Vec<u8>,
    number: usize,
    ty: &ClosedType,
) -> Result<(), Memory>
    ensures { OnOk result (text.new.items ≡ text.old.items ++ variable_text number (closed_type_view ty.now)) }
{
    add_numbered(text, b"x", number as u128)?;
    text.extend_from_slice(b":")?;
    add_type(alloc, text, ty)
}

// Adds hypotheses, with a comma and a blank between any two.
fn add_hypotheses(alloc: Global, text: &mut Vec<u8>, hyps: &[ClosedTerm]) -> Result<(), Memory>
    ensures { OnOk result (text.new.items ≡ text.old.items ++ separated (codes ", ") (hypothesis_texts (map closed_term_view hyps.now))) }
{
    for (place, hyp) in hyps.iter().enumerate() {
        add_mark(text, place, b", ")?;
        add_term(alloc, text, hyp)?;
    }
    Ok(())
}
