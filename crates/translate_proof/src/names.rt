//! The names of steps.
ghost use Rattle.std.specs.Prelude.{◌≡◌, ◌<◌, ◌++◌, decimal, nat_eq, position, IfOk, OnOk};
ghost use Rattle.std.specs.List.{position_or_len};
ghost use Rattle.hol_rules.specs.Kept.{step_count};
ghost use Rattle.translate_spec.specs.Image.{unexported_name as name_by_kind};
ghost use Rattle.lp_spec.specs.Numerals.{numeral};
ghost use Rattle.translate_proof.specs.Numbers.{name_among, IsRising};

use common::Memory;
use hol_rules::{Proof, StepId};
use hol_spec::StepKind;
use itoa::Buffer;
use std::alloc::Global;

/// The name of a step: by its place among the exports if it is one, else by its kind.
pub fn step_name(
    alloc: Global,
    proof: &Proof,
    assumptions: &[StepId],
    exports: &[StepId],
    id: StepId,
) -> Result<Vec<u8>, Memory>
    requires id { id < step_count proof.now }
    requires assumptions { IsRising assumptions.now }
    requires exports { IsRising exports.now }
    ensures { IfOk result (λ text. text.items ≡ name_among proof.now.made assumptions.now exports.now id) }
{
    match place_of(exports, id) {
        Some(place) => lettered(alloc, b"E", place),
        None => unexported_name(alloc, assumptions, id, proof.kind(id)),
    }
}

// The name of a step that is no export: by its place among the assumptions, or by its number.
fn unexported_name(
    alloc: Global,
    assumptions: &[StepId],
    id: StepId,
    kind: StepKind,
) -> Result<Vec<u8>, Memory>
    requires { IsRising assumptions.now }
    ensures { IfOk result (λ text. text.items ≡ name_by_kind assumptions.now id kind) }
{
    match kind {
        StepKind::Axiom => lettered(alloc, b"A", place_or_len(assumptions, id)),
        StepKind::FirstLaw | StepKind::SecondLaw => lettered(alloc, b"L", id),
        StepKind::Refl
        | StepKind::Assume
        | StepKind::EqMp
        | StepKind::AbsThm
        | StepKind::AppThm
        | StepKind::DeductAntisym
        | StepKind::BetaConv
        | StepKind::Sym
        | StepKind::Trans
        | StepKind::ProveHyp
        | StepKind::Subst
        | StepKind::Restate
        | StepKind::DefineConst
        | StepKind::DefineConstList => lettered(alloc, b"T", id),
    }
}

// A letter and a number.
fn lettered(alloc: Global, letter: &[u8], number: usize) -> Result<Vec<u8>, Memory>
    ensures { IfOk result (λ text. text.items ≡ letter.now ++ numeral number) }
{
    let mut text = Vec::from_slice(alloc, letter)?;
    push_digits(&mut text, number)?;
    Ok(text)
}

// Adds the digits of a number.
fn push_digits(text: &mut Vec<u8>, number: usize) -> Result<(), Memory>
    ensures { OnOk result (text.new.items ≡ text.old.items ++ decimal number) }
{
    let mut buffer = Buffer::new();
    text.extend_from_slice(buffer.format(number).as_bytes())?;
    Ok(())
}

// The place of a number among others, or how many there are.
fn place_or_len(ids: &[StepId], id: StepId) -> usize
    requires { IsRising ids.now }
    ensures { result ≡ position_or_len (nat_eq id) ids.now }
{
    match place_of(ids, id) {
        Some(place) => place,
        None => ids.len(),
    }
}

// The place of a number among others.
fn place_of(ids: &[StepId], id: StepId) -> Option<usize>
    requires { IsRising ids.now }
    ensures { result ≡ position (nat_eq id) ids.now }
{
    match ids.binary_search(&id) {
        Ok(place) => Some(place),
        Err(_) => None,
    }
}
