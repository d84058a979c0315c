//! The declarations of a folded module, over the trees that were made anew.
ghost use Rattle.std.specs.Prelude.{◌≡◌, ℕ, ◌<◌, ◌≤◌, ◌+◌, ◌^◌, ◌∷◌, [], List, length, slice_get, Some, IfOk, OnOk};
ghost use Rattle.lp_spec.specs.Trees.{Tree};
ghost use Rattle.lp_spec.specs.Modules.{Declaration};
ghost use Rattle.share_spec.specs.MovedTrees.{moved_declaration};
ghost use Rattle.share_spec.specs.Folded.{declarations};
ghost use Rattle.holide_sig.specs.Modules.{declaration_in, IsHeld};
ghost use Rattle.share.specs.Counts.{AreBelow, IsBelow, IsBodyBelow};
ghost use Rattle.share.specs.Declaring.{abbreviation_of, declaration_of, number_after, IsMadeBody, AddsMade, IsMadeAnywhere, IsMadeFrom, MayAllBeMade, MayBeMade};
ghost use Rattle.share.specs.Listings.{entry_in, entries_from, entry_of, AreListed, IsListed};
ghost use Rattle.share.specs.Moving.{AreMade};

use crate::listing::Listed;
use crate::naming::{copied, short_name};
use common::Memory;
use holide_sig::{Decl, Form, Module};
use lp_term::LpId;
use std::alloc::Global;

// The number of what is made of a tree.
fn made_tree(made: &[LpId], id: LpId) -> LpId
    requires { id.0 < length made.now }
    ensures { slice_get made.now id.0 ≡ Some result }
{
    made[id.0]
}

// The number of what is made of a body.
fn made_body(made: &[LpId], body: Option<LpId>) -> Option<LpId>
    requires { IsBodyBelow (length made.now) body }
    ensures { (place : ℕ → ℕ) (source target : List Tree) → AreMade place source target made.now → IsMadeBody place source target body result }
{
    match body {
        Some(id) => Some(made_tree(made, id)),
        None => None,
    }
}

// The declaration over what was made of its trees.
fn kept(alloc: Global, decl: &Decl, made: &[LpId]) -> Result<Decl, Memory>
    requires { IsBelow (length made.now) decl.now }
    ensures { IfOk result (IsMadeAnywhere made.now (λ place source. moved_declaration place (declaration_in source decl.now))) }
{
    let name = copied(alloc, decl.name.as_bytes())?;
    Ok(Decl {
        name,
        form: decl.form,
        ty: made_tree(made, decl.ty),
        body: made_body(made, decl.body),
    })
}

// The abbreviation of that number of a tree, with its type, over what was made of them.
fn abbreviated(
    alloc: Global,
    made: &[LpId],
    body: LpId,
    ty: LpId,
    number: usize,
) -> Result<Decl, Memory>
    requires body { body.0 < length made.now }
    requires ty { ty.0 < length made.now }
    ensures { IfOk result (IsMadeAnywhere made.now (λ place source. abbreviation_of place source body ty number)) }
{
    let name = short_name(alloc, number)?;
    Ok(Decl {
        name,
        form: Form::Def,
        ty: made_tree(made, ty),
        body: Some(made_tree(made, body)),
    })
}

// The declaration that an entry is, where so many abbreviations come before it.
fn declared(
    alloc: Global,
    source: &Module,
    made: &[LpId],
    entry: Listed,
    number: usize,
) -> Result<Decl, Memory>
    requires below { AreBelow (length made.now) source.now.decls }
    requires listed { IsListed (length source.now.decls) (length made.now) (length made.now) entry }
    ensures { IfOk result (IsMadeFrom source.now.table made.now (λ place. declaration_of place number (entry_of source.now entry))) }
{
    match entry {
        Listed::Kept(i) => kept(alloc, source.decls.get(i), made),
        Listed::Abbreviated(body, ty) => abbreviated(alloc, made, body, ty, number),
    }
}

// Declares what an entry is, where so many abbreviations come before it.
fn declare_one(
    alloc: Global,
    source: &Module,
    made: &[LpId],
    entry: Listed,
    number: usize,
    target: &mut Module,
) -> Result<(), Memory>
    requires below { AreBelow (length made.now) source.now.decls }
    requires listed { IsListed (length source.now.decls) (length made.now) (length made.now) entry }
    requires held { IsHeld target.old }
    requires follows { MayBeMade source.now target.old made.now (λ place. declaration_of place number (entry_of source.now entry)) }
    ensures table { target.new.table ≡ target.old.table }
    ensures held { OnOk result (IsHeld target.new) }
    ensures declared { OnOk result (AddsMade source.now target.old target.new made.now
        (λ place. declaration_of place number (entry_of source.now entry) ∷ [])) }
{
    let decl = declared(alloc, source, made, entry, number)?;
    target.push(decl)
}

// How many abbreviations there are once an entry is declared.
fn next_number(entry: Listed, number: usize) -> usize
    requires { number < 2 ^ 63 }
    ensures is { (m : List Declaration) (trees : List Tree) → result ≡ number_after number (entry_in m trees entry) }
    ensures near { result ≤ number + 1 }
{
    match entry {
        Listed::Kept(_) => number,
        Listed::Abbreviated(..) => number + 1,
    }
}

/// Declares what entries are, over what was made of their trees.
pub(crate) fn declare(
    alloc: Global,
    source: &Module,
    made: &[LpId],
    entries: &[Listed],
    target: &mut Module,
) -> Result<(), Memory>
    requires below { AreBelow (length made.now) source.now.decls }
    requires listed { AreListed (length source.now.decls) (length made.now) (length made.now) entries.now }
    requires held { IsHeld target.old }
    requires follow { MayAllBeMade source.now target.old made.now (λ place. declarations place 0 (entries_from source.now entries.now)) }
    ensures held { OnOk result (IsHeld target.new) }
    ensures declared { OnOk result (AddsMade source.now target.old target.new made.now (λ place. declarations place 0 (entries_from source.now entries.now))) }
{
    let mut number = 0;
    for i in 0..entries.len() {
        declare_one(alloc, source, made, entries[i], number, target)?;
        number = next_number(entries[i], number);
    }
    Ok(())
}
