//! The entries of a folded module, by numbers: its declarations, and before each the abbreviations of what is shared and first occurs in it.
ghost use Rattle.std.specs.Prelude.{◌≡◌, ℕ, ◌<◌, ◌≤◌, ◌∷◌, [], nat_eq, List, length, map, take, drop, Some, OnOk};
ghost use Rattle.indexmap.specs.IndexMap.{get};
ghost use Rattle.lp_spec.specs.Trees.{Tree};
ghost use Rattle.lp_spec.specs.Modules.{Declaration};
ghost use Rattle.lp_spec.specs.ModuleOrder.{IsModule};
ghost use Rattle.lp_term.specs.Tables.{tree_at, trees_at, Keeps};
ghost use Rattle.holide_sig.specs.Modules.{declaration_in, declarations_of};
ghost use Rattle.share_spec.specs.Folded.{kept};
ghost use Rattle.share.specs.Counts.{AreBelow, IsBelow};
ghost use Rattle.share.specs.Asking.{IsAsking};
ghost use Rattle.share.specs.Meetings.{visited_in, met_in, AreIdsBelow, IsMeeting};
ghost use Rattle.share.specs.Listings.{entries_in, listed_from, shared_in, AreListed, IsListing, AddsAbbreviation, ListsCounted, ListsDeclaration, MeetsDeclaration};

use crate::abbreviation::abbreviation;
use crate::order::{Meeting, visit};
use crate::places::is_twice;
use crate::typing::Answers;
use common::{Memory, Stack};
use holide_sig::{Decl, Module};
use lp_term::{LpId, LpTable};

/// What stands in a folded module, by numbers before it is folded: a declaration, or an abbreviation of a tree, with its type.
#[derive(Clone, Copy)]
pub(crate) enum Listed {
    Kept(usize),
    Abbreviated(LpId, LpId),
}

/// Questions for types over a module with their answers, and the entries so far.
#[derive(Drop)]
pub(crate) struct Listing {
    pub(crate) answers: Answers,
    pub(crate) waiting: Stack<LpId>,
    pub(crate) entries: Vec<Listed>,
}

// Lists the abbreviation of a tree, if it can be abbreviated.
fn list_abbreviation(source: &mut Module, id: LpId, listing: &mut Listing) -> Result<(), Memory>
    requires asking { IsAsking source.old (get nat_eq listing.old.answers) listing.old.waiting }
    requires known { id.0 < length source.old.table }
    ensures decls { source.new.decls ≡ source.old.decls }
    ensures keeps { Keeps source.old.table source.new.table }
    ensures asking { OnOk result (IsAsking source.new (get nat_eq listing.new.answers) listing.new.waiting) }
    ensures adds { OnOk result (AddsAbbreviation source.old source.new listing.old listing.new id) }
{
    let ty = abbreviation(source, &mut listing.answers, &mut listing.waiting, id)?;
    match ty {
        Some(ty) => {
            listing.entries.push(Listed::Abbreviated(id, ty))?;
            Ok(())
        }
        None => Ok(()),
    }
}

// Lists the abbreviation of a tree, if it is shared.
fn list_shared(
    source: &mut Module,
    counts: &[u8],
    id: LpId,
    listing: &mut Listing,
) -> Result<(), Memory>
    requires listing { IsListing source.old (length counts.now) listing.old }
    requires known { id.0 < length counts.now }
    ensures decls { source.new.decls ≡ source.old.decls }
    ensures keeps { Keeps source.old.table source.new.table }
    ensures listing { OnOk result (IsListing source.new (length counts.now) listing.new) }
    ensures more { OnOk result (ListsCounted source.old source.new counts.now listing.old listing.new
        (λ m all. shared_in m all (tree_at source.old.table id.0 ∷ []))) }
{
    if is_twice(counts, id) {
        list_abbreviation(source, id, listing)
    } else {
        Ok(())
    }
}

// Lists the abbreviations of the trees from a place on that are shared.
fn list_new(
    source: &mut Module,
    counts: &[u8],
    order: &[LpId],
    from: usize,
    listing: &mut Listing,
) -> Result<(), Memory>
    requires listing { IsListing source.old (length counts.now) listing.old }
    requires known { AreIdsBelow (length counts.now) order.now }
    requires from { from ≤ length order.now }
    ensures decls { source.new.decls ≡ source.old.decls }
    ensures keeps { Keeps source.old.table source.new.table }
    ensures listing { OnOk result (IsListing source.new (length counts.now) listing.new) }
    ensures more { OnOk result (ListsCounted source.old source.new counts.now listing.old listing.new
        (λ m all. shared_in m all (trees_at source.old.table (drop from order.now)))) }
{
    for i in from..order.len() {
        list_shared(source, counts, order[i], listing)?;
    }
    Ok(())
}

// Meets the trees of a declaration.
fn visit_declaration(table: &LpTable, decl: &Decl, meeting: &mut Meeting) -> Result<(), Memory>
    requires meeting { IsMeeting table.now meeting.old.met.items meeting.old.order.items }
    requires known { IsBelow (length meeting.old.met.items) decl.now }
    requires begun { meeting.old.turns ≡ [] }
    ensures order { OnOk result (met_in table.now meeting.new ≡ visited_in (met_in table.now meeting.old) (declaration_in table.now decl.now)) }
    ensures meeting { OnOk result (IsMeeting table.now meeting.new.met.items meeting.new.order.items) }
    ensures length { OnOk result (length meeting.new.met.items ≡ length meeting.old.met.items) }
    ensures ended { OnOk result (meeting.new.turns ≡ []) }
{
    visit(table, decl.ty, meeting)?;
    match decl.body {
        Some(body) => visit(table, body, meeting),
        None => Ok(()),
    }
}

// Lists a declaration, after the abbreviations of what is shared and first occurs in it.
fn list_declaration(
    source: &mut Module,
    counts: &[u8],
    number: usize,
    meeting: &mut Meeting,
    listing: &mut Listing,
) -> Result<(), Memory>
    requires listing { IsListing source.old (length counts.now) listing.old }
    requires number { number < length source.old.decls }
    requires below { AreBelow (length counts.now) source.old.decls }
    requires meeting { IsMeeting source.old.table meeting.old.met.items meeting.old.order.items }
    requires length { length meeting.old.met.items ≡ length counts.now }
    requires begun { meeting.old.turns ≡ [] }
    ensures decls { source.new.decls ≡ source.old.decls }
    ensures keeps { Keeps source.old.table source.new.table }
    ensures listing { OnOk result (IsListing source.new (length counts.now) listing.new) }
    ensures meeting { OnOk result (IsMeeting source.new.table meeting.new.met.items meeting.new.order.items) }
    ensures length { OnOk result (length meeting.new.met.items ≡ length counts.now) }
    ensures ended { OnOk result (meeting.new.turns ≡ []) }
    ensures more { OnOk result (ListsDeclaration source.old source.new number counts.now meeting.old listing.old listing.new) }
    ensures met { OnOk result (MeetsDeclaration source.old source.new number meeting.old meeting.new) }
{
    let from = meeting.order.len();
    visit_declaration(&source.table, source.decls.get(number), meeting)?;
    list_new(source, counts, &meeting.order, from, listing)?;
    listing.entries.push(Listed::Kept(number))?;
    Ok(())
}

/// Lists the declarations from `first` on, each after the abbreviations of what is shared and first occurs in it.
pub(crate) fn list_rest(
    source: &mut Module,
    counts: &[u8],
    first: usize,
    meeting: &mut Meeting,
    listing: &mut Listing,
) -> Result<(), Memory>
    requires listing { IsListing source.old (length counts.now) listing.old }
    requires first { first ≤ length source.old.decls }
    requires below { AreBelow (length counts.now) source.old.decls }
    requires meeting { IsMeeting source.old.table meeting.old.met.items meeting.old.order.items }
    requires none { meeting.old.order.items ≡ [] }
    requires length { length meeting.old.met.items ≡ length counts.now }
    requires begun { meeting.old.turns ≡ [] }
    ensures decls { source.new.decls ≡ source.old.decls }
    ensures keeps { Keeps source.old.table source.new.table }
    ensures listing { OnOk result (IsListing source.new (length counts.now) listing.new) }
    ensures listed { OnOk result (IsModule (declarations_of source.old)
        → ListsCounted source.old source.new counts.now listing.old listing.new (λ m all. listed_from m all first)) }
{
    for i in first..source.decls.len() {
        list_declaration(source, counts, i, meeting, listing)?;
    }
    Ok(())
}

/// Lists the first declarations.
pub(crate) fn list_kept(count: usize, entries: &mut Vec<Listed>) -> Result<(), Memory>
    requires none { entries.old.items ≡ [] }
    ensures listed { OnOk result ((m : List Declaration) (trees : List Tree) → count ≤ length m → entries_in m trees entries.new.items ≡ map kept (take count m)) }
    ensures known { OnOk result ((n bodies types : ℕ) → count ≤ n → AreListed n bodies types entries.new.items) }
{
    for i in 0..count {
        entries.push(Listed::Kept(i))?;
    }
    Ok(())
}
