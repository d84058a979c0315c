//! Folds modules.
ghost use Rattle.std.specs.Prelude.{◌≡◌, ◌≤◌, [], false, length, drop, replicate, IfOk, OnOk};
ghost use Rattle.lp_spec.specs.ModuleOrder.{IsModule};
ghost use Rattle.lp_spec.specs.ShortNames.{NoneShort};
ghost use Rattle.lp_check_laws.specs.ShapedPasses.{AreShaped};
ghost use Rattle.lp_term.specs.Tables.{Keeps};
ghost use Rattle.holide_sig.specs.Modules.{declarations_of, IsHeld};
ghost use Rattle.share_spec.specs.Folded.{entries_of, folded};
ghost use Rattle.share.specs.Counts.{AreBelow, AreCounted};
ghost use Rattle.share.specs.Foldings.{HasBegun, AreEntries, AreKnownEntries};
ghost use Rattle.share.specs.Listings.{entries_in, AreListed};

use crate::declaring::declare;
use crate::listing::{Listed, Listing, list_kept, list_rest};
use crate::moving::make_moved;
use crate::order::Meeting;
use crate::places::{count_places, top};
use crate::placing::{above_types, kept_places};
use common::{Memory, Stack};
use holide_sig::Module;
use indexmap::IndexMap;
use lp_term::LpId;
use std::alloc::Global;

// How many declarations of a module nothing is abbreviated in: the two lemmas.
const LEMMAS: usize = 2;

// The places of declarations, and the numbers of what is made.
#[derive(Drop)]
struct Making {
    places: Vec<usize>,
    made: Vec<LpId>,
}

// What a fold works with: counts of places, what was met, what was listed, and what is made.
#[derive(Drop)]
struct Folding {
    counts: Vec<u8>,
    meeting: Meeting,
    listing: Listing,
    making: Making,
}

// So many counts of none.
fn fill_counts(counts: &mut Vec<u8>, count: usize) -> Result<(), Memory>
    requires { counts.old.items ≡ [] }
    ensures { OnOk result (counts.new.items ≡ replicate count 0) }
{
    for _i in 0..count {
        counts.push(0)?;
    }
    Ok(())
}

// So many flags that aren't set.
fn fill_flags(flags: &mut Vec<bool>, count: usize) -> Result<(), Memory>
    requires { flags.old.items ≡ [] }
    ensures { OnOk result (flags.new.items ≡ replicate count false) }
{
    for _i in 0..count {
        flags.push(false)?;
    }
    Ok(())
}

// Counts the places of trees in the declarations from `first` on.
fn count(source: &Module, first: usize, counts: &mut Vec<u8>) -> Result<(), Memory>
    requires held { IsHeld source.now }
    requires first { first ≤ length source.now.decls }
    requires none { counts.old.items ≡ [] }
    ensures above { OnOk result (AreBelow (length counts.new.items) source.now.decls) }
    ensures within { OnOk result (length counts.new.items ≤ length source.now.table) }
    ensures counted { OnOk result (AreCounted source.now.table (drop first source.now.decls) counts.new.items) }
{
    let count = top(source);
    fill_counts(counts, count)?;
    count_places(source, first, counts);
    Ok(())
}

// Lists the entries of a module.
fn list(source: &mut Module, folding: &mut Folding) -> Result<(), Memory>
    requires held { IsHeld source.old }
    requires is_module { IsModule (declarations_of source.old) }
    requires begun { HasBegun folding.old }
    ensures decls { source.new.decls ≡ source.old.decls }
    ensures keeps { Keeps source.old.table source.new.table }
    ensures below { OnOk result (AreBelow (length folding.new.counts.items) source.new.decls) }
    ensures within { OnOk result (length folding.new.counts.items ≤ length source.new.table) }
    ensures known { OnOk result (AreKnownEntries source.new folding.new) }
    ensures listed { OnOk result (AreEntries source.old source.new folding.new) }
    ensures making { folding.new.making ≡ folding.old.making }
{
    let first = source.decls.len().min(LEMMAS);
    count(source, first, &mut folding.counts)?;
    fill_flags(&mut folding.meeting.met, folding.counts.len())?;
    list_kept(first, &mut folding.listing.entries)?;
    list_rest(
        source,
        &folding.counts,
        first,
        &mut folding.meeting,
        &mut folding.listing,
    )
}

// Makes what the entries of a module are, in the module of no declaration.
fn make(
    alloc: Global,
    source: &Module,
    top: usize,
    entries: &[Listed],
    making: &mut Making,
    target: &mut Module,
) -> Result<(), Memory>
    requires held { IsHeld source.now }
    requires is_module { IsModule (declarations_of source.now) }
    requires long { NoneShort (declarations_of source.now) }
    requires shaped { AreShaped [] (declarations_of source.now) }
    requires below { AreBelow top source.now.decls }
    requires within { top ≤ length source.now.table }
    requires known { AreListed (length source.now.decls) top (length source.now.table) entries.now }
    requires listed { entries_in (declarations_of source.now) source.now.table entries.now ≡ entries_of (declarations_of source.now) }
    requires places { making.old.places.items ≡ [] }
    requires made { making.old.made.items ≡ [] }
    requires empty { target.old.decls ≡ [] }
    requires target { IsHeld target.old }
    ensures held { OnOk result (IsHeld target.new) }
    ensures folded { OnOk result (declarations_of target.new ≡ folded (declarations_of source.now)) }
{
    kept_places(entries, &mut making.places)?;
    let count = above_types(&source.table, entries, top);
    let more = entries.len() - source.decls.len();
    make_moved(
        &source.table,
        count,
        &making.places,
        more,
        &mut target.table,
        &mut making.made,
    )?;
    declare(alloc, source, &making.made, entries, target)
}

// The module of what the entries of a module are.
fn made_of(alloc: Global, source: &Module, folding: &mut Folding) -> Result<Module, Memory>
    requires held { IsHeld source.now }
    requires is_module { IsModule (declarations_of source.now) }
    requires long { NoneShort (declarations_of source.now) }
    requires shaped { AreShaped [] (declarations_of source.now) }
    requires below { AreBelow (length folding.old.counts.items) source.now.decls }
    requires within { length folding.old.counts.items ≤ length source.now.table }
    requires known { AreListed (length source.now.decls) (length folding.old.counts.items) (length source.now.table) folding.old.listing.entries.items }
    requires listed { entries_in (declarations_of source.now) source.now.table folding.old.listing.entries.items ≡ entries_of (declarations_of source.now) }
    requires places { folding.old.making.places.items ≡ [] }
    requires made { folding.old.making.made.items ≡ [] }
    ensures held { IfOk result IsHeld }
    ensures folded { IfOk result (λ m. declarations_of m ≡ folded (declarations_of source.now)) }
{
    let mut target = Module::new(alloc)?;
    // Nothing is looked for by its name.
    target.give_up_names();
    let count = folding.counts.len();
    make(
        alloc,
        source,
        count,
        &folding.listing.entries,
        &mut folding.making,
        &mut target,
    )?;
    Ok(target)
}

// The folded module of one whose table may grow.
fn fold_by(alloc: Global, source: &mut Module, folding: &mut Folding) -> Result<Module, Memory>
    requires held { IsHeld source.old }
    requires is_module { IsModule (declarations_of source.old) }
    requires long { NoneShort (declarations_of source.old) }
    requires shaped { AreShaped [] (declarations_of source.old) }
    requires begun { HasBegun folding.old }
    ensures held { IfOk result IsHeld }
    ensures folded { IfOk result (λ m. declarations_of m ≡ folded (declarations_of source.old)) }
{
    list(source, folding)?;
    made_of(alloc, source, folding)
}

/// The module with an abbreviation for each tree that can be abbreviated and occurs at two places.
pub fn fold(alloc: Global, module: Module) -> Result<Module, Memory>
    requires held { IsHeld «module» }
    requires is_module { IsModule (declarations_of «module») }
    requires long { NoneShort (declarations_of «module») }
    requires shaped { AreShaped [] (declarations_of «module») }
    ensures held { IfOk result IsHeld }
    ensures folded { IfOk result (λ m. declarations_of m ≡ folded (declarations_of «module»)) }
{
    let mut source = module;
    let mut folding = Folding {
        counts: Vec::new(alloc),
        meeting: Meeting {
            met: Vec::new(alloc),
            order: Vec::new(alloc),
            turns: Stack::new(alloc),
        },
        listing: Listing {
            answers: IndexMap::new(alloc),
            waiting: Stack::new(alloc),
            entries: Vec::new(alloc),
        },
        making: Making {
            places: Vec::new(alloc),
            made: Vec::new(alloc),
        },
    };
    let made = fold_by(alloc, &mut source, &mut folding);
    drop(folding);
    drop(source);
    made
}
