//! The places of declarations among the entries of a folded module.
ghost use Rattle.std.specs.Prelude.{◌≡◌, ℕ, ◌≤◌, [], length, OnOk};
ghost use Rattle.share.specs.Listings.{AreListed, IsListed};
ghost use Rattle.share.specs.Placings.{kept_places as places_of};

use crate::listing::Listed;
use common::Memory;
use lp_term::LpTable;

/// The places of the declarations among entries.
pub(crate) fn kept_places(entries: &[Listed], places: &mut Vec<usize>) -> Result<(), Memory>
    requires none { places.old.items ≡ [] }
    ensures places { OnOk result (places.new.items ≡ places_of 0 entries.now) }
{
    for i in 0..entries.len() {
        if let Listed::Kept(_) = entries[i] {
            places.push(i)?;
        }
    }
    Ok(())
}

// The greater of this number and the one above that of an entry's type.
fn above_type(table: &LpTable, entry: Listed, top: usize) -> usize
    requires within { top ≤ length table.now }
    requires listed { (count : ℕ) × (bodies : ℕ) × IsListed count bodies (length table.now) entry }
    ensures more { top ≤ result }
    ensures within { result ≤ length table.now }
    ensures listed { (count bodies types : ℕ) → IsListed count bodies types entry → IsListed count bodies result entry }
{
    match entry {
        Listed::Kept(_) => top,
        Listed::Abbreviated(_, ty) => {
            // The table tells that its numbers are small.
            let _ = table.view(ty);
            top.max(ty.0 + 1)
        }
    }
}

/// A number above those of the types of entries, and not below this one.
pub(crate) fn above_types(table: &LpTable, entries: &[Listed], top: usize) -> usize
    requires within { top ≤ length table.now }
    requires listed { (count : ℕ) × (bodies : ℕ) × AreListed count bodies (length table.now) entries.now }
    ensures more { top ≤ result }
    ensures within { result ≤ length table.now }
    ensures listed { (count bodies types : ℕ) → AreListed count bodies types entries.now → AreListed count bodies result entries.now }
{
    let mut above = top;
    for i in 0..entries.len() {
        above = above_type(table, entries[i], above);
    }
    above
}
