//! At how many places each tree of a module stands: none, one, or more.
ghost use Rattle.std.specs.Prelude.{◌≡◌, ◌<◌, ◌≤◌, ◌+◌, List, length, min, max, drop, replicate, get_or, nat_le, set};
ghost use Rattle.lp_spec.specs.Trees.{Tree};
ghost use Rattle.lp_term.specs.Tables.{tree_at, IsDistinct};
ghost use Rattle.holide_sig.specs.Modules.{IsHeld, IsKnown};
ghost use Rattle.share_laws.specs.NumberedTrees.{down};
ghost use Rattle.share_laws.specs.PlacesByNodes.{direct, handed, passed};
ghost use Rattle.share.specs.Counts.{AreBelow, AreCounted, AreLower, IsBelow, IsLower, IsMore, Hands};

use crate::nodes::two_parts;
use holide_sig::{Decl, Module};
use lp_term::{LpId, LpTable};

/// A number above those of the trees of a module's declarations.
pub(crate) fn top(source: &Module) -> usize
    requires { IsHeld source.now }
    ensures above { AreBelow result source.now.decls }
    ensures within { result ≤ length source.now.table }
{
    let mut top = 0;
    for i in 0..source.decls.len() {
        top = top_with(&source.table, source.decls.get(i), top);
    }
    top
}

// The greater of this number and one above those of a declaration's trees.
fn top_with(table: &LpTable, decl: &Decl, top: usize) -> usize
    requires known { IsKnown table.now decl.now }
    requires within { top ≤ length table.now }
    ensures above { IsBelow result decl.now }
    ensures more { top ≤ result }
    ensures within { result ≤ length table.now }
{
    let ty = above(table, decl.ty, top);
    match decl.body {
        Some(body) => above(table, body, ty),
        None => ty,
    }
}

// The greater of this number and the one above that of a tree.
fn above(table: &LpTable, id: LpId, top: usize) -> usize
    requires { id.0 < length table.now }
    ensures { result ≡ max top (id.0 + 1) }
{
    // The table tells that its numbers are small.
    let _ = table.view(id);
    top.max(id.0 + 1)
}

/// Counts the places of trees in the declarations from `first` on.
pub(crate) fn count_places(source: &Module, first: usize, counts: &mut [u8])
    requires held { IsHeld source.now }
    requires first { first ≤ length source.now.decls }
    requires above { AreBelow (length counts.old) source.now.decls }
    requires within { length counts.old ≤ length source.now.table }
    requires none { counts.old ≡ replicate (length counts.old) 0 }
    ensures length { length counts.new ≡ length counts.old }
    ensures counted { AreCounted source.now.table (drop first source.now.decls) counts.new }
{
    for i in first..source.decls.len() {
        count_roots(source.decls.get(i), counts);
    }
    hand_down(&source.table, counts);
}

// Counts a place for a declaration's type and one for its body.
fn count_roots(decl: &Decl, counts: &mut [u8])
    requires { IsBelow (length counts.old) decl.now }
    ensures length { length counts.new ≡ length counts.old }
    ensures more { (trees : List Tree) → IsDistinct trees → length counts.old ≤ length trees → IsMore trees decl.now counts.old counts.new }
{
    hand(counts, decl.ty, 1);
    match decl.body {
        Some(body) => hand(counts, body, 1),
        None => (),
    }
}

// Hands the count of each tree to its direct parts, from the last tree to the first.
fn hand_down(table: &LpTable, counts: &mut [u8])
    requires { length counts.old ≤ length table.now }
    ensures length { length counts.new ≡ length counts.old }
    ensures lower { AreLower table.now (length counts.old) }
    ensures handed { Hands table.now counts.old counts.new (passed (down table.now (length counts.old))) }
{
    let mut left = counts.len();
    while left > 0 {
        left -= 1;
        hand_parts(table, LpId(left), counts);
    }
}

// Hands the count of a tree to its direct parts.
fn hand_parts(table: &LpTable, id: LpId, counts: &mut [u8])
    requires id { id.0 < length counts.old }
    requires within { length counts.old ≤ length table.now }
    ensures length { length counts.new ≡ length counts.old }
    ensures lower { IsLower table.now id.0 }
    ensures handed { Hands table.now counts.old counts.new
        (λ c. handed (direct (tree_at table.now id.0)) (c (tree_at table.now id.0)) c) }
{
    if let Some((first, second)) = two_parts(table.view(id)) {
        let count = counts[id.0];
        hand(counts, first, count);
        hand(counts, second, count);
    }
}

// Adds to a count, up to two.
fn hand(counts: &mut [u8], id: LpId, count: u8)
    requires { id.0 < length counts.old }
    ensures { counts.new ≡ set counts.old id.0 (min 2 (get_or counts.old id.0 0 + count)) }
{
    counts[id.0] = counts[id.0].saturating_add(count).min(2);
}

/// Whether the tree stands at two places or more, where its places were counted.
pub(crate) fn is_twice(counts: &[u8], id: LpId) -> bool
    ensures { result ≡ nat_le 2 (get_or counts.now id.0 0) }
{
    match counts.get(id.0) {
        Some(count) => *count >= 2,
        None => false,
    }
}
