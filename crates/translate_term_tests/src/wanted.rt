//! The trees that a text reads as, and whether a tree is one of them.
ghost use Rattle.std.specs.Prelude.{◌<◌, length, IfOk, IfSome};
ghost use Rattle.holide_sig.specs.Modules.{IsHeld};

use dk_read::{DkFault, Limit, Reader};
use holide_sig::{Module, PRELUDE};
use lp_term::{LpId, LpNode, LpTable};
use std::alloc::Global;

/// The declaration of the input constant.
const INPUT: &[u8] = b"i_u : v0 : type -> term v0.\n";

/// Where a tree stands in the type of a declaration.
#[derive(Clone, Copy)]
pub(crate) enum Place {
    /// It is the type.
    Whole,
    /// It stands under the type's binder.
    Inside,
}

// The module of a text after the input constant.
fn read(alloc: Global, text: &[u8]) -> Result<Module, DkFault>
    ensures { IfOk result IsHeld }
{
    let mut reader = Reader::new(alloc, Limit::Free);
    reader.feed(PRELUDE)?;
    reader.feed(INPUT)?;
    reader.feed(text)?;
    reader.finish()
}

// The type of the last declaration.
fn last_type(base: &Module) -> Option<LpId>
    requires { IsHeld base.now }
    ensures { IfSome result (λ id. id.0 < length base.now.table) }
{
    let last = base.decls.len().checked_sub(1)?;
    Some(base.decls.get(last).ty)
}

// What stands under a product's binder; another tree itself.
fn inside(table: &LpTable, id: LpId) -> LpId
    requires { id.0 < length table.now }
    ensures { result.0 < length table.now }
{
    match table.view(id) {
        LpNode::Pi(_, body) => body,
        _ => id,
    }
}

// Whether two trees are the same.
fn same(made: &LpTable, id: LpId, wanted: &LpTable, other: LpId) -> bool
    requires made { id.0 < length made.now }
    requires wanted { other.0 < length wanted.now }
{
    match (made.view(id), wanted.view(other)) {
        (LpNode::App(f, x), LpNode::App(g, y)) => same(made, f, wanted, g)
            && same(made, x, wanted, y),
        (LpNode::Lam(a, b), LpNode::Lam(c, d)) => same(made, a, wanted, c)
            && same(made, b, wanted, d),
        (LpNode::Pi(a, b), LpNode::Pi(c, d)) => same(made, a, wanted, c)
            && same(made, b, wanted, d),
        (one, two) => one == two,
    }
}

// The tree of the last declaration at a place.
fn tree_of(base: &Module, place: Place) -> Option<LpId>
    requires { IsHeld base.now }
    ensures { IfSome result (λ id. id.0 < length base.now.table) }
{
    let ty = last_type(base)?;
    match place {
        Place::Whole => Some(ty),
        Place::Inside => Some(inside(&base.table, ty)),
    }
}

// Whether the tree is that of the last declaration at a place.
fn is_tree_of(made: &LpTable, id: LpId, base: &Module, place: Place) -> bool
    requires made { id.0 < length made.now }
    requires held { IsHeld base.now }
{
    match tree_of(base, place) {
        Some(ty) => same(made, id, &base.table, ty),
        None => false,
    }
}

/// Whether the tree is that of the text's last declaration at a place.
pub(crate) fn is_wanted(alloc: Global, made: &LpTable, id: LpId, text: &[u8], place: Place) -> bool
    requires { id.0 < length made.now }
{
    match read(alloc, text) {
        Ok(base) => {
            let is = is_tree_of(made, id, &base, place);
            drop(base);
            is
        }
        Err(_) => false,
    }
}
