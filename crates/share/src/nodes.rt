//! The parts of nodes.
ghost use Rattle.std.specs.Prelude.{◌≡◌};
ghost use Rattle.share.specs.NodeParts.{parts_of};

use lp_term::{LpId, LpNode};

/// The two parts of a node, if it has parts.
pub(crate) fn two_parts(node: LpNode) -> Option<(LpId, LpId)>
    ensures { result ≡ parts_of node }
{
    match node {
        LpNode::App(first, second) | LpNode::Lam(first, second) | LpNode::Pi(first, second) => {
            Some((first, second))
        }
        LpNode::SortType | LpNode::SortKind | LpNode::Var(_) | LpNode::Sym(_) => None,
    }
}
