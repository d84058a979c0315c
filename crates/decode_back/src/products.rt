//! What a product is of: its type variables, and the trees of its parts.
ghost use Rattle.std.specs.Prelude.{◌≡◌, ◌<◌, List, length, IfOk, IfSome};
ghost use Rattle.lp_spec.specs.Trees.{Tree};
ghost use Rattle.lp_term.specs.Tables as lp;
ghost use Rattle.lp_term.specs.Tables.{tree_at, trees_at};
ghost use Rattle.decode_spec.specs.Decode.{peel as peeled};
ghost use Rattle.decode_back.specs.SequentWalks.{ArePartsFound, ArePartsKnown};

use crate::constants::{peel_types, symbol_argument};
use common::Memory;
use holide_sig::symbols::{PROOF, TERM};
use lp_term::{LpId, LpNode, LpTable};
use std::alloc::Global;

/// What a product is of: how many type variables, and the trees of the free variables' types, of the hypotheses and of the conclusion.
#[derive(Drop)]
pub(crate) struct Parts {
    pub(crate) type_variables: usize,
    pub(crate) variables: Vec<LpId>,
    pub(crate) hypotheses: Vec<LpId>,
    pub(crate) conclusion: LpId,
}

// What a tree is the product of.
pub(crate) fn parts_of(alloc: Global, table: &LpTable, id: LpId) -> Result<Option<Parts>, Memory>
    requires { id.0 < length table.now }
    ensures parts { IfOk result (ArePartsFound table.now (tree_at table.now id.0)) }
    ensures known { IfOk result (λ found. IfSome found (ArePartsKnown table.now)) }
{
    let (type_variables, rest) = peel_types(table, id);
    let (variables, rest) = peel(alloc, table, TERM, rest)?;
    let (hypotheses, rest) = peel(alloc, table, PROOF, rest)?;
    let Some(conclusion) = symbol_argument(table, PROOF, rest) else {
        return Ok(None);
    };
    Ok(Some(Parts {
        type_variables,
        variables,
        hypotheses,
        conclusion,
    }))
}

// The arguments of a symbol in the domains with which a tree begins, and what the products over them end in.
fn peel(
    alloc: Global,
    table: &LpTable,
    symbol: usize,
    id: LpId,
) -> Result<(Vec<LpId>, LpId), Memory>
    requires { id.0 < length table.now }
    ensures peeled { IfOk result (λ r.
        ◌≡◌ {A = List Tree × Tree} (peeled symbol (tree_at table.now id.0)) (trees_at table.now r.0.items, tree_at table.now r.1.0)) }
    ensures parts { IfOk result (λ r. lp.AreKnown table.now r.0.items) }
    ensures known { IfOk result (λ r. r.1.0 < length table.now) }
{
    let mut parts = Vec::new(alloc);
    let mut rest = id;
    while let LpNode::Pi(domain, body) = table.view(rest) {
        let Some(part) = symbol_argument(table, symbol, domain) else {
            return Ok((parts, rest));
        };
        parts.push(part)?;
        rest = body;
    }
    Ok((parts, rest))
}
