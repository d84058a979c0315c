//! Trees that are made of symbols.
ghost use Rattle.std.specs.Prelude.{◌<◌, ◌∷◌, [], length, IfOk};
ghost use Rattle.lp_spec.specs.Modules.{abstractions, applied};
ghost use Rattle.lp_spec.specs.Trees.{App, Lam, Sym, Var};
ghost use Rattle.lp_term.specs.Tables.{tree_at, trees_at, AreKnown, Holds, Keeps};
ghost use Rattle.translate_proof.specs.Abstractions.{AreDomains, IsAbstracted};

use common::Memory;
use holide_sig::call;
use lp_term::{LpId, LpNode, LpTable};
use std::alloc::Global;

// A tree at the variable of a binder round it.
pub(crate) fn at_variable(table: &mut LpTable, head: LpId) -> Result<LpId, Memory>
    requires { head.0 < length table.old }
    ensures made { IfOk result (λ r. Holds table.new r.0 (App (tree_at table.old head.0) (Var 0))) }
    ensures keeps { Keeps table.old table.new }
{
    let variable = table.node(LpNode::Var(0))?;
    table.node(LpNode::App(head, variable))
}

// An abstraction over what a symbol gives at an index: the terms of a type, or the proofs of a formula.
pub(crate) fn abstraction(
    table: &mut LpTable,
    family: usize,
    index: LpId,
    body: LpId,
) -> Result<LpId, Memory>
    requires index { index.0 < length table.old }
    requires body { body.0 < length table.old }
    ensures made { IfOk result (λ r. Holds table.new r.0 (Lam (applied (Sym family) (tree_at table.old index.0 ∷ [])) (tree_at table.old body.0))) }
    ensures keeps { Keeps table.old table.new }
{
    let domain = call(table, family, &[index])?;
    table.node(LpNode::Lam(domain, body))
}

/// A body under the binders of the first products of a type, so many.
pub fn abstracted(
    alloc: Global,
    table: &mut LpTable,
    ty: LpId,
    count: u128,
    body: LpId,
) -> Result<LpId, Memory>
    requires ty { ty.0 < length table.old }
    requires body { body.0 < length table.old }
    ensures made { IfOk result (IsAbstracted table.old table.new ty count body) }
    ensures known { IfOk result (λ r. r.0 < length table.new) }
    ensures keeps { Keeps table.old table.new }
{
    let domains = domains(alloc, table, ty, count)?;
    over(table, &domains, body)
}

// A body under binders of these domains, the first outermost.
fn over(table: &mut LpTable, domains: &[LpId], body: LpId) -> Result<LpId, Memory>
    requires domains { AreKnown table.old domains.now }
    requires body { body.0 < length table.old }
    ensures made { IfOk result (λ r. Holds table.new r.0 (abstractions (trees_at table.old domains.now) (tree_at table.old body.0))) }
    ensures keeps { Keeps table.old table.new }
{
    let mut made = body;
    let mut rest = domains;
    while let [front @ .., last] = rest {
        made = table.node(LpNode::Lam(*last, made))?;
        rest = front;
    }
    Ok(made)
}

// The domains of the first products of a type, so many.
fn domains(alloc: Global, table: &LpTable, ty: LpId, count: u128) -> Result<Vec<LpId>, Memory>
    requires { ty.0 < length table.now }
    ensures known { IfOk result (λ ids. AreKnown table.now ids.items) }
    ensures are { IfOk result (λ ids. AreDomains table.now ty count ids.items) }
{
    let mut domains = Vec::new(alloc);
    let mut rest = ty;
    for _place in 0..count {
        let LpNode::Pi(domain, inside) = table.view(rest) else {
            return Ok(domains);
        };
        domains.push(domain)?;
        rest = inside;
    }
    Ok(domains)
}
