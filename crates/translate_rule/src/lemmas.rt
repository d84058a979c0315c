//! The two lemmas with which each module begins.
ghost use Rattle.std.specs.Prelude.{◌≡◌, ◌<◌, ◌++◌, List, [], length, IfOk, IsTrue, OnOk};
ghost use Rattle.holide_sig.specs.Modules.{declarations_of, IsHeld};
ghost use Rattle.holide_sig.specs.Nodes.{trees_with};
ghost use Rattle.lp_spec.specs.Lemmas.{lemmas};
ghost use Rattle.lp_spec.specs.ModuleOrder.{MayFollow};
ghost use Rattle.lp_spec.specs.Modules.{signature};
ghost use Rattle.lp_spec.specs.Trees.{Tree};
ghost use Rattle.lp_term.specs.Tables.{trees_at, tree_of_node, AreKnown, Keeps, PartsBelow};
ghost use Rattle.translate_rule.specs.LemmaNodes.{are_ordered, theorem_at, with_theorem};

use common::Memory;
use holide_sig::{Decl, Form, Ident, Module};
use lp_term::{LpId, LpNode, LpTable};
use std::alloc::Global;

// The places of their types and bodies.
const SYM_TYPE: usize = 28;

const SYM_BODY: usize = 60;

const TRANS_TYPE: usize = 77;

const TRANS_BODY: usize = 100;

// What they consist of, each tree after its parts and none twice.
const NODES: [LpNode; 101] = [
    LpNode::Sym(0),
    LpNode::Sym(1),
    LpNode::Sym(3),
    LpNode::Sym(4),
    LpNode::Sym(5),
    LpNode::Sym(7),
    LpNode::Sym(8),
    LpNode::Sym(10),
    LpNode::Sym(12),
    LpNode::Var(0),
    LpNode::Var(1),
    LpNode::Var(2),
    LpNode::Var(3),
    LpNode::Var(4),
    LpNode::Var(5),
    // sym: its domains
    LpNode::App(LpId(3), LpId(9)),
    LpNode::App(LpId(3), LpId(10)),
    LpNode::App(LpId(4), LpId(11)),
    LpNode::App(LpId(17), LpId(10)),
    LpNode::App(LpId(18), LpId(9)),
    LpNode::App(LpId(5), LpId(19)),
    // sym: its type
    LpNode::App(LpId(4), LpId(12)),
    LpNode::App(LpId(21), LpId(10)),
    LpNode::App(LpId(22), LpId(11)),
    LpNode::App(LpId(5), LpId(23)),
    LpNode::Pi(LpId(20), LpId(24)),
    LpNode::Pi(LpId(16), LpId(25)),
    LpNode::Pi(LpId(15), LpId(26)),
    LpNode::Pi(LpId(0), LpId(27)),
    // sym: its body
    LpNode::App(LpId(21), LpId(11)),
    LpNode::App(LpId(29), LpId(11)),
    LpNode::App(LpId(2), LpId(12)),
    LpNode::App(LpId(31), LpId(1)),
    LpNode::App(LpId(31), LpId(32)),
    LpNode::App(LpId(6), LpId(33)),
    LpNode::App(LpId(34), LpId(21)),
    LpNode::App(LpId(7), LpId(12)),
    LpNode::App(LpId(36), LpId(32)),
    LpNode::App(LpId(37), LpId(21)),
    LpNode::App(LpId(38), LpId(21)),
    LpNode::App(LpId(39), LpId(11)),
    LpNode::App(LpId(40), LpId(10)),
    LpNode::App(LpId(41), LpId(35)),
    LpNode::App(LpId(42), LpId(9)),
    LpNode::App(LpId(6), LpId(12)),
    LpNode::App(LpId(44), LpId(11)),
    LpNode::App(LpId(36), LpId(1)),
    LpNode::App(LpId(46), LpId(29)),
    LpNode::App(LpId(47), LpId(22)),
    LpNode::App(LpId(48), LpId(11)),
    LpNode::App(LpId(49), LpId(11)),
    LpNode::App(LpId(50), LpId(43)),
    LpNode::App(LpId(51), LpId(45)),
    LpNode::App(LpId(8), LpId(30)),
    LpNode::App(LpId(53), LpId(23)),
    LpNode::App(LpId(54), LpId(52)),
    LpNode::App(LpId(55), LpId(45)),
    LpNode::Lam(LpId(20), LpId(56)),
    LpNode::Lam(LpId(16), LpId(57)),
    LpNode::Lam(LpId(15), LpId(58)),
    LpNode::Lam(LpId(0), LpId(59)),
    // trans: its domains
    LpNode::App(LpId(3), LpId(11)),
    LpNode::App(LpId(29), LpId(10)),
    LpNode::App(LpId(5), LpId(62)),
    LpNode::App(LpId(4), LpId(13)),
    LpNode::App(LpId(64), LpId(11)),
    LpNode::App(LpId(65), LpId(10)),
    LpNode::App(LpId(5), LpId(66)),
    // trans: its type
    LpNode::App(LpId(4), LpId(14)),
    LpNode::App(LpId(68), LpId(13)),
    LpNode::App(LpId(69), LpId(11)),
    LpNode::App(LpId(5), LpId(70)),
    LpNode::Pi(LpId(67), LpId(71)),
    LpNode::Pi(LpId(63), LpId(72)),
    LpNode::Pi(LpId(61), LpId(73)),
    LpNode::Pi(LpId(16), LpId(74)),
    LpNode::Pi(LpId(15), LpId(75)),
    LpNode::Pi(LpId(0), LpId(76)),
    // trans: its body
    LpNode::App(LpId(69), LpId(12)),
    LpNode::App(LpId(2), LpId(14)),
    LpNode::App(LpId(79), LpId(1)),
    LpNode::App(LpId(6), LpId(80)),
    LpNode::App(LpId(81), LpId(69)),
    LpNode::App(LpId(7), LpId(14)),
    LpNode::App(LpId(83), LpId(1)),
    LpNode::App(LpId(84), LpId(69)),
    LpNode::App(LpId(85), LpId(69)),
    LpNode::App(LpId(86), LpId(12)),
    LpNode::App(LpId(87), LpId(11)),
    LpNode::App(LpId(88), LpId(82)),
    LpNode::App(LpId(89), LpId(9)),
    LpNode::App(LpId(8), LpId(78)),
    LpNode::App(LpId(91), LpId(70)),
    LpNode::App(LpId(92), LpId(90)),
    LpNode::App(LpId(93), LpId(10)),
    LpNode::Lam(LpId(67), LpId(94)),
    LpNode::Lam(LpId(63), LpId(95)),
    LpNode::Lam(LpId(61), LpId(96)),
    LpNode::Lam(LpId(16), LpId(97)),
    LpNode::Lam(LpId(15), LpId(98)),
    LpNode::Lam(LpId(0), LpId(99)),
];

// Declares the lemmas.
pub(crate) fn declare_lemmas(alloc: Global, target: &mut Module) -> Result<(), Memory>
    requires held { IsHeld target.old }
    requires none { declarations_of target.old ≡ [] }
    ensures declared { OnOk result (declarations_of target.new ≡ lemmas) }
    ensures held { IsHeld target.new }
{
    let ids = add_nodes(alloc, &mut target.table, &NODES)?;
    declare(alloc, target, &ids, b"sym", SYM_TYPE, SYM_BODY)?;
    declare(alloc, target, &ids, b"trans", TRANS_TYPE, TRANS_BODY)
}

// Declares a theorem, whose type and body have the numbers at these places.
fn declare(
    alloc: Global,
    target: &mut Module,
    ids: &[LpId],
    name: &[u8],
    ty: usize,
    body: usize,
) -> Result<(), Memory>
    requires held { IsHeld target.old }
    requires known { AreKnown target.old.table ids.now }
    requires ty { ty < length ids.now }
    requires body { body < length ids.now }
    requires follows { MayFollow (signature ++ declarations_of target.old) (theorem_at (trees_at target.old.table ids.now) name.now ty body) }
    ensures declared { OnOk result (declarations_of target.new ≡ with_theorem (declarations_of target.old) (trees_at target.old.table ids.now) name.now ty body) }
    ensures table { target.new.table ≡ target.old.table }
    ensures held { IsHeld target.new }
{
    let name = Ident::new(Vec::from_slice(alloc, name)?);
    target.push(Decl {
        name,
        form: Form::Thm,
        ty: ids[ty],
        body: Some(ids[body]),
    })
}

// Adds the trees of nodes, whose parts are told by their places among them.
fn add_nodes(alloc: Global, table: &mut LpTable, nodes: &[LpNode]) -> Result<Vec<LpId>, Memory>
    requires { IsTrue (are_ordered 0 nodes.now) }
    ensures known { IfOk result (λ ids. AreKnown table.new ids.items) }
    ensures made { IfOk result (λ ids. trees_at table.new ids.items ≡ trees_with [] nodes.now) }
    ensures keeps { Keeps table.old table.new }
{
    let mut ids = Vec::new(alloc);
    for node in nodes {
        let id = table.node(numbered(*node, &ids))?;
        ids.push(id)?;
    }
    Ok(ids)
}

// A node with the numbers of its parts in place of their places.
fn numbered(node: LpNode, ids: &[LpId]) -> LpNode
    requires { PartsBelow (length ids.now) node }
    ensures known { (trees : List Tree) → AreKnown trees ids.now → PartsBelow (length trees) result }
    ensures made { (trees : List Tree) → AreKnown trees ids.now → tree_of_node trees result ≡ tree_of_node (trees_at trees ids.now) node }
{
    match node {
        LpNode::SortType | LpNode::SortKind | LpNode::Var(_) | LpNode::Sym(_) => node,
        LpNode::App(f, x) => LpNode::App(ids[f.0], ids[x.0]),
        LpNode::Lam(a, b) => LpNode::Lam(ids[a.0], ids[b.0]),
        LpNode::Pi(a, b) => LpNode::Pi(ids[a.0], ids[b.0]),
    }
}
