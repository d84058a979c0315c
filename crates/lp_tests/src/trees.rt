//! Lifting and putting in small trees.
//!
//! A test lends its table to the function that does the work, and lets it go after it: what is let go at the end of a
//! scope costs more to prove, at each end, than all that is done with it.
ghost use Rattle.std.specs.Prelude.{◌<◌, ◌≤◌, length, IfOk};
ghost use Rattle.lp_term.specs.Tables.{PartsBelow};

use common::{Binding, Memory};
use lp_term::{LpId, LpNode, LpTable};
use std::process::Abort;
use std::test::Fail;

// The tree of a node.
fn node(table: &mut LpTable, node: LpNode) -> Result<LpId, Memory>
    requires { PartsBelow (length table.old) node }
    ensures known { IfOk result (λ id. id.0 < length table.new) }
    ensures longer { length table.old ≤ length table.new }
{
    table.node(node)
}

fn lifts(rt: &impl Abort, table: &mut LpTable) -> Result<(), Memory> {
    let sort = node(table, LpNode::SortType)?;
    let zero = node(table, LpNode::Var(0))?;
    let one = node(table, LpNode::Var(1))?;
    let three = node(table, LpNode::Var(3))?;
    let body = node(table, LpNode::App(zero, one))?;
    let raised = node(table, LpNode::App(zero, three))?;
    let product = node(table, LpNode::Pi(sort, body))?;
    let wanted = node(table, LpNode::Pi(sort, raised))?;
    let lifted = table.lift(2, product)?;
    assert!(rt; lifted == wanted);
    assert!(rt; table.size(product) == 5);
    assert!(rt; table.depth(product) == 3);
    assert!(rt; table.view(product) == LpNode::Pi(sort, body));
    let again = node(table, LpNode::Pi(sort, body))?;
    assert!(rt; again == product);
    assert!(rt;
        table.lift(u128::MAX, one).is_err(),
        "2^128 is no number of a variable"
    );
    Ok(())
}

#[test]
fn lifts_loose_variables_alone(rt: HostRuntime) -> Result<(), Fail> {
    let mut table = LpTable::new(rt.alloc());
    let done = lifts(&rt, &mut table);
    drop(table);
    Ok(done?)
}

fn puts_one(rt: &impl Abort, table: &mut LpTable) -> Result<(), Memory> {
    let sort = node(table, LpNode::SortType)?;
    let one = node(table, LpNode::Var(1))?;
    let two = node(table, LpNode::Var(2))?;
    let five = node(table, LpNode::Var(5))?;
    let body = node(table, LpNode::App(one, two))?;
    let lowered = node(table, LpNode::App(five, one))?;
    let abstraction = node(table, LpNode::Lam(sort, body))?;
    let wanted = node(table, LpNode::Lam(sort, lowered))?;
    let four = node(table, LpNode::Var(4))?;
    let put = Binding::put(table, four, abstraction)?;
    assert!(rt; put == wanted);
    Ok(())
}

#[test]
fn puts_for_one_variable(rt: HostRuntime) -> Result<(), Fail> {
    let mut table = LpTable::new(rt.alloc());
    let done = puts_one(&rt, &mut table);
    drop(table);
    Ok(done?)
}

fn puts_two(rt: &impl Abort, table: &mut LpTable) -> Result<(), Memory> {
    let zero = node(table, LpNode::Var(0))?;
    let one = node(table, LpNode::Var(1))?;
    let two = node(table, LpNode::Var(2))?;
    let first = node(table, LpNode::Sym(7))?;
    let last = node(table, LpNode::Sym(8))?;
    let inner = node(table, LpNode::App(zero, one))?;
    let body = node(table, LpNode::App(inner, two))?;
    let pair = node(table, LpNode::App(last, first))?;
    let wanted = node(table, LpNode::App(pair, zero))?;
    let put = Binding::put_all(table, &[first, last], body)?;
    assert!(rt; put == wanted);
    Ok(())
}

#[test]
fn puts_the_last_for_the_innermost(rt: HostRuntime) -> Result<(), Fail> {
    let mut table = LpTable::new(rt.alloc());
    let done = puts_two(&rt, &mut table);
    drop(table);
    Ok(done?)
}

// So many abstractions round a variable that passes all of them.
fn abstractions(table: &mut LpTable, count: u32, variable: u128) -> Result<LpId, Memory>
    ensures known { IfOk result (λ id. id.0 < length table.new) }
    ensures longer { length table.old ≤ length table.new }
{
    let sort = node(table, LpNode::SortType)?;
    let mut id = node(table, LpNode::Var(variable))?;
    for _ in 0..count {
        id = node(table, LpNode::Lam(sort, id))?;
    }
    Ok(id)
}

fn walks_deep(rt: &impl Abort, table: &mut LpTable) -> Result<(), Memory> {
    let deep = abstractions(table, 1_000_000, 1_000_000)?;
    let risen = abstractions(table, 1_000_000, 1_000_007)?;
    let lifted = table.lift(7, deep)?;
    assert!(rt; lifted == risen);
    let seven = node(table, LpNode::Var(7))?;
    let put = table.put(seven, deep)?;
    assert!(rt; put == risen);
    assert!(rt; table.depth(put) == 1_000_001);
    Ok(())
}

#[test]
fn walks_a_deep_tree(rt: HostRuntime) -> Result<(), Fail> {
    let mut table = LpTable::new(rt.alloc());
    let done = walks_deep(&rt, &mut table);
    drop(table);
    Ok(done?)
}

// A tree of applications of a tree to itself, so many times.
fn doubled(table: &mut LpTable, times: u32, variable: u128) -> Result<LpId, Memory>
    ensures known { IfOk result (λ id. id.0 < length table.new) }
    ensures longer { length table.old ≤ length table.new }
{
    let mut id = node(table, LpNode::Var(variable))?;
    for _ in 0..times {
        id = node(table, LpNode::App(id, id))?;
    }
    Ok(id)
}

// Lifts by what `Binding` promises alone.
fn lifted_by<B: Binding>(table: &mut B, k: u128, id: B::Id) -> Result<B::Id, B::Fault>
    requires { (t : B.Tree) × B.holds table.old id t }
    ensures made { IfOk result (λ r. (t : B.Tree) → B.holds table.old id t → B.holds table.new r (B.lifted k t)) }
{
    table.lift(k, id)
}

fn walks_shared(rt: &impl Abort, table: &mut LpTable) -> Result<(), Memory> {
    let tree = doubled(table, 40, 0)?;
    assert!(rt; table.size(tree) == (1 << 41) - 1);
    let huge = doubled(table, 130, 5)?;
    assert!(rt; table.size(huge) == u128::MAX);
    let risen = doubled(table, 40, 9)?;
    let lifted = lifted_by(table, 9, tree)?;
    assert!(rt; lifted == risen);
    Ok(())
}

#[test]
fn walks_a_shared_tree_once(rt: HostRuntime) -> Result<(), Fail> {
    let mut table = LpTable::new(rt.alloc());
    let done = walks_shared(&rt, &mut table);
    drop(table);
    Ok(done?)
}
