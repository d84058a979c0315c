//! Makes a tree of so many distinct nodes, and lifts it or puts a tree into it: `bench lp_term CALL COUNT`, where CALL
//! is `node`, `lift` or `put`. What a call takes is the time of its run less that of `node`.

ghost use Rattle.std.specs.Prelude.{◌<◌, length, IfOk};

use common::Memory;
use lp_term::{LpId, LpNode, LpTable};
use std::io;

// A function applied to so many arguments, itself a loose variable.
fn applications(table: &mut LpTable, count: u32) -> Result<LpId, Memory>
    ensures known { IfOk result (λ id. id.0 < length table.new) }
{
    let sort = table.node(LpNode::SortType)?;
    let mut id = table.node(LpNode::Var(0))?;
    for _ in 0..count {
        id = table.node(LpNode::App(id, sort))?;
    }
    Ok(id)
}

// The size of what the call makes.
fn run(table: &mut LpTable, call: &str, count: u32) -> Result<u128, Memory> {
    let tree = applications(table, count)?;
    let made = match call {
        "lift" => table.lift(1, tree)?,
        "put" => {
            let symbol = table.node(LpNode::Sym(0))?;
            table.put(symbol, tree)?
        }
        _ => tree,
    };
    Ok(table.size(made))
}

/// Runs a call, and tells the size of what it makes.
pub(crate) fn timed(rt: &HostRuntime, call: &str, count: u32) -> io::Result<()> {
    let mut table = LpTable::new(rt.alloc());
    match run(&mut table, call, count) {
        Ok(size) => println!(rt; "{call} {count}: size {size}"),
        Err(memory) => println!(rt; "{memory}"),
    }
}
