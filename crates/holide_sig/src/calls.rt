//! Trees that are made of symbols at arguments.
ghost use Rattle.std.specs.Prelude.{◌≡◌, ◌<◌, length, IfOk};
ghost use Rattle.lp_spec.specs.Trees.{Sym};
ghost use Rattle.lp_spec.specs.Modules.{applied};
ghost use Rattle.lp_term.specs.Tables.{tree_at, trees_at, AreKnown, Holds, Keeps};

use common::Memory;
use lp_term::{LpId, LpNode, LpTable};

/// A tree applied to arguments, the first innermost.
pub fn apply(table: &mut LpTable, head: LpId, args: &[LpId]) -> Result<LpId, Memory>
    requires head { head.0 < length table.old }
    requires args { AreKnown table.old args.now }
    ensures made { IfOk result (λ r. Holds table.new r.0 (applied (tree_at table.old head.0) (trees_at table.old args.now))) }
    ensures keeps { Keeps table.old table.new }
{
    let mut made = head;
    for arg in args {
        made = table.node(LpNode::App(made, *arg))?;
    }
    Ok(made)
}

/// A symbol applied to arguments.
pub fn call(table: &mut LpTable, symbol: usize, args: &[LpId]) -> Result<LpId, Memory>
    requires { AreKnown table.old args.now }
    ensures made { IfOk result (λ r. Holds table.new r.0 (applied (Sym symbol) (trees_at table.old args.now))) }
    ensures keeps { Keeps table.old table.new }
{
    let head = table.node(LpNode::Sym(symbol))?;
    apply(table, head, args)
}
