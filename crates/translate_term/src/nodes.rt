//! Trees that are made of the signature's symbols.
ghost use Rattle.std.specs.Prelude.{◌≡◌, ◌<◌, length, IfOk};
ghost use Rattle.lp_term.specs.Tables.{tree_at, Holds, Keeps};
ghost use Rattle.translate_spec.specs.Scopes.{filler as filler_of};

use common::Memory;
use holide_sig::call;
use holide_sig::symbols::{EQ, SELECT, TERM};
use lp_term::{LpId, LpNode, LpTable};

// Some term of a type: the choice of one that is itself.
pub(crate) fn filling(table: &mut LpTable, ty: LpId) -> Result<LpId, Memory>
    requires { ty.0 < length table.old }
    ensures made { IfOk result (λ r. Holds table.new r.0 (filler_of (tree_at table.old ty.0))) }
    ensures keeps { Keeps table.old table.new }
{
    let lifted = table.lift(1, ty)?;
    let variable = table.node(LpNode::Var(0))?;
    let equation = call(table, EQ, &[lifted, variable, variable])?;
    let domain = call(table, TERM, &[ty])?;
    let test = table.node(LpNode::Lam(domain, equation))?;
    call(table, SELECT, &[ty, test])
}
