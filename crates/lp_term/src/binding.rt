//! A table of lambda-Pi trees as a table of trees with numbers for bound variables.
ghost use Rattle.lp_spec.specs.Trees.{Tree, lift as lift_tree, put_at, put_all as put_all_trees};
ghost use Rattle.lp_binding_laws.specs.Binding as laws;
ghost use Rattle.lp_term.specs.Tables.{Holds};
ghost use Rattle.lp_term.specs.BindingLaws.{put_list_puts as puts_law, one_tree as one_tree_law};

use crate::{LpId, LpTable};
use common::{Binding, Memory};

impl Binding for LpTable {
    type Id = LpId;

    type Fault = Memory;

    ghost Tree = { Tree };

    ghost holds = { λ table id t. Holds table id.0 t };

    ghost lifted = { lift_tree };

    ghost put_under = { put_at };

    ghost put_list = { put_all_trees };

    fn lift(&mut self, k: u128, id: LpId) -> Result<LpId, Memory> {
        LpTable::lift(self, k, id)
    }

    fn put(&mut self, arg: LpId, body: LpId) -> Result<LpId, Memory> {
        LpTable::put(self, arg, body)
    }

    fn put_all(&mut self, args: &[LpId], body: LpId) -> Result<LpId, Memory> {
        LpTable::put_all(self, args, body)
    }

    ghost lift_twice = { laws.lift-lift };

    ghost put_into_lifted = { laws.put-lift };

    ghost put_into_put = { laws.put_at-put };

    ghost put_list_puts = { puts_law };

    ghost one_tree = { one_tree_law };
}
