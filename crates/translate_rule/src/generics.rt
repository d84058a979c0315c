//! What stands under the binders of a generic type's variables.
ghost use Rattle.std.specs.Prelude.{◌≡◌, ◌<◌, [], length, replicate, IfOk};
ghost use Rattle.lp_spec.specs.Modules.{abstractions, products, term_of as terms_of, types as simple_types};
ghost use Rattle.lp_spec.specs.Trees.{Pi, Var};
ghost use Rattle.lp_term.specs.Tables.{tree_at, Holds, Keeps};
ghost use Rattle.translate_spec.specs.Scopes.{under_types, unfilled};
ghost use Rattle.translate_proof.specs.Environments.{TellTypes};

use common::Memory;
use hol_name::Name;
use holide_sig::symbols::{TERM, TYPE};
use lp_term::{LpId, LpNode, LpTable};
use std::alloc::Global;
use translate_proof::place_types;
use translate_term::Scope;

// The type of simple types.
fn simple_type(table: &mut LpTable) -> Result<LpId, Memory>
    ensures made { IfOk result (λ r. Holds table.new r.0 simple_types) }
    ensures known { IfOk result (λ r. r.0 < length table.new) }
    ensures keeps { Keeps table.old table.new }
{
    table.node(LpNode::Sym(TYPE))
}

// The terms of a type.
pub(crate) fn terms(table: &mut LpTable, ty: LpId) -> Result<LpId, Memory>
    requires { ty.0 < length table.old }
    ensures made { IfOk result (λ r. Holds table.new r.0 (terms_of (tree_at table.old ty.0))) }
    ensures known { IfOk result (λ r. r.0 < length table.new) }
    ensures keeps { Keeps table.old table.new }
{
    let head = table.node(LpNode::Sym(TERM))?;
    table.node(LpNode::App(head, ty))
}

// The terms of each type: the declared type of an input constant.
pub(crate) fn terms_of_all(table: &mut LpTable) -> Result<LpId, Memory>
    ensures made { IfOk result (λ r. Holds table.new r.0 (Pi simple_types (terms_of (Var 0)))) }
    ensures known { IfOk result (λ r. r.0 < length table.new) }
    ensures keeps { Keeps table.old table.new }
{
    let variable = table.node(LpNode::Var(0))?;
    let inside = terms(table, variable)?;
    over_types(table, 1, inside)
}

// The declared type of an operator with so many arguments: over that many simple types, the type of simple types.
pub(crate) fn operator_type(table: &mut LpTable, arity: usize) -> Result<LpId, Memory>
    ensures made { IfOk result (λ r. Holds table.new r.0 (products (replicate arity simple_types) simple_types)) }
    ensures known { IfOk result (λ r. r.0 < length table.new) }
    ensures keeps { Keeps table.old table.new }
{
    let end = simple_type(table)?;
    over_types(table, arity, end)
}

// The product over so many simple types.
pub(crate) fn over_types(table: &mut LpTable, count: usize, inside: LpId) -> Result<LpId, Memory>
    requires { inside.0 < length table.old }
    ensures made { IfOk result (λ r. Holds table.new r.0 (products (replicate count simple_types) (tree_at table.old inside.0))) }
    ensures known { IfOk result (λ r. r.0 < length table.new) }
    ensures keeps { Keeps table.old table.new }
{
    let mut product = inside;
    let mut left = count;
    while left > 0 {
        left -= 1;
        let domain = simple_type(table)?;
        product = table.node(LpNode::Pi(domain, product))?;
    }
    Ok(product)
}

// The abstraction over so many simple types.
pub(crate) fn at_types(table: &mut LpTable, count: usize, body: LpId) -> Result<LpId, Memory>
    requires { body.0 < length table.old }
    ensures made { IfOk result (λ r. Holds table.new r.0 (abstractions (replicate count simple_types) (tree_at table.old body.0))) }
    ensures known { IfOk result (λ r. r.0 < length table.new) }
    ensures keeps { Keeps table.old table.new }
{
    let mut abstraction = body;
    let mut left = count;
    while left > 0 {
        left -= 1;
        let domain = simple_type(table)?;
        abstraction = table.node(LpNode::Lam(domain, abstraction))?;
    }
    Ok(abstraction)
}

// What stands for type variables under a binder for each, the first outermost.
pub(crate) fn type_scope(
    alloc: Global,
    table: &mut LpTable,
    names: &[Name],
) -> Result<Scope, Memory>
    ensures made { IfOk result (λ scope. TellTypes table.new scope.types (under_types names.now unfilled)) }
    ensures terms { IfOk result (λ scope. scope.terms ≡ []) }
    ensures keeps { Keeps table.old table.new }
{
    let mut scope = Scope::new(alloc);
    place_types(&mut scope.types, table, names, names.len() as u128)?;
    Ok(scope)
}
