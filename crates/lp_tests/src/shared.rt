//! Weights of trees that share their parts.
ghost use Rattle.std.specs.Prelude.{◌≡◌, ℕ, ◌<◌, ◌≤◌, ◌++◌, [], length, codes, IsFalse, IfOk, OnOk};
ghost use Rattle.lp_spec.specs.Modules.{signature};
ghost use Rattle.lp_spec.specs.ModuleOrder.{is_declared};
ghost use Rattle.lp_term.specs.Tables.{Keeps};
ghost use Rattle.holide_sig.specs.Modules.{declarations_of, IsHeld};
ghost use Rattle.lp_tests.specs.Open.{IsOpen};

use common::Memory;
use holide_sig::{Decl, Form, Ident, Module, SIGNATURE};
use lp_term::{LpId, LpNode, LpTable};
use lp_weight::{bound, weight};
use std::alloc::Global;
use std::test::Fail;

// `arr t t` of a tree t, so many times over.
fn doubled(table: &mut LpTable, leaf: LpId, times: u32) -> Result<LpId, Memory>
    requires { leaf.0 < length table.old }
    ensures keeps { Keeps table.old table.new }
    ensures open { IfOk result (λ id. (binders count : ℕ) → 4 ≤ count → IsOpen binders count table.old leaf → IsOpen binders count table.new id) }
{
    let arr = table.node(LpNode::Sym(3))?;
    let mut id = leaf;
    for _ in 0..times {
        let half = table.node(LpNode::App(arr, id))?;
        id = table.node(LpNode::App(half, id))?;
    }
    Ok(id)
}

// Adds `def d : type := t.`, where t is `bool` so many times doubled.
fn define_shared(alloc: Global, into: &mut Module, times: u32) -> Result<(), Memory>
    requires held { IsHeld into.old }
    requires none { into.old.decls ≡ [] }
    ensures held { OnOk result (IsHeld into.new) }
    ensures one { OnOk result (length into.new.decls ≡ 1) }
{
    let ty = into.table.node(LpNode::Sym(0))?;
    let leaf = into.table.node(LpNode::Sym(1))?;
    let body = doubled(&mut into.table, leaf, times)?;
    let name = Ident::new(Vec::from_slice(alloc, b"d")?);
    let decl = Decl {
        name,
        form: Form::Def,
        ty,
        body: Some(body),
    };
    into.push(decl)
}

// The weight and the bound of this definition, which is added to an empty module.
fn definition_weighs(alloc: Global, into: &mut Module, times: u32) -> Result<(u128, u128), Memory>
    requires held { IsHeld into.old }
    requires none { into.old.decls ≡ [] }
{
    define_shared(alloc, into, times)?;
    Ok((weight(alloc, into, 0)?, bound(alloc, into, 0)?))
}

// The same of a module of its own.
fn shared_definition(alloc: Global, times: u32) -> Result<(u128, u128), Memory> {
    let mut into = Module::new(alloc)?;
    let weights = definition_weighs(alloc, &mut into, times);
    drop(into);
    weights
}

// The sizes and the spreads of n doublings are 4 * 2^n - 3 each.
#[test]
fn weighs_a_shared_tree_by_its_places(rt: HostRuntime) -> Result<(), Fail> {
    let alloc = rt.alloc();
    for (times, weighs, takes) in [
        (0, 4, 4096),
        (1, 12, 110_592),
        (100, (1 << 103) - 4, u128::MAX),
        (130, u128::MAX, u128::MAX),
    ] {
        assert_eq!(rt;
            shared_definition(alloc, times)?,
            (weighs, takes),
            "doubled {times} times"
        );
    }
    Ok(())
}

// Adds `c : type -> t.`, where t is the product's variable so many times doubled.
fn declare_shared(alloc: Global, into: &mut Module, times: u32) -> Result<(), Memory>
    requires held { IsHeld into.old }
    requires none { into.old.decls ≡ [] }
    ensures held { OnOk result (IsHeld into.new) }
    ensures one { OnOk result (length into.new.decls ≡ 1) }
    ensures new_name { OnOk result (IsFalse (is_declared (signature ++ declarations_of into.new) (codes "d"))) }
{
    let simple = into.table.node(LpNode::Sym(0))?;
    let leaf = into.table.node(LpNode::Var(0))?;
    let result = doubled(&mut into.table, leaf, times)?;
    let ty = into.table.node(LpNode::Pi(simple, result))?;
    let decl = Decl {
        name: Ident::new(Vec::from_slice(alloc, b"c")?),
        form: Form::Symbol,
        ty,
        body: None,
    };
    into.push(decl)
}

// Adds the definition of `d : type` as the first declaration at `bool`.
fn define_call(alloc: Global, into: &mut Module) -> Result<(), Memory>
    requires held { IsHeld into.old }
    requires one { length into.old.decls ≡ 1 }
    requires new_name { IsFalse (is_declared (signature ++ declarations_of into.old) (codes "d")) }
    ensures held { OnOk result (IsHeld into.new) }
    ensures two { OnOk result (length into.new.decls ≡ 2) }
{
    let simple = into.table.node(LpNode::Sym(0))?;
    let function = into.table.node(LpNode::Sym(SIGNATURE))?;
    let argument = into.table.node(LpNode::Sym(1))?;
    let body = into.table.node(LpNode::App(function, argument))?;
    let decl = Decl {
        name: Ident::new(Vec::from_slice(alloc, b"d")?),
        form: Form::Def,
        ty: simple,
        body: Some(body),
    };
    into.push(decl)
}

// The weights of the two, which are added to an empty module.
fn call_weighs(alloc: Global, into: &mut Module, times: u32) -> Result<(u128, u128), Memory>
    requires held { IsHeld into.old }
    requires none { into.old.decls ≡ [] }
{
    declare_shared(alloc, into, times)?;
    define_call(alloc, into)?;
    Ok((weight(alloc, into, 0)?, weight(alloc, into, 1)?))
}

// The same of a module of its own.
fn shared_type(alloc: Global, times: u32) -> Result<(u128, u128), Memory> {
    let mut into = Module::new(alloc)?;
    let weights = call_weighs(alloc, &mut into, times);
    drop(into);
    weights
}

// The type is 4 * 2^n - 1 in size, and spreads 3 * 2^n - 2; at `bool` it spreads 4 * 2^n - 2.
#[test]
fn weighs_a_call_by_the_places_of_its_type(rt: HostRuntime) -> Result<(), Fail> {
    let alloc = rt.alloc();
    for (times, symbol, definition) in [
        (0, 4, 8),
        (1, 11, 12),
        (100, (7 << 100) - 3, (1 << 102) + 4),
        (130, u128::MAX, u128::MAX),
    ] {
        assert_eq!(rt;
            shared_type(alloc, times)?,
            (symbol, definition),
            "doubled {times} times"
        );
    }
    Ok(())
}
