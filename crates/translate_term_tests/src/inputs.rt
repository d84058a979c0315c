//! The module of the tests, which declares an input constant.
ghost use Rattle.std.specs.Prelude.{◌≡◌, ◌<◌, [], codes, length, IfOk, OnOk};
ghost use Rattle.holide_sig.specs.Modules.{declarations_of, IsHeld};
ghost use Rattle.lp_term.specs.Tables.{Holds, Keeps};
ghost use Rattle.translate_term_tests.specs.Inputs.{input_module, input_type};

use common::Memory;
use holide_sig::{Decl, Form, Ident, Module};
use lp_term::{LpId, LpNode, LpTable};
use std::alloc::Global;

// `v0 : type -> term v0`
fn type_of_input(table: &mut LpTable) -> Result<LpId, Memory>
    ensures known { IfOk result (λ id. id.0 < length table.new) }
    ensures keeps { IfOk result (λ id. Keeps table.old table.new) }
    ensures made { IfOk result (λ id. Holds table.new id.0 input_type) }
{
    let simple = table.node(LpNode::Sym(0))?;
    let term = table.node(LpNode::Sym(4))?;
    let v = table.node(LpNode::Var(0))?;
    let terms = table.node(LpNode::App(term, v))?;
    table.node(LpNode::Pi(simple, terms))
}

// The name of the input constant.
fn name_of_input(alloc: Global) -> Result<Ident, Memory>
    ensures { IfOk result (λ name. name ≡ codes "i_u") }
{
    let text = Vec::from_slice(alloc, b"i_u")?;
    Ok(Ident::new(text))
}

// Declares the input constant in a module without declarations.
fn declare(base: &mut Module, alloc: Global) -> Result<(), Memory>
    requires held { IsHeld base.old }
    requires none { base.old.decls ≡ [] }
    ensures held { OnOk result (IsHeld base.new) }
    ensures declared { OnOk result (declarations_of base.new ≡ input_module) }
{
    let ty = type_of_input(&mut base.table)?;
    let name = name_of_input(alloc)?;
    base.push(Decl {
        name,
        form: Form::Symbol,
        ty,
        body: None,
    })
}

/// The module of the declaration `i_u : v0 : type -> term v0.`
pub(crate) fn with_input(alloc: Global) -> Result<Module, Memory>
    ensures held { IfOk result IsHeld }
    ensures declared { IfOk result (λ m. declarations_of m ≡ input_module) }
{
    let mut base = Module::new(alloc)?;
    declare(&mut base, alloc)?;
    Ok(base)
}
