//! The items of a proof, and the declaration of each.
ghost use Rattle.std.specs.Prelude.{◌≡◌, ◌<◌, length, IfOk, List, ℕ};
ghost use Rattle.hol_spec.specs.Primitives.{generic};
ghost use Rattle.hol_term.specs.Tables.{term_at, type_at};
ghost use Rattle.hol_type.specs.Tables as type;
ghost use Rattle.holide_sig.specs.Modules.{declarations_of, IsHeld, IsKnown};
ghost use Rattle.lp_spec.specs.declared.form.Form.TheVariants as form;
ghost use Rattle.translate_spec.specs.Image.{constant_name as name_of_constant, input_constant_name as name_of_input_constant};
ghost use Rattle.translate_spec.specs.Items.{Content};
ghost use Rattle.translate_spec.specs.Scopes.{SymbolMap as Tables};
ghost use Rattle.translate_proof.specs.Keeping.{AreKept};
ghost use Rattle.translate_proof.specs.Numbers.{IsRising};
ghost use Rattle.translate_term.specs.Told.{TellsTerm, TellsType};
ghost use Rattle.translate_term.specs.Walks.{Grows};
ghost use Rattle.translate_rule.specs.Declaring.{IsDeclared, IsDefinitionBody, IsGenericType, IsItemDeclared, IsSymbolOf, IsTold};
ghost use Rattle.translate_rule.specs.ItemViews.{constant_at, item_content, IsItemKnown};

use crate::declaration::step_with;
use crate::generics::{at_types, operator_type, over_types, terms, terms_of_all, type_scope};
use crate::parts::part_declaration;
use crate::premises::with_symbol;
use crate::run::Run;
use common::Memory;
use hol_defs::TypeOpView;
use hol_name::Name;
use hol_rules::StepId;
use hol_term::{TermId, TermTable};
use hol_type::{TypeId, TypeTable};
use holide_sig::{Decl, Form, Ident, Module};
use lp_term::LpId;
use std::alloc::Global;
use translate_proof::{KeptParams, Part};
use translate_term::{constant_name, input_constant_name, input_operator_name, tm, ty};

/// A type definition, by its numbers.
#[derive(Clone, Copy)]
pub(crate) struct TypeDefinition<'a> {
    /// The operator with its constants, as it is taken.
    pub(crate) view: TypeOpView<'a>,
    /// The step from which it is made.
    pub(crate) premise: StepId,
}

/// An item of what a proof made, by its numbers.
#[derive(Clone, Copy)]
pub(crate) enum Item<'a> {
    /// A constant without a definition.
    InputConst(&'a Name),
    /// An operator without a definition, with so many arguments.
    InputOp(&'a Name, usize),
    /// A constant, the term that it stands for, and its generic type.
    Const(&'a Name, TermId, TypeId),
    /// The operator of a type definition, or one of its constants.
    Part(Part, TypeDefinition<'a>),
    /// The step of this number.
    Step(StepId),
}

// The declaration of an item, where the declarations of the steps before it have these symbols. The parameters of a step are kept.
pub(crate) fn declaration(
    alloc: Global,
    target: &mut Module,
    run: Run<'_>,
    numbers: &[usize],
    kept: &mut KeptParams,
    item: Item<'_>,
) -> Result<Decl, Memory>
    requires kept { AreKept run.proof.now kept.old }
    requires known { IsItemKnown run.proof.now numbers.now item }
    requires assumptions { IsRising run.assumptions.now }
    requires exports { IsRising run.exports.now }
    requires held { IsHeld target.old }
    requires told { IsTold target.old (item_content run.proof.now numbers.now item) }
    ensures made { IfOk result (IsItemDeclared target.old target.new run.entry numbers.now item.entry) }
    ensures known { IfOk result (IsKnown target.new.table) }
    ensures grows { Grows target.old target.new }
    ensures kept { AreKept run.entry.proof.now kept.new }
{
    match item {
        Item::InputConst(name) => input_constant(alloc, target, name),
        Item::InputOp(name, arity) => {
            let text = input_operator_name(alloc, name, arity)?;
            operator(target, text, arity)
        }
        Item::Const(name, term, ty) => constant(alloc, target, run.proof.terms(), name, term, ty),
        Item::Part(part, definition) => {
            let one = with_symbol(numbers, definition.premise);
            part_declaration(alloc, target, run.proof, part, definition.view, one)
        }
        Item::Step(id) => {
            kept.note(run.proof, id)?;
            step_with(alloc, target, run, numbers, kept, id)
        }
    }
}

// An input constant.
fn input_constant(alloc: Global, target: &mut Module, name: &Name) -> Result<Decl, Memory>
    ensures made { IfOk result (IsSymbolOf target.new (name_of_input_constant name.now) (Content.constant name.now generic)) }
    ensures known { IfOk result (IsKnown target.new.table) }
    ensures grows { Grows target.old target.new }
{
    let text = input_constant_name(alloc, name)?;
    let ty = terms_of_all(&mut target.table)?;
    Ok(symbol(text, ty))
}

// An operator with so many arguments.
fn operator(target: &mut Module, text: Vec<u8>, arity: usize) -> Result<Decl, Memory>
    ensures made { IfOk result (λ decl. (n : List (List ℕ)) → IsSymbolOf target.new text.items (Content.operator n arity) decl) }
    ensures known { IfOk result (IsKnown target.new.table) }
    ensures grows { Grows target.old target.new }
{
    let ty = operator_type(&mut target.table, arity)?;
    Ok(symbol(text, ty))
}

// A constant that stands for a term.
fn constant(
    alloc: Global,
    target: &mut Module,
    table: &TermTable,
    name: &Name,
    term: TermId,
    id: TypeId,
) -> Result<Decl, Memory>
    requires term { term.0 < length table.now.terms }
    requires id { id.0 < length table.now.types }
    requires held { IsHeld target.old }
    requires told { IsTold target.old (constant_at table.now name.now term id) }
    ensures made { IfOk result (IsDeclared target.old target.new (name_of_constant name.now) (constant_at table.now name.now term id)) }
    ensures known { IfOk result (IsKnown target.new.table) }
    ensures grows { Grows target.old target.new }
{
    let name = Ident::new(constant_name(alloc, name)?);
    let ty = constant_type(alloc, target, table.types(), id)?;
    let body = definition(alloc, target, table, term, id)?;
    Ok(Decl {
        name,
        form: Form::Def,
        ty,
        body: Some(body),
    })
}

// A symbol without a body.
fn symbol(text: Vec<u8>, ty: LpId) -> Decl
    ensures { result ≡ record { name = text.items; form = form.Symbol; ty = ty; body = None } }
{
    Decl {
        name: Ident::new(text),
        form: Form::Symbol,
        ty,
        body: None,
    }
}

// The declared type of a constant with a generic type: over its variables, the terms of it.
pub(crate) fn constant_type(
    alloc: Global,
    target: &mut Module,
    types: &TypeTable,
    id: TypeId,
) -> Result<LpId, Memory>
    requires id { id.0 < length types.now }
    requires held { IsHeld target.old }
    requires told { (tables : Tables) × TellsType (declarations_of target.old) tables (type.tree_at types.now id.0) }
    ensures made { IfOk result (IsGenericType target.old target.new (type.tree_at types.now id.0)) }
    ensures known { IfOk result (λ r. r.0 < length target.new.table) }
    ensures grows { Grows target.old target.new }
{
    let names = types.vars(id)?;
    let scope = type_scope(alloc, &mut target.table, &names)?;
    let tree = ty(alloc, target, types, &scope, id)?;
    let inside = terms(&mut target.table, tree)?;
    over_types(&mut target.table, names.len(), inside)
}

// What a constant of a generic type stands for: over the type's variables, the term.
fn definition(
    alloc: Global,
    target: &mut Module,
    table: &TermTable,
    term: TermId,
    id: TypeId,
) -> Result<LpId, Memory>
    requires term { term.0 < length table.now.terms }
    requires id { id.0 < length table.now.types }
    requires held { IsHeld target.old }
    requires told { (tables : Tables) × TellsTerm (declarations_of target.old) tables (term_at table.now term.0) }
    ensures made { IfOk result (IsDefinitionBody target.old target.new (type_at table.now id.0) (term_at table.now term.0)) }
    ensures known { IfOk result (λ r. r.0 < length target.new.table) }
    ensures grows { Grows target.old target.new }
{
    let names = table.types().vars(id)?;
    let scope = type_scope(alloc, &mut target.table, &names)?;
    let body = tm(alloc, target, table, &scope, term)?;
    at_types(&mut target.table, names.len(), body)
}
