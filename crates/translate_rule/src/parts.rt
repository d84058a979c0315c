//! The declarations of a type definition's operator and constants: what each stands for is a symbol of the signature at the theorem from
//! which the definition is made.
ghost use Rattle.std.specs.Prelude.{◌≡◌, ◌<◌, length, IfOk};
ghost use Rattle.hol_defs.specs.Symbols.{IsKnownSymbol};
ghost use Rattle.hol_defs.specs.Views.{operator_of_view};
ghost use Rattle.hol_spec.specs.Types.{type_variables};
ghost use Rattle.hol_term.specs.Tables.{type_at};
ghost use Rattle.hol_rules.specs.Kept.{step_count};
ghost use Rattle.holide_sig.specs.Modules.{IsHeld, IsKnown};
ghost use Rattle.translate_proof.specs.Environments.{Given, Represents};
ghost use Rattle.translate_proof.specs.Parts.{IsDefiningStep, TellsWhole};
ghost use Rattle.translate_proof.specs.Told.{TellsStep};
ghost use Rattle.translate_term.specs.Walks.{Grows};
ghost use Rattle.translate_rule.specs.Declaring.{IsDeclared, IsTold};
ghost use Rattle.translate_rule.specs.ItemViews.{names_of_view, part_name as name_of_part};
ghost use Rattle.translate_rule.specs.Parts.{part_at, IsDefining, IsDefiningTold, IsPartBody, IsPartOver, IsPartType, IsPartUnder};

use crate::generics::{at_types, operator_type};
use crate::items::constant_type;
use crate::own::type_environment;
use common::Memory;
use hol_defs::TypeOpView;
use hol_name::Name;
use hol_rules::Proof;
use hol_type::TypeId;
use holide_sig::{Decl, Form, Ident, Module};
use lp_term::LpId;
use std::alloc::Global;
use translate_proof::{Environment, Part, Premise, type_part};
use translate_term::{constant_name, operator_name};

// The declaration of a part of a type definition, from a premise with its symbol.
pub(crate) fn part_declaration(
    alloc: Global,
    target: &mut Module,
    proof: &Proof,
    part: Part,
    view: TypeOpView<'_>,
    one: Premise,
) -> Result<Decl, Memory>
    requires known { IsKnownSymbol proof.now.trees (operator_of_view view) }
    requires one { one.id < step_count proof.now }
    requires defines { IsDefining proof.now view one.id }
    requires held { IsHeld target.old }
    requires told { IsTold target.old (part_at proof.now part view one) }
    ensures made { IfOk result (IsDeclared target.old target.new (name_of_part part (names_of_view view.entry)) (part_at proof.now part view.entry one)) }
    ensures known { IfOk result (IsKnown target.new.table) }
    ensures grows { Grows target.old target.new }
{
    let name = Ident::new(part_name(alloc, part, view)?);
    let ty = part_type(alloc, target, proof, part, view, one)?;
    let body = part_body(alloc, target, proof, part, view, one)?;
    Ok(Decl {
        name,
        form: Form::Def,
        ty,
        body: Some(body),
    })
}

// Its name.
fn part_name(alloc: Global, part: Part, view: TypeOpView<'_>) -> Result<Vec<u8>, Memory>
    ensures { IfOk result (λ text. text.items ≡ name_of_part part (names_of_view view.entry)) }
{
    match part {
        Part::Operator => operator_name(alloc, view.op),
        Part::Abstraction => constant_name(alloc, view.abs),
        Part::Representation => constant_name(alloc, view.rep),
    }
}

// Its declared type.
fn part_type(
    alloc: Global,
    target: &mut Module,
    proof: &Proof,
    part: Part,
    view: TypeOpView<'_>,
    one: Premise,
) -> Result<LpId, Memory>
    requires known { IsKnownSymbol proof.now.trees (operator_of_view view) }
    requires held { IsHeld target.old }
    requires told { IsTold target.old (part_at proof.now part view one) }
    ensures made { IfOk result (IsPartType proof.now part view.entry one target.old target.new) }
    ensures known { IfOk result (λ r. r.0 < length target.new.table) }
    ensures grows { Grows target.old target.new }
{
    let types = proof.terms().types();
    match part {
        Part::Operator => operator_type(&mut target.table, view.names.len()),
        Part::Abstraction => constant_type(alloc, target, types, view.abs_type),
        Part::Representation => constant_type(alloc, target, types, view.rep_type),
    }
}

// What it stands for.
fn part_body(
    alloc: Global,
    target: &mut Module,
    proof: &Proof,
    part: Part,
    view: TypeOpView<'_>,
    one: Premise,
) -> Result<LpId, Memory>
    requires known { IsKnownSymbol proof.now.trees (operator_of_view view) }
    requires one { one.id < step_count proof.now }
    requires defines { IsDefining proof.now view one.id }
    requires held { IsHeld target.old }
    requires told { IsTold target.old (part_at proof.now part view one) }
    ensures made { IfOk result (IsPartBody proof.now part view.entry one target.old target.new) }
    ensures known { IfOk result (λ r. r.0 < length target.new.table) }
    ensures grows { Grows target.old target.new }
{
    match part {
        Part::Operator => over_types(alloc, target, proof, part, view.names, one),
        Part::Abstraction => over_type(alloc, target, proof, part, view.abs_type, one),
        Part::Representation => over_type(alloc, target, proof, part, view.rep_type, one),
    }
}

// What a constant of this generic type stands for: the part over the type's variables.
fn over_type(
    alloc: Global,
    target: &mut Module,
    proof: &Proof,
    part: Part,
    id: TypeId,
    one: Premise,
) -> Result<LpId, Memory>
    requires id { id.0 < length proof.now.trees.types }
    requires one { one.id < step_count proof.now }
    requires defines { IsDefiningStep proof.now one.id }
    requires held { IsHeld target.old }
    requires told { IsDefiningTold proof.now one.id target.old }
    ensures made { IfOk result (IsPartOver proof.now part (type_variables (type_at proof.now.trees id.0)) one target.old target.new) }
    ensures known { IfOk result (λ r. r.0 < length target.new.table) }
    ensures grows { Grows target.old target.new }
{
    let names = proof.terms().types().vars(id)?;
    over_types(alloc, target, proof, part, &names, one)
}

// A part over type variables.
fn over_types(
    alloc: Global,
    target: &mut Module,
    proof: &Proof,
    part: Part,
    names: &[Name],
    one: Premise,
) -> Result<LpId, Memory>
    requires one { one.id < step_count proof.now }
    requires defines { IsDefiningStep proof.now one.id }
    requires held { IsHeld target.old }
    requires told { IsDefiningTold proof.now one.id target.old }
    ensures made { IfOk result (IsPartOver proof.now part names.now one target.old target.new) }
    ensures known { IfOk result (λ r. r.0 < length target.new.table) }
    ensures grows { Grows target.old target.new }
{
    let env = type_environment(alloc, target, proof, names, one.id)?;
    let made = under_types(target, proof, &env, part, names.len(), one);
    drop(env);
    made
}

// A part in an environment, under so many binders of simple types.
fn under_types(
    target: &mut Module,
    proof: &Proof,
    env: &Environment,
    part: Part,
    count: usize,
    one: Premise,
) -> Result<LpId, Memory>
    requires one { one.id < step_count proof.now }
    requires defines { IsDefiningStep proof.now one.id }
    requires told { (given : Given) × Represents given target.old proof.now.trees env.now × TellsWhole given proof.now one.id × TellsStep given proof.now one.id }
    ensures made { IfOk result (IsPartUnder proof.now env.now part count one target.old target.new) }
    ensures known { IfOk result (λ r. r.0 < length target.new.table) }
    ensures grows { Grows target.old target.new }
{
    let body = type_part(target, proof, env, part, one)?;
    at_types(&mut target.table, count, body)
}
