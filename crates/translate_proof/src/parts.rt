//! The parts of a type definition, and the proofs of its two laws: symbols of the signature at the type, the predicate and the term of a
//! theorem, and at that theorem.
ghost use Rattle.std.specs.Prelude.{◌≡◌, ◌<◌, length};
ghost use Rattle.hol_spec.specs.Definitions.{TypeNames};
ghost use Rattle.hol_spec.specs.Terms.{Term, app};
ghost use Rattle.hol_spec.specs.declared.Version.TheVariants.{Five, Six};
ghost use Rattle.hol_term.specs.Tables.{term_at};
ghost use Rattle.hol_rules.specs.Kept.{step_count};
ghost use Rattle.translate_spec.specs.ProofTrees.{witness};
ghost use Rattle.translate_term.specs.Walks.{Grows};
ghost use Rattle.translate_proof.specs.Parts.{part_symbol, under_binder, AddsPart, AreFunctions, IsDefiningStep, IsFirstLaw, IsFunctionEquation, IsHolding, IsSecondLaw, MakesFirstLaw, MakesFirstLawFree, MakesLaw, MakesPart, MakesPartAt, MakesSecondLaw, MakesSecondLawFree, TellsBoth, TellsLaw, TellsPart, TellsPartAt};
ghost use Rattle.translate_proof.specs.Rescoped.{over_types};

use crate::ground::Ground;
use crate::kept::KeptParams;
use crate::premise::Premise;
use crate::rows::{Equated, sides};
use crate::scope::Environment;
use crate::trees::{abstraction, at_variable};
use common::Memory;
use hol_rules::{Proof, StepId};
use hol_term::{TermId, TermView};
use hol_type::TypeId;
use holide_sig::symbols::{FUN_EXT, SUB, SUB_ABS, SUB_ABS_REP, SUB_REP, SUB_REP_ABS, SYM, TERM};
use holide_sig::{Module, call};
use lp_term::{LpId, LpNode};

/// What a type definition makes.
#[derive(Clone, Copy)]
pub enum Part {
    /// The operator of the new type.
    Operator,
    /// The constant to the new type.
    Abstraction,
    /// The constant from the new type.
    Representation,
}

impl Part {
    // The signature's symbol for it.
    fn symbol(self) -> usize
        ensures { result ≡ part_symbol self }
    {
        match self {
            Part::Operator => SUB,
            Part::Abstraction => SUB_ABS,
            Part::Representation => SUB_REP,
        }
    }
}

/// A predicate, a term in which it holds, and the term's type.
#[derive(Clone, Copy)]
pub(crate) struct Holding {
    pub(crate) ty: TypeId,
    pub(crate) predicate: TermId,
    pub(crate) witness: TermId,
}

/// The equation of two functions, the type of their argument and that of their result.
#[derive(Clone, Copy)]
pub(crate) struct Functions {
    pub(crate) sides: Equated,
    pub(crate) from: TypeId,
    pub(crate) to: TypeId,
}

/// What a part of a type definition stands for, by the theorem from which it is made.
pub fn type_part(
    target: &mut Module,
    proof: &Proof,
    env: &Environment,
    part: Part,
    one: Premise,
) -> Result<LpId, Memory>
    requires one { one.id < step_count proof.now }
    requires defines { IsDefiningStep proof.now one.id }
    requires told { TellsPart target.old proof.now env.now one.id }
    ensures made { MakesPart target.old target.new proof.now env.now (part_symbol part) one result }
    ensures grows { Grows target.old target.new }
{
    part_call(target, proof, env, part.symbol(), one)
}

/// From a theorem by which a type operator is defined: abs (rep a) = a, as the equation of two functions that the step's
/// own conclusion is. The inner environment is that under one binder more, which stands for nothing.
pub fn first_law(
    target: &mut Module,
    ground: Ground<'_>,
    inner: &Environment,
    id: StepId,
    one: Premise,
) -> Result<LpId, Memory>
    requires id { id < step_count ground.proof.now }
    requires one { one.id < step_count ground.proof.now }
    requires law { (names : TypeNames) × IsFirstLaw Six ground.proof.now id one.id names }
    requires told { TellsBoth under_binder target.old ground inner.now id one.id }
    ensures made { MakesFirstLaw target.old target.new ground.entry inner.now id one result }
    ensures grows { Grows target.old target.new }
{
    law(target, ground, inner, SUB_ABS_REP, id, one)
}

/// From such a theorem: rep (abs r) = r exactly where the predicate holds in r, as the equation of two functions.
pub fn second_law(
    target: &mut Module,
    ground: Ground<'_>,
    inner: &Environment,
    id: StepId,
    one: Premise,
) -> Result<LpId, Memory>
    requires id { id < step_count ground.proof.now }
    requires one { one.id < step_count ground.proof.now }
    requires law { (names : TypeNames) × IsSecondLaw Six ground.proof.now id one.id names }
    requires told { TellsBoth under_binder target.old ground inner.now id one.id }
    ensures made { MakesSecondLaw target.old target.new ground.entry inner.now id one result }
    ensures grows { Grows target.old target.new }
{
    law(target, ground, inner, SUB_REP_ABS, id, one)
}

/// The first law in version 5: abs (rep a) = a, for the variable a that the step's own conclusion names. The outer environment tells what
/// stands for type variables, and nothing else.
pub fn first_law_free(
    target: &mut Module,
    ground: Ground<'_>,
    outer: &Environment,
    id: StepId,
    one: Premise,
) -> Result<LpId, Memory>
    requires id { id < step_count ground.proof.now }
    requires one { one.id < step_count ground.proof.now }
    requires law { (names : TypeNames) × IsFirstLaw Five ground.proof.now id one.id names }
    requires told { TellsBoth over_types target.old ground outer.now id one.id }
    ensures made { MakesFirstLawFree target.old target.new ground.entry outer.now id one result }
    ensures grows { Grows target.old target.new }
{
    let own = sides(ground.proof, id);
    part_at(target, ground, outer, SUB_ABS_REP, one, own.right)
}

/// The second law in version 5: the predicate holds in the variable r exactly where rep (abs r) = r, as the step's own conclusion says.
pub fn second_law_free(
    target: &mut Module,
    ground: Ground<'_>,
    outer: &Environment,
    id: StepId,
    one: Premise,
) -> Result<LpId, Memory>
    requires id { id < step_count ground.proof.now }
    requires one { one.id < step_count ground.proof.now }
    requires law { (names : TypeNames) × IsSecondLaw Five ground.proof.now id one.id names }
    requires told { TellsBoth over_types target.old ground outer.now id one.id }
    ensures made { MakesSecondLawFree target.old target.new ground.entry outer.now id one result }
    ensures grows { Grows target.old target.new }
{
    let own = sides(ground.proof, id);
    let variable = argument(ground.proof, own.left);
    let part = part_at(target, ground, outer, SUB_REP_ABS, one, variable)?;
    let mut args = Vec::new(ground.env.alloc);
    ground.add_type(target, own.ty, &mut args)?;
    ground.add_term(target, own.right, &mut args)?;
    ground.add_term(target, own.left, &mut args)?;
    args.push(part)?;
    call(&mut target.table, SYM, &args)
}

// The equation of two functions that a step's own conclusion is: at each term of their argument's type it is what a symbol of the signature
// gives there, by the theorem from which the type operator is made.
fn law(
    target: &mut Module,
    ground: Ground<'_>,
    inner: &Environment,
    symbol: usize,
    id: StepId,
    one: Premise,
) -> Result<LpId, Memory>
    requires id { id < step_count ground.proof.now }
    requires one { one.id < step_count ground.proof.now }
    requires equation { IsFunctionEquation ground.proof.now id }
    requires defines { IsDefiningStep ground.proof.now one.id }
    requires told { TellsLaw target.old ground inner.now id one.id }
    ensures made { MakesLaw target.old target.new ground.entry inner.now symbol id one result }
    ensures grows { Grows target.old target.new }
{
    let under = Ground {
        proof: ground.proof,
        kept: ground.kept,
        env: inner,
    };
    let own = function_sides(ground.proof, id);
    let mut args = Vec::new(ground.env.alloc);
    let domain = ground.env.ty(target, ground.proof, own.from)?;
    args.push(domain)?;
    ground.add_type(target, own.to, &mut args)?;
    ground.add_term(target, own.sides.left, &mut args)?;
    ground.add_term(target, own.sides.right, &mut args)?;
    add_part(target, under, domain, symbol, one, &mut args)?;
    call(&mut target.table, FUN_EXT, &args)
}

// Adds an abstraction over the terms of a type, whose body is what a symbol of the signature gives at its variable.
fn add_part(
    target: &mut Module,
    ground: Ground<'_>,
    domain: LpId,
    symbol: usize,
    one: Premise,
    args: &mut Vec<LpId>,
) -> Result<(), Memory>
    requires domain { domain.0 < length target.old.table }
    requires one { one.id < step_count ground.proof.now }
    requires defines { IsDefiningStep ground.proof.now one.id }
    requires told { TellsPart target.old ground.proof.now ground.env.now one.id }
    ensures ready { AddsPart target.old target.new ground.entry args.old.items args.new.items domain symbol one result }
    ensures grows { Grows target.old target.new }
{
    let part = part_call(target, ground.proof, ground.env, symbol, one)?;
    let body = at_variable(&mut target.table, part)?;
    let tree = abstraction(&mut target.table, TERM, domain, body)?;
    args.push(tree)?;
    Ok(())
}

// What a symbol of the signature gives at a term, by the theorem from which the type operator is made. That theorem and its parts stand where
// only type variables are told: a free variable of theirs is none of the law's, though it has its name.
fn part_at(
    target: &mut Module,
    ground: Ground<'_>,
    outer: &Environment,
    symbol: usize,
    one: Premise,
    id: TermId,
) -> Result<LpId, Memory>
    requires one { one.id < step_count ground.proof.now }
    requires id { id.0 < length ground.proof.now.trees.terms }
    requires defines { IsDefiningStep ground.proof.now one.id }
    requires told { TellsPartAt target.old ground outer.now one.id id }
    ensures made { MakesPartAt target.old target.new ground.entry outer.now symbol one id result }
    ensures grows { Grows target.old target.new }
{
    let part = part_call(target, ground.proof, outer, symbol, one)?;
    let term = ground.env.term(target, ground.proof, id)?;
    target.table.node(LpNode::App(part, term))
}

// A symbol of the signature at the type, the predicate and the term of a theorem, and at the theorem.
fn part_call(
    target: &mut Module,
    proof: &Proof,
    env: &Environment,
    symbol: usize,
    one: Premise,
) -> Result<LpId, Memory>
    requires one { one.id < step_count proof.now }
    requires defines { IsDefiningStep proof.now one.id }
    requires told { TellsPart target.old proof.now env.now one.id }
    ensures made { MakesPart target.old target.new proof.now env.now symbol one result }
    ensures grows { Grows target.old target.new }
{
    let held = applied(proof, one.id);
    // A type is defined seldom: the parameters of its theorem are found anew.
    let kept = KeptParams::new(env.alloc);
    let ground = Ground {
        proof,
        kept: &kept,
        env,
    };
    let mut args = Vec::new(env.alloc);
    ground.add_type(target, held.ty, &mut args)?;
    ground.add_term(target, held.predicate, &mut args)?;
    ground.add_term(target, held.witness, &mut args)?;
    ground.add_theorem(target, one, &mut args)?;
    call(&mut target.table, symbol, &args)
}

// The predicate of a theorem by which a type operator can be defined, and the term in which it holds.
fn applied(proof: &Proof, id: StepId) -> Holding
    requires id { id < step_count proof.now }
    requires defines { IsDefiningStep proof.now id }
    ensures { IsHolding proof.now id result }
{
    proof.is_proof();
    let table = proof.terms();
    let TermView::App(predicate, witness) = table.view(proof.sequent(id).concl) else {
        unreachable!()
    };
    let ty = table.type_of(witness);
    Holding {
        ty,
        predicate,
        witness,
    }
}

// The argument of an application.
fn argument(proof: &Proof, id: TermId) -> TermId
    requires id { id.0 < length proof.now.trees.terms }
    requires application { (f x : Term) × (term_at proof.now.trees id.0 ≡ app f x) }
    ensures known { result.0 < length proof.now.trees.terms }
    ensures is { term_at proof.now.trees result.0 ≡ witness (term_at proof.now.trees id.0) }
{
    let table = proof.terms();
    let TermView::App(_, argument) = table.view(id) else {
        unreachable!()
    };
    argument
}

// The equation of two functions that a step's conclusion is.
fn function_sides(proof: &Proof, id: StepId) -> Functions
    requires id { id < step_count proof.now }
    requires equation { IsFunctionEquation proof.now id }
    ensures { AreFunctions proof.now id result }
{
    let sides = sides(proof, id);
    let (from, to) = proof.terms().types().function_parts(sides.ty).unwrap();
    Functions { sides, from, to }
}
