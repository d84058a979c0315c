//! A premise whose hypotheses define constants: these stand for its free variables, and reflexivity proves its hypotheses.
ghost use Rattle.std.specs.Prelude.{◌≡◌, ◌<◌, [], length, option_map, IsTrue};
ghost use Rattle.std.specs.List.{AllByRecursion};
ghost use Rattle.std.specs.Map.{lookup};
ghost use Rattle.hol_spec.specs.DefinitionLists.{is_definition_list};
ghost use Rattle.hol_spec.specs.Proofs.{sequent_at};
ghost use Rattle.hol_term.specs.Subterms.{HaveTypes};
ghost use Rattle.hol_term.specs.Tables.{term_at, terms_at, AreKnown};
ghost use Rattle.hol_rules.specs.Kept.{step_count};
ghost use Rattle.hol_defs.specs.Lists.{pairs_at as pairs_view, ArePairsKnown as AreConstantPairsKnown};
ghost use Rattle.sequent.specs.Params.{same_variable};
ghost use Rattle.translate_term.specs.Walks.{Grows};
ghost use Rattle.translate_proof.specs.Constants.{by_variable, AddsConstant, AddsConstants, AddsSelfProof, AddsSelfProofs, IsEquatedFormula, IsEquationFormula, MakesList, MakesSelfProof, TellsConstantsWhere, TellsFormula, TellsFormulas, TellsList};
ghost use Rattle.translate_proof.specs.Grounds.{TellsTypeAt, TellsVariables, TellsWhere};
ghost use Rattle.translate_proof.specs.Parameters.{AreParams};

use crate::ground::Ground;
use crate::premise::{Premise, params_of};
use crate::rows::Equated;
use common::Memory;
use hol_name::Name;
use hol_term::{TermId, TermTable, Variable};
use holide_sig::symbols::REFL;
use holide_sig::{Module, call};
use lp_term::LpId;
use sequent::Params;
use translate_term::constant;

/// From a theorem whose hypotheses define the variables of these pairs: what it says of the constants that are put for them.
pub fn constant_list(
    target: &mut Module,
    ground: Ground<'_>,
    pairs: &[(Name, Variable)],
    one: Premise,
) -> Result<LpId, Memory>
    requires one { one.id < step_count ground.proof.now }
    requires pairs { AreConstantPairsKnown ground.proof.now.trees pairs.now }
    requires list { IsTrue (is_definition_list (pairs_view ground.proof.now.trees pairs.now) (sequent_at ground.proof.now.made one.id)) }
    requires told { TellsList target.old ground pairs.now one.id }
    ensures made { MakesList target.old target.new ground.entry pairs.now one result }
    ensures grows { Grows target.old target.new }
{
    let params = params_of(ground.proof, one.id)?;
    let mut args = Vec::new(ground.env.alloc);
    let made = constant_list_over(target, ground, pairs, one, &params, &mut args);
    drop(args);
    drop(params);
    made
}

/// What such a theorem says of the constants, where its parameters are known. The arguments are added to none.
fn constant_list_over(
    target: &mut Module,
    ground: Ground<'_>,
    pairs: &[(Name, Variable)],
    one: Premise,
    params: &Params,
    args: &mut Vec<LpId>,
) -> Result<LpId, Memory>
    requires one { one.id < step_count ground.proof.now }
    requires pairs { AreConstantPairsKnown ground.proof.now.trees pairs.now }
    requires list { IsTrue (is_definition_list (pairs_view ground.proof.now.trees pairs.now) (sequent_at ground.proof.now.made one.id)) }
    requires params { AreParams ground.proof.now one.id params.now }
    requires none { args.old.items ≡ [] }
    requires told { TellsList target.old ground pairs.now one.id }
    ensures made { MakesList target.old target.new ground.entry pairs.now one result }
    ensures grows { Grows target.old target.new }
{
    let variables = params.free_vars.variables();
    ground.proof.is_proof();
    let sequent = ground.proof.sequent(one.id);
    ground
        .env
        .add_type_variables(target, params.type_vars.names(), args)?;
    ground.add_constants(target, pairs, variables, args)?;
    ground.add_self_proofs(target, sequent.hyps.ids(), args)?;
    call(&mut target.table, one.symbol, args)
}

impl Ground<'_> {
    // Adds what stands for each of some free variables where constants are put.
    fn add_constants(
        self,
        target: &mut Module,
        pairs: &[(Name, Variable)],
        variables: &[Variable],
        args: &mut Vec<LpId>,
    ) -> Result<(), Memory>
        requires pairs { AreConstantPairsKnown self.proof.now.trees pairs.now }
        requires variables { HaveTypes self.proof.now.trees variables.now }
        requires told { TellsConstantsWhere target.old self.proof.now self.env.now pairs.now (TellsVariables self.proof.now variables.now) }
        ensures ready { AddsConstants target.old target.new self.entry args.old.items args.new.items pairs.now variables.now result }
        ensures grows { Grows target.old target.new }
    {
        for variable in variables {
            self.add_constant(target, pairs, variable, args)?;
        }
        Ok(())
    }

    // Adds the constant that is put for a free variable, or else what stands for it.
    fn add_constant(
        self,
        target: &mut Module,
        pairs: &[(Name, Variable)],
        variable: &Variable,
        args: &mut Vec<LpId>,
    ) -> Result<(), Memory>
        requires pairs { AreConstantPairsKnown self.proof.now.trees pairs.now }
        requires variable { variable.now.ty.0 < length self.proof.now.trees.types }
        requires told { TellsConstantsWhere target.old self.proof.now self.env.now pairs.now (TellsTypeAt self.proof.now variable.now.ty) }
        ensures ready { AddsConstant target.old target.new self.entry args.old.items args.new.items pairs.now variable.now result }
        ensures grows { Grows target.old target.new }
    {
        match put_constant(pairs, variable) {
            Some(name) => {
                let types = self.proof.terms().types();
                let tree = constant(
                    self.env.alloc,
                    target,
                    types,
                    &self.env.scope,
                    name,
                    variable.ty,
                )?;
                args.push(tree)?;
                Ok(())
            }
            None => self.add_free_variable(target, variable, args),
        }
    }

    // Adds what proves each of some equations: reflexivity.
    fn add_self_proofs(
        self,
        target: &mut Module,
        hyps: &[TermId],
        args: &mut Vec<LpId>,
    ) -> Result<(), Memory>
        requires hyps { AreKnown self.proof.now.trees hyps.now }
        requires equations { AllByRecursion IsEquationFormula (terms_at self.proof.now.trees hyps.now) }
        requires told { TellsWhere target.old self.proof.now self.env.now (TellsFormulas self.proof.now hyps.now) }
        ensures ready { AddsSelfProofs target.old target.new self.entry args.old.items args.new.items hyps.now result }
        ensures grows { Grows target.old target.new }
    {
        for hyp in hyps {
            self.add_self_proof(target, *hyp, args)?;
        }
        Ok(())
    }

    // Adds what proves an equation.
    fn add_self_proof(
        self,
        target: &mut Module,
        hyp: TermId,
        args: &mut Vec<LpId>,
    ) -> Result<(), Memory>
        requires hyp { hyp.0 < length self.proof.now.trees.terms }
        requires equation { IsEquationFormula (term_at self.proof.now.trees hyp.0) }
        requires told { TellsWhere target.old self.proof.now self.env.now (TellsFormula self.proof.now hyp) }
        ensures ready { AddsSelfProof target.old target.new self.entry args.old.items args.new.items hyp result }
        ensures grows { Grows target.old target.new }
    {
        let tree = self.self_proof(target, hyp)?;
        args.push(tree)?;
        Ok(())
    }

    // Reflexivity of the right side of an equation.
    fn self_proof(self, target: &mut Module, hyp: TermId) -> Result<LpId, Memory>
        requires hyp { hyp.0 < length self.proof.now.trees.terms }
        requires equation { IsEquationFormula (term_at self.proof.now.trees hyp.0) }
        requires told { TellsWhere target.old self.proof.now self.env.now (TellsFormula self.proof.now hyp) }
        ensures made { MakesSelfProof target.old target.new self.entry hyp result }
        ensures grows { Grows target.old target.new }
    {
        let own = equated(self.proof.terms(), hyp);
        let mut args = Vec::new(self.env.alloc);
        self.add_type(target, own.ty, &mut args)?;
        self.add_term(target, own.right, &mut args)?;
        call(&mut target.table, REFL, &args)
    }
}

// The constant that is put for a variable: the first pair of the variable counts.
fn put_constant<'a>(pairs: &'a [(Name, Variable)], variable: &Variable) -> Option<&'a Name>
    ensures { option_map (λ name. name.now) result ≡ lookup (same_variable variable.now) (by_variable pairs.now) }
{
    for (name, own) in pairs {
        if variable == own {
            return Some(name);
        }
    }
    None
}

// The type and the sides of an equation.
fn equated(table: &TermTable, id: TermId) -> Equated
    requires known { id.0 < length table.now.terms }
    requires equation { IsEquationFormula (term_at table.now id.0) }
    ensures { IsEquatedFormula table.now (term_at table.now id.0) result }
{
    let (left, right) = table.dest_eq(id).unwrap();
    let ty = table.type_of(left);
    Equated { ty, left, right }
}
