//! Definitions of constants.
ghost use Rattle.std.specs.Prelude.{◌≡◌, ◌<◌, ◌++◌, ◌∷◌, [], None, Ok, length, vec_len, vec_capacity, IfOk, IfErr, OnOk, OnErr};
ghost use Rattle.article_spec.specs.Results.{Fails};
ghost use Rattle.hol_defs.specs.Faults.{constant_fault};
ghost use Rattle.hol_defs.specs.Symbols.{symbols_at, AreKnownSymbols};
ghost use Rattle.hol_rules.specs.declared.made.Made.TheVariants as one;
ghost use Rattle.hol_spec.specs.Definitions.{Definition};
ghost use Rattle.hol_spec.specs.Proofs.{symbols_of, IsStep};
ghost use Rattle.hol_spec.specs.Proofs as proof;
ghost use Rattle.hol_spec.specs.Symbols.{Symbol};
ghost use Rattle.hol_spec.specs.Terms.{constant as constant_tree};
ghost use Rattle.hol_spec.specs.Types.{variable as type_variable};
ghost use Rattle.hol_term.specs.Tables.{term_at, type_at, IsTermAt, Keeps};
ghost use Rattle.sequent.specs.Sequents.{IsKnown};
ghost use Rattle.hol_rules.specs.Conclusions.{with_definition, Defines};
ghost use Rattle.hol_rules.specs.ConstantLists.{constant_for, constant_step, defined_constant};
ghost use Rattle.hol_rules.specs.Kept.{step_count, Grows};
ghost use Rattle.hol_rules.specs.Premises.{IsNumberOf};
ghost use Rattle.article_spec.specs.RuleSteps.{define_const_step};
ghost use Rattle.hol_rules.specs.Views.{step_view, IsStepKnown};

use crate::inference::Inference;
use crate::made::{Made, Parameters, Step, StepId};
use crate::proof::Proof;
use common::{Fault, Memory};
use hol_defs::Symbols;
use hol_name::Name;
use hol_spec::StepKind;
use hol_term::{TermId, TermTable};
use hol_type::TypeId;
use sequent::Sequent;
use std::alloc::Global;

/// A constant by its name, and the term that it stands for.
#[derive(Clone, Copy)]
struct NewConstant<'a> {
    name: &'a Name,
    term: TermId,
}

impl Proof {
    /// The equation of a new constant and the term that it stands for. It is refused with `NameTaken` where a constant
    /// has the name, else with `NotClosed` where the term has a free variable, else with `ExtraTypeVars` where it has a
    /// type variable that its type lacks, and else for the limits. (Source: HOL Light's kernel, new_basic_definition; the
    /// OpenTheory article format, `defineConst`.)
    pub fn define_const(&mut self, name: &Name, t: TermId) -> Result<StepId, Fault>
        requires { IsTermAt self.old.trees t.0 }
        ensures { Defines self.old (Symbol.defined (Definition.constant name.now (term_at self.old.trees t.0)) ∷ [])
            (define_const_step self.old.made name.now (term_at self.old.trees t.0)) self.new result }
    {
        self.judge_const(name, t)?;
        let ty = self.terms.type_of(t);
        let constant = self.constant_at(name, ty)?;
        let concl = self.equation(constant, t)?;
        let hyps = self.hyps_of(&[])?;
        self.conclude_const(name, t, Sequent { hyps, concl })
    }

    // Judges the definition of a constant.
    fn judge_const(&self, name: &Name, t: TermId) -> Result<(), Fault>
        requires { IsTermAt self.now.trees t.0 }
        ensures fits { OnOk result (constant_fault (symbols_of self.now.made) name.now (term_at self.now.trees t.0) ≡ None) }
        ensures refused { IfErr result (λ fault. Fails fault (define_const_step self.now.made name.now (term_at self.now.trees t.0))) }
    {
        self.symbols.judge_const(&self.terms, name, t)
    }

    // The constant of this name and type, whatever its size and depth.
    fn constant_at(&mut self, name: &Name, ty: TypeId) -> Result<TermId, Memory>
        requires { ty.0 < length self.old.trees.types }
        ensures made { IfOk result (λ id. IsNumberOf self.new.trees id (constant_tree name.now (type_at self.old.trees ty.0))) }
        ensures grows { Grows self.old self.new }
    {
        constant_of(self.alloc, &mut self.terms, name, ty)
    }

    // The constant is defined, and its step is made, if the sequent is within the limits.
    fn conclude_const(&mut self, name: &Name, t: TermId, sequent: Sequent) -> Result<StepId, Fault>
        requires term { IsTermAt self.old.trees t.0 }
        requires sequent { IsKnown self.old.trees sequent }
        requires follows { IsStep (self.old.made ++ proof.Made.symbol (constant_for name.now (term_at self.old.trees t.0)) ∷ [])
            (constant_step self.old.trees name.now t sequent) }
        ensures { Defines self.old (constant_for name.now (term_at self.old.trees t.0) ∷ [])
            (Ok (constant_step self.old.trees name.now t sequent)) self.new result }
    {
        self.judged(&sequent)?;
        let own = name.clone()?;
        let inference = Inference::new(StepKind::DefineConst, &[]);
        let step = Step {
            inference,
            parameters: Parameters::Const(own, t),
            sequent,
        };
        let id = self.keep_const(name, t, step)?;
        Ok(id)
    }

    // The constant is defined, and the step becomes the last.
    fn keep_const(&mut self, name: &Name, t: TermId, step: Step) -> Result<StepId, Memory>
        requires term { IsTermAt self.old.trees t.0 }
        requires known { IsStepKnown self.old.trees step }
        requires follows { IsStep (self.old.made ++ proof.Made.symbol (constant_for name.now (term_at self.old.trees t.0)) ∷ [])
            (step_view self.old.trees step) }
        ensures number { IfOk result (λ id. id ≡ step_count self.old) }
        ensures kept { IfOk result (λ id. self.new ≡
            with_definition self.old (constant_for name.now (term_at self.old.trees t.0) ∷ []) (step_view self.old.trees step)) }
        ensures unchanged { OnErr result (self.new ≡ self.old) }
    {
        keep_constant(
            &mut self.symbols,
            &mut self.terms,
            &mut self.steps,
            &mut self.made,
            NewConstant { name, term: t },
            step,
        )
    }
}

// The constant is taken, and the step becomes the last. The answer is its number.
fn keep_constant(
    symbols: &mut Symbols,
    terms: &mut TermTable,
    steps: &mut Vec<Step>,
    made: &mut Vec<Made>,
    constant: NewConstant<'_>,
    step: Step,
) -> Result<StepId, Memory>
    requires known { AreKnownSymbols terms.old symbols.old }
    requires term { IsTermAt terms.old constant.term.0 }
    ensures number { IfOk result (λ id. id ≡ length steps.old.items) }
    ensures takes { OnOk result (symbols_at terms.old symbols.new ≡ symbols_at terms.old symbols.old ++ defined_constant terms.old constant.entry ∷ []) }
    ensures fits { OnOk result (constant_fault (symbols_at terms.old symbols.old) constant.entry.name.now (term_at terms.old constant.entry.term.0) ≡ None) }
    ensures noted { OnOk result (made.new.items ≡ (made.old.items ++ one.Const constant.entry.name.now ∷ []) ++ one.Step (length steps.old.items) ∷ []) }
    ensures kept { OnOk result (steps.new.items ≡ steps.old.items ++ step ∷ []) }
    ensures untaken { OnErr result (symbols.new ≡ symbols.old) }
    ensures unnoted { OnErr result (made.new.items ≡ made.old.items) }
    ensures unkept { OnErr result (steps.new.items ≡ steps.old.items) }
    ensures known { AreKnownSymbols terms.old symbols.new }
    ensures table { terms.new ≡ terms.old }
{
    let id = take_before(symbols, terms, steps, made, constant)?;
    steps.push_reserved(step);
    Ok(id)
}

// The constant is taken before the next step, for which there is room. The answer is the step's number.
fn take_before(
    symbols: &mut Symbols,
    terms: &mut TermTable,
    steps: &mut Vec<Step>,
    made: &mut Vec<Made>,
    constant: NewConstant<'_>,
) -> Result<StepId, Memory>
    requires known { AreKnownSymbols terms.old symbols.old }
    requires term { IsTermAt terms.old constant.term.0 }
    ensures number { IfOk result (λ id. id ≡ length steps.old.items) }
    ensures room { OnOk result (vec_len steps.new < vec_capacity steps.new) }
    ensures takes { OnOk result (symbols_at terms.old symbols.new ≡ symbols_at terms.old symbols.old ++ defined_constant terms.old constant.entry ∷ []) }
    ensures fits { OnOk result (constant_fault (symbols_at terms.old symbols.old) constant.entry.name.now (term_at terms.old constant.entry.term.0) ≡ None) }
    ensures noted { OnOk result (made.new.items ≡ (made.old.items ++ one.Const constant.entry.name.now ∷ []) ++ one.Step (length steps.old.items) ∷ []) }
    ensures untaken { OnErr result (symbols.new ≡ symbols.old) }
    ensures unnoted { OnErr result (made.new.items ≡ made.old.items) }
    ensures unkept { steps.new.items ≡ steps.old.items }
    ensures known { AreKnownSymbols terms.old symbols.new }
    ensures table { terms.new ≡ terms.old }
{
    let id = steps.len();
    steps.reserve(1)?;
    take_constant(symbols, terms, made, constant, id)?;
    Ok(id)
}

// The constant is taken, and noted as made before the step of this number. Room is made first, so that nothing fails
// once it is taken.
fn take_constant(
    symbols: &mut Symbols,
    terms: &mut TermTable,
    made: &mut Vec<Made>,
    constant: NewConstant<'_>,
    id: StepId,
) -> Result<(), Memory>
    requires known { AreKnownSymbols terms.old symbols.old }
    requires term { IsTermAt terms.old constant.term.0 }
    ensures takes { OnOk result (symbols_at terms.old symbols.new ≡ symbols_at terms.old symbols.old ++ defined_constant terms.old constant.entry ∷ []) }
    ensures fits { OnOk result (constant_fault (symbols_at terms.old symbols.old) constant.entry.name.now (term_at terms.old constant.entry.term.0) ≡ None) }
    ensures noted { OnOk result (made.new.items ≡ (made.old.items ++ one.Const constant.entry.name.now ∷ []) ++ one.Step id ∷ []) }
    ensures untaken { OnErr result (symbols.new ≡ symbols.old) }
    ensures unnoted { OnErr result (made.new.items ≡ made.old.items) }
    ensures known { AreKnownSymbols terms.old symbols.new }
    ensures table { terms.new ≡ terms.old }
{
    made.reserve(2)?;
    let own = constant.name.clone()?;
    match symbols.define(terms, constant.name, constant.term) {
        Ok(()) => {
            made.push_reserved(Made::Const(own));
            made.push_reserved(Made::Step(id));
            Ok(())
        }
        Err(_) => Err(Memory),
    }
}

// The constant of this name and type, whatever its size and depth: at a type variable it is within the limits, and the
// type is put for the variable.
pub(crate) fn constant_of(
    alloc: Global,
    terms: &mut TermTable,
    name: &Name,
    ty: TypeId,
) -> Result<TermId, Memory>
    requires { ty.0 < length terms.old.types }
    ensures made { IfOk result (λ id. IsNumberOf terms.new id (constant_tree name.now (type_at terms.old ty.0))) }
    ensures keeps { Keeps terms.old terms.new }
{
    let Ok(variable) = Name::single(alloc, b"A") else {
        return Err(Memory);
    };
    let Ok(constant) = general_constant(terms, name, &variable) else {
        return Err(Memory);
    };
    let mut pairs = Vec::new(alloc);
    pairs.push((variable, ty))?;
    let made = terms.raw_subst(&pairs, &[], constant);
    drop(pairs);
    made
}

// The constant of this name at a type variable.
fn general_constant(terms: &mut TermTable, name: &Name, variable: &Name) -> Result<TermId, Memory>
    ensures made { IfOk result (λ id. IsNumberOf terms.new id (constant_tree name.now (type_variable variable.now))) }
    ensures keeps { Keeps terms.old terms.new }
{
    let Ok(general) = terms.ty_var(variable) else {
        return Err(Memory);
    };
    let Ok(constant) = terms.constant(name, general) else {
        return Err(Memory);
    };
    Ok(constant)
}
