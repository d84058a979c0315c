//! Definitions of lists of constants.
ghost use Rattle.std.specs.Prelude.{◌≡◌, ◌<◌, ◌++◌, ◌∷◌, [], None, Ok, length, map, vec_len, vec_capacity, IfOk, IfErr, OnOk, OnErr};
ghost use Rattle.article_spec.specs.Results.{Fails};
ghost use Rattle.hol_defs.specs.Faults.{list_fault};
ghost use Rattle.hol_defs.specs.Lists.{pairs_at, ArePairsKnown};
ghost use Rattle.hol_defs.specs.Symbols.{symbols_at, AreKnownSymbols};
ghost use Rattle.hol_spec.specs.DefinitionLists.{constants_put};
ghost use Rattle.hol_spec.specs.Proofs.{sequent_at, symbols_of, IsStep};
ghost use Rattle.hol_spec.specs.Proofs as proof;
ghost use Rattle.hol_spec.specs.Sequents.{IsSequent};
ghost use Rattle.hol_spec.specs.TermSubstitution.{sub};
ghost use Rattle.hol_term.specs.Substitutions.{term_pairs_at, AreTermPairsKnown};
ghost use Rattle.hol_term.specs.Tables.{term_at, Keeps};
ghost use Rattle.sequent.specs.Sequents as numbers;
ghost use Rattle.hol_rules.specs.Conclusions.{with_definition, Defines};
ghost use Rattle.hol_rules.specs.ConstantLists.{constants_at, constants_in, list_step, named_constants, defined_constants};
ghost use Rattle.hol_rules.specs.Kept.{step_count, Grows};
ghost use Rattle.hol_rules.specs.Premises.{IsNumberOf, IsStated};
ghost use Rattle.article_spec.specs.RuleSteps.{define_const_list_step};
ghost use Rattle.hol_rules.specs.Views.{step_view, IsStepKnown};
ghost use Rattle.hol_rules.specs.declared.made.Made.TheVariants as one;

use crate::definitions::constant_of;
use crate::functions::own_variable;
use crate::inference::Inference;
use crate::made::{Made, Parameters, Step, StepId};
use crate::proof::Proof;
use common::{Fault, Memory};
use hol_defs::Symbols;
use hol_name::Name;
use hol_spec::StepKind;
use hol_term::{TermId, TermTable, Variable};
use sequent::Sequent;
use std::alloc::Global;

/// Constants by their names, each with the variable for which it is put, and a sequent whose hypotheses define them.
#[derive(Clone, Copy)]
struct NewConstants<'a> {
    pairs: &'a [(Name, Variable)],
    premise: &'a Sequent,
}

impl Proof {
    /// A theorem's conclusion, where its hypotheses are the equations `v = t` that define new constants, one for each
    /// pair: each constant is put for its variable, and no hypothesis is left. It is refused with `NameTaken` where a
    /// constant has one of the names; else with `NotClosed` where a defining term has a free variable; else with
    /// `ExtraTypeVars` where a defining term has a type variable that its type lacks; else with `BadDefinitionList` where
    /// names or variables repeat, there are not as many hypotheses as pairs, a variable has no equation, or the conclusion
    /// has a free variable outside the list; and else for the limits. (Source: the OpenTheory article format, version 6,
    /// `defineConstList`.)
    pub fn define_const_list(
        &mut self,
        pairs: &[(Name, Variable)],
        one: StepId,
    ) -> Result<StepId, Fault>
        requires pairs { ArePairsKnown self.old.trees pairs.now }
        requires one { one < step_count self.old }
        ensures { Defines self.old (constants_in (pairs_at self.old.trees pairs.now) (sequent_at self.old.made one))
            (define_const_list_step self.old.made (pairs_at self.old.trees pairs.now) one) self.new result }
    {
        self.judge_list(pairs, one)?;
        let premise = self.premise(one)?;
        let made = self.define_from(pairs, one, &premise);
        drop(premise);
        made
    }

    // The constants of a list are defined by a step's sequent, which is this one.
    fn define_from(
        &mut self,
        pairs: &[(Name, Variable)],
        one: StepId,
        premise: &Sequent,
    ) -> Result<StepId, Fault>
        requires pairs { ArePairsKnown self.old.trees pairs.now }
        requires one { one < step_count self.old }
        requires stated { IsStated self.old.trees premise.now (sequent_at self.old.made one) }
        requires typed { IsSequent (sequent_at self.old.made one) }
        requires fits { list_fault (symbols_of self.old.made) (pairs_at self.old.trees pairs.now) (sequent_at self.old.made one) ≡ None }
        ensures { Defines self.old (constants_in (pairs_at self.old.trees pairs.now) (sequent_at self.old.made one))
            (define_const_list_step self.old.made (pairs_at self.old.trees pairs.now) one) self.new result }
    {
        let concl = self.with_constants(pairs, premise.concl)?;
        let hyps = self.hyps_of(&[])?;
        self.conclude_list(pairs, one, premise, Sequent { hyps, concl })
    }

    // Judges the definitions of a list of constants by a theorem's hypotheses.
    fn judge_list(&self, pairs: &[(Name, Variable)], one: StepId) -> Result<(), Fault>
        requires pairs { ArePairsKnown self.now.trees pairs.now }
        requires one { one < step_count self.now }
        ensures fits { OnOk result (list_fault (symbols_of self.now.made) (pairs_at self.now.trees pairs.now) (sequent_at self.now.made one) ≡ None) }
        ensures refused { IfErr result (λ fault. Fails fault (define_const_list_step self.now.made (pairs_at self.now.trees pairs.now) one)) }
    {
        self.is_proof();
        let sequent = self.sequent(one);
        match self
            .symbols
            .judge_list(&self.terms, pairs, sequent.hyps.ids(), sequent.concl)
        {
            Ok(_) => Ok(()),
            Err(fault) => Err(fault),
        }
    }

    // The sequent of a step, copied.
    fn premise(&self, id: StepId) -> Result<Sequent, Memory>
        requires { id < step_count self.now }
        ensures stated { IfOk result (λ sequent. IsStated self.now.trees sequent (sequent_at self.now.made id)) }
        ensures typed { IsSequent (sequent_at self.now.made id) }
    {
        self.is_proof();
        let hyps = self.hyps(id)?;
        let concl = self.concl(id);
        Ok(Sequent { hyps, concl })
    }

    // A term with the constants for their variables.
    fn with_constants(&mut self, pairs: &[(Name, Variable)], term: TermId) -> Result<TermId, Memory>
        requires pairs { ArePairsKnown self.old.trees pairs.now }
        requires term { term.0 < length self.old.trees.terms }
        ensures made { IfOk result (λ id. IsNumberOf self.new.trees id
            (sub [] (constants_put (pairs_at self.old.trees pairs.now)) (term_at self.old.trees term.0))) }
        ensures grows { Grows self.old self.new }
    {
        with_constants_of(self.alloc, &mut self.terms, pairs, term)
    }

    // The constants are defined by the premise's hypotheses, and their step is made, if the sequent is within the limits.
    fn conclude_list(
        &mut self,
        pairs: &[(Name, Variable)],
        one: StepId,
        premise: &Sequent,
        sequent: Sequent,
    ) -> Result<StepId, Fault>
        requires pairs { ArePairsKnown self.old.trees pairs.now }
        requires premise { IsSequent (numbers.sequent_at self.old.trees premise.now) }
        requires sequent { numbers.IsKnown self.old.trees sequent }
        requires follows { IsStep (self.old.made ++ map proof.Made.symbol (constants_at self.old.trees pairs.now premise.now))
            (list_step self.old.trees pairs.now one sequent) }
        ensures { Defines self.old (constants_at self.old.trees pairs.now premise.now) (Ok (list_step self.old.trees pairs.now one sequent)) self.new result }
    {
        self.judged(&sequent)?;
        let own = self.own_pairs(pairs)?;
        let inference = Inference::new(StepKind::DefineConstList, &[one]);
        let step = Step {
            inference,
            parameters: Parameters::List(own),
            sequent,
        };
        let id = self.keep_list(pairs, premise, step)?;
        Ok(id)
    }

    // The pairs, each copied.
    fn own_pairs(&self, pairs: &[(Name, Variable)]) -> Result<Vec<(Name, Variable)>, Memory>
        ensures { IfOk result (λ copy. copy.items ≡ pairs.now) }
    {
        copied(self.alloc, pairs)
    }

    // The constants are defined, and the step becomes the last.
    fn keep_list(
        &mut self,
        pairs: &[(Name, Variable)],
        premise: &Sequent,
        step: Step,
    ) -> Result<StepId, Memory>
        requires pairs { ArePairsKnown self.old.trees pairs.now }
        requires premise { IsSequent (numbers.sequent_at self.old.trees premise.now) }
        requires known { IsStepKnown self.old.trees step }
        requires follows { IsStep (self.old.made ++ map proof.Made.symbol (constants_at self.old.trees pairs.now premise.now)) (step_view self.old.trees step) }
        ensures number { IfOk result (λ id. id ≡ step_count self.old) }
        ensures kept { IfOk result (λ id. self.new ≡
            with_definition self.old (constants_at self.old.trees pairs.now premise.now) (step_view self.old.trees step)) }
        ensures unchanged { OnErr result (self.new ≡ self.old) }
    {
        keep_constants(
            &mut self.symbols,
            &mut self.terms,
            &mut self.steps,
            &mut self.made,
            NewConstants { pairs, premise },
            step,
        )
    }
}

// The constants are taken, and the step becomes the last. The answer is its number.
fn keep_constants(
    symbols: &mut Symbols,
    terms: &mut TermTable,
    steps: &mut Vec<Step>,
    made: &mut Vec<Made>,
    list: NewConstants<'_>,
    step: Step,
) -> Result<StepId, Memory>
    requires known { AreKnownSymbols terms.old symbols.old }
    requires pairs { ArePairsKnown terms.old list.pairs.now }
    requires premise { IsSequent (numbers.sequent_at terms.old list.premise.now) }
    ensures number { IfOk result (λ id. id ≡ length steps.old.items) }
    ensures takes { OnOk result (symbols_at terms.old symbols.new ≡ symbols_at terms.old symbols.old ++ defined_constants terms.old list.entry) }
    ensures fits { OnOk result (list_fault (symbols_at terms.old symbols.old)
        (pairs_at terms.old list.entry.pairs.now) (numbers.sequent_at terms.old list.entry.premise.now) ≡ None) }
    ensures noted { OnOk result (made.new.items ≡ made.old.items ++ (named_constants list.entry.pairs.now ++ one.Step (length steps.old.items) ∷ [])) }
    ensures kept { OnOk result (steps.new.items ≡ steps.old.items ++ step ∷ []) }
    ensures untaken { OnErr result (symbols.new ≡ symbols.old) }
    ensures unnoted { OnErr result (made.new.items ≡ made.old.items) }
    ensures unkept { OnErr result (steps.new.items ≡ steps.old.items) }
    ensures known { AreKnownSymbols terms.old symbols.new }
    ensures table { terms.new ≡ terms.old }
{
    let id = take_before(symbols, terms, steps, made, list)?;
    steps.push_reserved(step);
    Ok(id)
}

// The constants are taken before the next step, for which there is room. The answer is the step's number.
fn take_before(
    symbols: &mut Symbols,
    terms: &mut TermTable,
    steps: &mut Vec<Step>,
    made: &mut Vec<Made>,
    list: NewConstants<'_>,
) -> Result<StepId, Memory>
    requires known { AreKnownSymbols terms.old symbols.old }
    requires pairs { ArePairsKnown terms.old list.pairs.now }
    requires premise { IsSequent (numbers.sequent_at terms.old list.premise.now) }
    ensures number { IfOk result (λ id. id ≡ length steps.old.items) }
    ensures room { OnOk result (vec_len steps.new < vec_capacity steps.new) }
    ensures takes { OnOk result (symbols_at terms.old symbols.new ≡ symbols_at terms.old symbols.old ++ defined_constants terms.old list.entry) }
    ensures fits { OnOk result (list_fault (symbols_at terms.old symbols.old)
        (pairs_at terms.old list.entry.pairs.now) (numbers.sequent_at terms.old list.entry.premise.now) ≡ None) }
    ensures noted { OnOk result (made.new.items ≡ made.old.items ++ (named_constants list.entry.pairs.now ++ one.Step (length steps.old.items) ∷ [])) }
    ensures untaken { OnErr result (symbols.new ≡ symbols.old) }
    ensures unnoted { OnErr result (made.new.items ≡ made.old.items) }
    ensures unkept { steps.new.items ≡ steps.old.items }
    ensures known { AreKnownSymbols terms.old symbols.new }
    ensures table { terms.new ≡ terms.old }
{
    let id = steps.len();
    steps.reserve(1)?;
    take_constants(symbols, terms, made, list, id)?;
    Ok(id)
}

// The constants are taken, and noted as made before the step of this number. They are noted first, so that nothing fails
// once they are taken.
fn take_constants(
    symbols: &mut Symbols,
    terms: &mut TermTable,
    made: &mut Vec<Made>,
    list: NewConstants<'_>,
    id: StepId,
) -> Result<(), Memory>
    requires known { AreKnownSymbols terms.old symbols.old }
    requires pairs { ArePairsKnown terms.old list.pairs.now }
    requires premise { IsSequent (numbers.sequent_at terms.old list.premise.now) }
    ensures takes { OnOk result (symbols_at terms.old symbols.new ≡ symbols_at terms.old symbols.old ++ defined_constants terms.old list.entry) }
    ensures fits { OnOk result (list_fault (symbols_at terms.old symbols.old)
        (pairs_at terms.old list.entry.pairs.now) (numbers.sequent_at terms.old list.entry.premise.now) ≡ None) }
    ensures noted { OnOk result (made.new.items ≡ made.old.items ++ (named_constants list.entry.pairs.now ++ one.Step id ∷ [])) }
    ensures untaken { OnErr result (symbols.new ≡ symbols.old) }
    ensures unnoted { OnErr result (made.new.items ≡ made.old.items) }
    ensures known { AreKnownSymbols terms.old symbols.new }
    ensures table { terms.new ≡ terms.old }
{
    let count = made.len();
    note_made(made, list.pairs, id)?;
    let hyps = list.premise.hyps.ids();
    match symbols.define_list(terms, list.pairs, hyps, list.premise.concl) {
        Ok(()) => Ok(()),
        Err(_) => {
            made.truncate(count);
            Err(Memory)
        }
    }
}

// A term with the constants for their variables.
fn with_constants_of(
    alloc: Global,
    terms: &mut TermTable,
    pairs: &[(Name, Variable)],
    term: TermId,
) -> Result<TermId, Memory>
    requires pairs { ArePairsKnown terms.old pairs.now }
    requires term { term.0 < length terms.old.terms }
    ensures made { IfOk result (λ id. IsNumberOf terms.new id (sub [] (constants_put (pairs_at terms.old pairs.now)) (term_at terms.old term.0))) }
    ensures keeps { Keeps terms.old terms.new }
{
    let put = constants_of(alloc, terms, pairs)?;
    let made = terms.raw_subst(&[], &put, term);
    drop(put);
    made
}

// The constants, each for its variable.
fn constants_of(
    alloc: Global,
    terms: &mut TermTable,
    pairs: &[(Name, Variable)],
) -> Result<Vec<(Variable, TermId)>, Memory>
    requires { ArePairsKnown terms.old pairs.now }
    ensures known { IfOk result (λ put. AreTermPairsKnown terms.new put.items) }
    ensures put { IfOk result (λ put. term_pairs_at terms.new put.items ≡ constants_put (pairs_at terms.old pairs.now)) }
    ensures keeps { Keeps terms.old terms.new }
{
    let mut put = Vec::new(alloc);
    match put_constants(alloc, terms, pairs, &mut put) {
        Ok(()) => Ok(put),
        Err(_) => Err(Memory),
    }
}

// The constants, each for its variable, become what is put.
fn put_constants(
    alloc: Global,
    terms: &mut TermTable,
    pairs: &[(Name, Variable)],
    put: &mut Vec<(Variable, TermId)>,
) -> Result<(), Memory>
    requires pairs { ArePairsKnown terms.old pairs.now }
    requires empty { put.old.items ≡ [] }
    ensures known { OnOk result (AreTermPairsKnown terms.new put.new.items) }
    ensures put { OnOk result (term_pairs_at terms.new put.new.items ≡ constants_put (pairs_at terms.old pairs.now)) }
    ensures keeps { Keeps terms.old terms.new }
{
    for (name, variable) in pairs {
        put.reserve(1)?;
        let constant = constant_of(alloc, terms, name, variable.ty)?;
        let own = own_variable(variable)?;
        put.push_reserved((own, constant));
    }
    Ok(())
}

// The constants of the pairs are put last, and then the step of this number.
fn note_made(made: &mut Vec<Made>, pairs: &[(Name, Variable)], id: StepId) -> Result<(), Memory>
    ensures noted { OnOk result (made.new.items ≡ made.old.items ++ (named_constants pairs.now ++ one.Step id ∷ [])) }
    ensures unchanged { OnErr result (made.new.items ≡ made.old.items) }
{
    let mut more = made_constants(*made.allocator(), pairs)?;
    more.push(Made::Step(id))?;
    made.append(&mut more)?;
    Ok(())
}

// The constants of the pairs, as what is made.
fn made_constants(alloc: Global, pairs: &[(Name, Variable)]) -> Result<Vec<Made>, Memory>
    ensures { IfOk result (λ made. made.items ≡ named_constants pairs.now) }
{
    let mut made = Vec::new(alloc);
    for (name, _) in pairs {
        made.reserve(1)?;
        made.push_reserved(Made::Const(name.clone()?));
    }
    Ok(made)
}

// The pairs, each copied.
fn copied(alloc: Global, pairs: &[(Name, Variable)]) -> Result<Vec<(Name, Variable)>, Memory>
    ensures { IfOk result (λ copy. copy.items ≡ pairs.now) }
{
    let mut copy = Vec::new(alloc);
    for (name, variable) in pairs {
        copy.reserve(1)?;
        let own_name = name.clone()?;
        let own = own_variable(variable)?;
        copy.push_reserved((own_name, own));
    }
    Ok(copy)
}
