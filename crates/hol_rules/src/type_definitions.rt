//! Definitions of type operators.
ghost use Rattle.std.specs.Prelude.{◌≡◌, ◌<◌, ◌+◌, ◌-◌, ◌^◌, if◌then◌else◌, None, length, min, true, vec_len, vec_capacity, IfOk, IfErr, OnOk, OnErr};
ghost use Rattle.article_spec.specs.Conditions.{demand, in_limits};
ghost use Rattle.article_spec.specs.Results.{Fails};
ghost use Rattle.common.specs.declared.faults.Fault.TheVariants.{Refused};
ghost use Rattle.common.specs.declared.faults.Kind.TheVariants.{NameTaken, NotTheSequent, TooManyParams};
ghost use Rattle.hol_defs.specs.Faults.{are_new as are_new_names, operator_fault, Refuses};
ghost use Rattle.hol_defs.specs.Symbols.{named, symbols_at, AreKnownSymbols};
ghost use Rattle.hol_spec.specs.Proofs.{symbols_of};
ghost use Rattle.hol_spec.specs.Rules.{Parameters as RuleParameters};
ghost use Rattle.hol_spec.specs.Terms.{Term, app};
ghost use Rattle.hol_spec.specs.declared.Version.{Version as AVersion};
ghost use Rattle.hol_variables.specs.Noted.{AreNoted};
ghost use Rattle.hol_term.specs.Tables.{term_at, type_at, IsTermAt, Keeps, Trees};
ghost use Rattle.sequent.specs.Sequents.{IsKnown};
ghost use Rattle.hol_rules.specs.Conclusions.{with_type, DefinesType};
ghost use Rattle.hol_rules.specs.Kept.{step_count, Grows};
ghost use Rattle.hol_rules.specs.Laws.{first_law_size, have_few_parameters, height_above_types, larger_law_size, measures_of_parts, named_by, second_law_depth, second_law_size, AreLawsOf, AreSmall, AreTypeParts, IsWithoutVariables};
ghost use Rattle.hol_rules.specs.TypeSteps.{with_laws, with_operator, AreLawSteps, IsLawStep, TakesType};
ghost use Rattle.article_spec.specs.RuleSteps.{made_of_type, type_laws};
ghost use Rattle.hol_rules.specs.Views.{parameters_view, AreParametersKnown};

use crate::inference::Inference;
use crate::laws::{NewNames, first_law, new_part, second_law};
use crate::made::{GivenOperator, Made, NewOperator, Parameters, Step, StepId};
use crate::proof::Proof;
use common::{Fault, Kind, Memory};
use hol_defs::Symbols;
use hol_name::Name;
use hol_spec::{GREATEST_DEPTH, GREATEST_PARAMETER_COUNT, GREATEST_SIZE, StepKind, Version};
use hol_term::{TermId, TermTable, TermView};
use hol_type::TypeId;
use hol_variables::ParamMemo;
use sequent::{Hyps, Sequent};
use std::alloc::Global;

/// A theorem's conclusion, its predicate, and the type of which the new one is a part.
#[derive(Clone, Copy)]
pub(crate) struct TypeParts {
    pub(crate) concl: TermId,
    pub(crate) predicate: TermId,
    pub(crate) whole: TypeId,
}

/// The laws of a new type.
#[derive(Drop)]
pub(crate) struct Laws {
    pub(crate) first: Sequent,
    pub(crate) second: Sequent,
}

/// The steps of the laws.
#[derive(Drop)]
pub(crate) struct LawSteps {
    pub(crate) first: Step,
    pub(crate) second: Step,
}

/// What a type operator is defined by: its names, a step, and the step's conclusion.
#[derive(Clone, Copy)]
struct Basis<'a> {
    names: NewNames<'a>,
    one: StepId,
    concl: TermId,
}

impl Proof {
    /// From a theorem `f t` without hypotheses, the two laws of a new type operator: the new type is the part of the type
    /// of `t` in which `f` holds, over the type variables of these names, in their order; `abs` is the constant to it and
    /// `rep` the constant from it. It is refused with `NameTaken` where `op` is an operator or `abs` or `rep` a constant,
    /// or `abs` and `rep` are one name; else with `NotClosed` where `f` has a free variable; else with `BadTypeVars` where
    /// the names repeat or aren't the type variables of `f`; else with `NotTheSequent` where there is a hypothesis or the
    /// conclusion is no application; and else for the limits, every size judged before any depth and every depth before
    /// any number of parameters. In an article of version 6 the laws are `(\a. abs (rep a)) = (\a. a)` and
    /// `(\r. rep (abs r) = r) = (\r. f r)`; in one of version 5 they are `abs (rep a) = a` and `f r = (rep (abs r) = r)`,
    /// over free variables `a` of the new type and `r` of the type of `t`. (Source: HOL Light's kernel,
    /// new_basic_type_definition; the OpenTheory article format, versions 5 and 6, `defineTypeOp`.)
    pub fn define_type_op(
        &mut self,
        op: &Name,
        abs: &Name,
        rep: &Name,
        names: &[Name],
        one: StepId,
        version: Version,
    ) -> Result<(StepId, StepId), Fault>
        requires { one < step_count self.old }
        ensures { DefinesType self.old (type_laws version self.old.made (named op.now abs.now rep.now names.now) one) self.new result }
    {
        let given = NewNames {
            op,
            abs,
            rep,
            variables: names,
        };
        let parts = self.type_parts(given, one)?;
        judge_measures(self.terms(), given, parts, version)?;
        self.is_proof();
        let laws = self.laws(given, parts, version)?;
        self.judge_laws(&laws)?;
        let ids = self.keep_type(given, one, parts, laws, version)?;
        Ok(ids)
    }

    // The predicate of a step's conclusion and the type of what satisfies it, if they may define a new type.
    fn type_parts(&self, names: NewNames<'_>, one: StepId) -> Result<TypeParts, Fault>
        requires { one < step_count self.now }
        ensures parts { IfOk result (λ parts. AreTypeParts self.now (named_by names.entry) one parts) }
        ensures refused { IfErr result (λ fault. (version : AVersion) → Fails fault (type_laws version self.now.made (named_by names.entry) one)) }
    {
        let terms = self.terms();
        let concl = self.concl(one);
        let TermView::App(predicate, witness) = terms.view(concl) else {
            return Err(self.without_application(names));
        };
        match self.judge_type(names, predicate) {
            Ok(()) => {}
            Err(fault) => return Err(fault),
        }
        if self.sequent(one).hyps.ids().len() > 0 {
            return Err(Fault::Refused(Kind::NotTheSequent));
        }
        let whole = terms.type_of(witness);
        Ok(TypeParts {
            concl,
            predicate,
            whole,
        })
    }

    // Judges the names and the predicate of a new type.
    fn judge_type(&self, names: NewNames<'_>, predicate: TermId) -> Result<(), Fault>
        requires { predicate.0 < length self.now.trees.terms }
        ensures fits { OnOk result (operator_fault (symbols_of self.now.made) (named_by names.entry) (term_at self.now.trees predicate.0) ≡ None) }
        ensures refusal { IfErr result (λ fault. Refuses fault
            (operator_fault (symbols_of self.now.made) (named_by names.entry) (term_at self.now.trees predicate.0))) }
    {
        self.symbols.judge_op(
            &self.terms,
            names.op,
            names.abs,
            names.rep,
            names.variables,
            predicate,
        )
    }

    // Why a conclusion that is no application defines no type with these names.
    fn without_application(&self, names: NewNames<'_>) -> Fault
        ensures { result ≡ Refused (if are_new_names (symbols_of self.now.made) (named_by names.entry) then NotTheSequent else NameTaken) }
    {
        if self.symbols.are_new(names.op, names.abs, names.rep) {
            Fault::Refused(Kind::NotTheSequent)
        } else {
            Fault::Refused(Kind::NameTaken)
        }
    }

    // The laws of a new type, whose types are within the limits.
    fn laws(
        &mut self,
        names: NewNames<'_>,
        parts: TypeParts,
        version: Version,
    ) -> Result<Laws, Memory>
        requires whole { parts.whole.0 < length self.old.trees.types }
        requires predicate { parts.predicate.0 < length self.old.trees.terms }
        requires closed { IsWithoutVariables (term_at self.old.trees parts.predicate.0) }
        ensures made { IfOk result (λ laws. AreLawsOf version (named_by names.entry) self.old.trees parts self.new.trees laws) }
        ensures grows { Grows self.old self.new }
    {
        laws_of(self.alloc, &mut self.terms, names, parts, version)
    }

    // Refuses laws of which one has too many parameters.
    fn judge_laws(&mut self, laws: &Laws) -> Result<(), Fault>
        requires first { IsKnown self.old.trees laws.now.first }
        requires second { IsKnown self.old.trees laws.now.second }
        ensures few { OnOk result (have_few_parameters self.old.trees laws.now ≡ true) }
        ensures refused { IfErr result (λ fault. Fails fault (demand (have_few_parameters self.old.trees laws.now) TooManyParams)) }
        ensures unchanged { self.new ≡ self.old }
    {
        if !self.are_counted(laws)? {
            return Err(Fault::Refused(Kind::TooManyParams));
        }
        Ok(())
    }

    // Whether neither law has too many parameters.
    fn are_counted(&mut self, laws: &Laws) -> Result<bool, Memory>
        requires first { IsKnown self.old.trees laws.now.first }
        requires second { IsKnown self.old.trees laws.now.second }
        ensures counted { IfOk result (λ counted. counted ≡ have_few_parameters self.old.trees laws.now) }
        ensures unchanged { self.new ≡ self.old }
    {
        are_few(&self.terms, &mut self.params, laws)
    }

    // The type operator is defined, and the steps of its laws become the last.
    fn keep_type(
        &mut self,
        names: NewNames<'_>,
        one: StepId,
        parts: TypeParts,
        laws: Laws,
        version: Version,
    ) -> Result<(StepId, StepId), Memory>
        requires one { one < step_count self.old }
        requires parts { AreTypeParts self.old (named_by names) one parts }
        requires laws { AreLawsOf version (named_by names) self.old.trees parts self.old.trees laws }
        ensures numbers { IfOk result (λ ids. (ids.0 ≡ step_count self.old) × (ids.1 ≡ step_count self.old + 1)) }
        ensures kept { IfOk result (λ ids. self.new.made ≡ with_type self.old.made
            (made_of_type version (named_by names.entry) one (type_at self.old.trees parts.whole.0) (term_at self.old.trees parts.predicate.0))) }
        ensures unchanged { OnErr result (self.new.made ≡ self.old.made) }
        ensures keeps { Keeps self.old.trees self.new.trees }
    {
        let steps = law_steps(self.alloc, names, one, laws, version)?;
        let basis = Basis {
            names,
            one,
            concl: parts.concl,
        };
        keep_laws(
            &mut self.symbols,
            &mut self.terms,
            &mut self.steps,
            &mut self.made,
            basis,
            steps,
        )
    }
}

// Whether neither law has too many parameters.
fn are_few(terms: &TermTable, params: &mut ParamMemo, laws: &Laws) -> Result<bool, Memory>
    requires first { IsKnown terms.now laws.now.first }
    requires second { IsKnown terms.now laws.now.second }
    requires noted { AreNoted terms.now params.old }
    ensures counted { IfOk result (λ counted. counted ≡ have_few_parameters terms.now laws.now) }
    ensures noted { AreNoted terms.now params.new }
{
    if params.count(terms, &laws.first)? > GREATEST_PARAMETER_COUNT {
        return Ok(false);
    }
    let count = params.count(terms, &laws.second)?;
    Ok(count <= GREATEST_PARAMETER_COUNT)
}

// The type operator is taken, and these steps become the last. The answer is their numbers.
fn keep_laws(
    symbols: &mut Symbols,
    terms: &mut TermTable,
    steps: &mut Vec<Step>,
    made: &mut Vec<Made>,
    basis: Basis<'_>,
    laws: LawSteps,
) -> Result<(StepId, StepId), Memory>
    requires known { AreKnownSymbols terms.old symbols.old }
    requires term { IsTermAt terms.old basis.concl.0 }
    requires application { (f : Term) × ((t : Term) × (term_at terms.old basis.concl.0 ≡ app f t)) }
    ensures numbers { IfOk result (λ ids. (ids.0 ≡ length steps.old.items) × (ids.1 ≡ length steps.old.items + 1)) }
    ensures takes { OnOk result (TakesType (named_by basis.entry.names) (term_at terms.old basis.entry.concl.0)
        (symbols_at terms.old symbols.old) (symbols_at terms.new symbols.new)) }
    ensures noted { OnOk result (made.new.items ≡ with_operator made.old.items basis.entry.names.op.now basis.entry.one (length steps.old.items)) }
    ensures kept { OnOk result (steps.new.items ≡ with_laws steps.old.items laws) }
    ensures untaken { OnErr result (symbols.new ≡ symbols.old) }
    ensures unnoted { OnErr result (made.new.items ≡ made.old.items) }
    ensures unkept { OnErr result (steps.new.items ≡ steps.old.items) }
    ensures known { AreKnownSymbols terms.new symbols.new }
    ensures keeps { Keeps terms.old terms.new }
{
    let first = take_before(symbols, terms, steps, made, basis)?;
    steps.push_reserved(laws.first);
    let second = steps.len();
    steps.push_reserved(laws.second);
    Ok((first, second))
}

// The type operator is taken before the next two steps, for which there is room. The answer is the first one's number.
fn take_before(
    symbols: &mut Symbols,
    terms: &mut TermTable,
    steps: &mut Vec<Step>,
    made: &mut Vec<Made>,
    basis: Basis<'_>,
) -> Result<StepId, Memory>
    requires known { AreKnownSymbols terms.old symbols.old }
    requires term { IsTermAt terms.old basis.concl.0 }
    requires application { (f : Term) × ((t : Term) × (term_at terms.old basis.concl.0 ≡ app f t)) }
    ensures number { IfOk result (λ id. id ≡ length steps.old.items) }
    ensures room { OnOk result (vec_len steps.new + 1 < vec_capacity steps.new) }
    ensures takes { OnOk result (TakesType (named_by basis.entry.names) (term_at terms.old basis.entry.concl.0)
        (symbols_at terms.old symbols.old) (symbols_at terms.new symbols.new)) }
    ensures noted { OnOk result (made.new.items ≡ with_operator made.old.items basis.entry.names.op.now basis.entry.one (length steps.old.items)) }
    ensures untaken { OnErr result (symbols.new ≡ symbols.old) }
    ensures unnoted { OnErr result (made.new.items ≡ made.old.items) }
    ensures unkept { steps.new.items ≡ steps.old.items }
    ensures known { AreKnownSymbols terms.new symbols.new }
    ensures keeps { Keeps terms.old terms.new }
{
    let first = steps.len();
    steps.reserve(2)?;
    take_type(symbols, terms, made, basis, first)?;
    Ok(first)
}

// The type operator is taken, and noted as made from its step before two others, from this number on. Room is made first,
// so that nothing fails once it is taken.
fn take_type(
    symbols: &mut Symbols,
    terms: &mut TermTable,
    made: &mut Vec<Made>,
    basis: Basis<'_>,
    first: StepId,
) -> Result<(), Memory>
    requires known { AreKnownSymbols terms.old symbols.old }
    requires term { IsTermAt terms.old basis.concl.0 }
    requires application { (f : Term) × ((t : Term) × (term_at terms.old basis.concl.0 ≡ app f t)) }
    requires number { first < 2 ^ 63 }
    ensures takes { OnOk result (TakesType (named_by basis.entry.names) (term_at terms.old basis.entry.concl.0)
        (symbols_at terms.old symbols.old) (symbols_at terms.new symbols.new)) }
    ensures noted { OnOk result (made.new.items ≡ with_operator made.old.items basis.entry.names.op.now basis.entry.one first) }
    ensures unchanged { OnErr result (symbols.new ≡ symbols.old) }
    ensures unnoted { OnErr result (made.new.items ≡ made.old.items) }
    ensures known { AreKnownSymbols terms.new symbols.new }
    ensures keeps { Keeps terms.old terms.new }
{
    made.reserve(3)?;
    let names = basis.names;
    let own = names.op.clone()?;
    match symbols.define_op(
        terms,
        names.op,
        names.abs,
        names.rep,
        names.variables,
        basis.concl,
    ) {
        Ok(()) => {
            made.push_reserved(Made::TypeOp(own, basis.one));
            made.push_reserved(Made::Step(first));
            made.push_reserved(Made::Step(first + 1));
            Ok(())
        }
        Err(_) => Err(Memory),
    }
}

// The steps of two laws.
fn law_steps(
    alloc: Global,
    names: NewNames<'_>,
    one: StepId,
    laws: Laws,
    version: Version,
) -> Result<LawSteps, Memory>
    ensures { IfOk result (λ steps. AreLawSteps version (named_by names.entry) one laws steps) }
{
    let first = law_step(alloc, StepKind::FirstLaw, names, one, laws.first, version)?;
    let second = law_step(alloc, StepKind::SecondLaw, names, one, laws.second, version)?;
    Ok(LawSteps { first, second })
}

// The step of a law.
fn law_step(
    alloc: Global,
    kind: StepKind,
    names: NewNames<'_>,
    one: StepId,
    sequent: Sequent,
    version: Version,
) -> Result<Step, Memory>
    ensures { IfOk result (λ step. IsLawStep version kind (named_by names.entry) one sequent step) }
{
    let inference = Inference::new(kind, &[one]);
    let parameters = law_parameters(alloc, names, version)?;
    Ok(Step {
        inference,
        parameters,
        sequent,
    })
}

// What the rule of a law was given: the names, each copied, and the version.
fn law_parameters(
    alloc: Global,
    names: NewNames<'_>,
    version: Version,
) -> Result<Parameters, Memory>
    ensures given { IfOk result (λ p. (trees : Trees) → parameters_view trees p ≡ RuleParameters.type_operator (named_by names.entry) version) }
    ensures known { IfOk result (λ p. (trees : Trees) → AreParametersKnown trees p) }
{
    let variables = copied(alloc, names.variables)?;
    let op = names.op.clone()?;
    let abs = names.abs.clone()?;
    let rep = names.rep.clone()?;
    let operator = NewOperator {
        op,
        abs,
        rep,
        names: variables,
        version,
    };
    let given = GivenOperator::new(alloc, operator)?;
    Ok(Parameters::TypeOp(given))
}

// The laws of a new type, whose types are within the limits.
fn laws_of(
    alloc: Global,
    terms: &mut TermTable,
    names: NewNames<'_>,
    parts: TypeParts,
    version: Version,
) -> Result<Laws, Memory>
    requires whole { parts.whole.0 < length terms.old.types }
    requires predicate { parts.predicate.0 < length terms.old.terms }
    requires closed { IsWithoutVariables (term_at terms.old parts.predicate.0) }
    ensures made { IfOk result (λ laws. AreLawsOf version (named_by names.entry) terms.old parts terms.new laws) }
    ensures keeps { Keeps terms.old terms.new }
{
    let part = new_part(alloc, terms, names, parts.whole)?;
    let first = first_law(alloc, terms, part, version)?;
    let second = second_law(alloc, terms, part, parts.whole, parts.predicate, version)?;
    Ok(Laws {
        first: Sequent {
            hyps: Hyps::new(alloc),
            concl: first,
        },
        second: Sequent {
            hyps: Hyps::new(alloc),
            concl: second,
        },
    })
}

// The names, each copied.
fn copied(alloc: Global, names: &[Name]) -> Result<Vec<Name>, Memory>
    ensures { IfOk result (λ copy. copy.items ≡ names.now) }
{
    let mut copy = Vec::new(alloc);
    for name in names {
        copy.reserve(1)?;
        copy.push_reserved(name.clone()?);
    }
    Ok(copy)
}

// Judges every size and then every depth of what a definition makes. One of the laws is the largest, and the second is
// the deepest.
fn judge_measures(
    terms: &TermTable,
    names: NewNames<'_>,
    parts: TypeParts,
    version: Version,
) -> Result<(), Fault>
    requires whole { parts.whole.0 < length terms.now.types }
    requires predicate { parts.predicate.0 < length terms.now.terms }
    ensures within { OnOk result (AreSmall (measures_of_parts version (named_by names.entry) terms.now parts)) }
    ensures refused { IfErr result (λ fault. Fails fault (in_limits (measures_of_parts version (named_by names.entry) terms.now parts))) }
{
    let count = names.variables.len() as u64;
    if law_size(terms, count, parts, version) > GREATEST_SIZE {
        return Err(Fault::Refused(Kind::TooLarge));
    }
    if law_depth(terms, count, parts, version) > GREATEST_DEPTH {
        return Err(Fault::Refused(Kind::TooDeep));
    }
    Ok(())
}

// The size of the larger law in an article of a version, or the greatest number of the type if it is more.
fn law_size(terms: &TermTable, count: u64, parts: TypeParts, version: Version) -> u64
    requires whole { parts.whole.0 < length terms.now.types }
    requires predicate { parts.predicate.0 < length terms.now.terms }
    ensures { result ≡ min (larger_law_size version (type_at terms.now parts.whole.0) count (term_at terms.now parts.predicate.0)) (2 ^ 64 - 1) }
{
    let first = first_size(terms, count, parts.whole, version);
    let second = second_size(terms, count, parts, version);
    first.max(second)
}

// The size of the first law of a part of this type, likewise.
fn first_size(terms: &TermTable, count: u64, whole: TypeId, version: Version) -> u64
    requires { whole.0 < length terms.now.types }
    ensures { result ≡ min (first_law_size version (type_at terms.now whole.0) count) (2 ^ 64 - 1) }
{
    let types = terms.types().size(whole).saturating_mul(2);
    match version {
        Version::Five => types
            .saturating_add(count.saturating_mul(6))
            .saturating_add(20),
        Version::Six => types
            .saturating_add(count.saturating_mul(8))
            .saturating_add(26),
    }
}

// The size of the second law, likewise.
fn second_size(terms: &TermTable, count: u64, parts: TypeParts, version: Version) -> u64
    requires whole { parts.whole.0 < length terms.now.types }
    requires predicate { parts.predicate.0 < length terms.now.terms }
    ensures { result ≡ min (second_law_size version (type_at terms.now parts.whole.0) count (term_at terms.now parts.predicate.0)) (2 ^ 64 - 1) }
{
    let whole = terms.types().size(parts.whole);
    let rest = count
        .saturating_mul(2)
        .saturating_add(terms.size(parts.predicate));
    match version {
        Version::Five => whole
            .saturating_mul(7)
            .saturating_add(rest)
            .saturating_add(26),
        Version::Six => whole
            .saturating_mul(8)
            .saturating_add(rest)
            .saturating_add(30),
    }
}

// The depth of the second law in an article of a version, or the greatest number of the type if it is more.
fn law_depth(terms: &TermTable, count: u64, parts: TypeParts, version: Version) -> u64
    requires whole { parts.whole.0 < length terms.now.types }
    requires predicate { parts.predicate.0 < length terms.now.terms }
    ensures { result ≡ min (second_law_depth version (type_at terms.now parts.whole.0) count (term_at terms.now parts.predicate.0)) (2 ^ 64 - 1) }
{
    let own = count.max(1).saturating_add(count.min(1));
    let types = terms.types().depth(parts.whole).max(own);
    let constants = types.saturating_add(height(version));
    let predicate = terms.depth(parts.predicate).saturating_add(3);
    constants.max(predicate)
}

// How far the second law lies above the types of its constants.
fn height(version: Version) -> u64
    ensures { result ≡ height_above_types version }
{
    match version {
        Version::Five => 8,
        Version::Six => 10,
    }
}
