//! What is done with a proof, and what has to be so, as data. A term is given by the words of `terms`, a step by its number.
use crate::bench::{Bench, UNKNOWN};
use common::{Fault, Kind};
use hol_defs::SymbolKind;
use hol_rules::StepId;
use hol_spec::{StepKind, Version};
use hol_term::TermId;

/// A rule, with what it is given.
#[derive(Clone, Copy)]
pub(crate) enum Rule {
    Refl(&'static str),
    Assume(&'static str),
    EqMp(StepId, StepId),
    Sym(StepId),
    Trans(StepId, StepId),
    AbsThm(u8, StepId),
    AppThm(StepId, StepId),
    BetaConv(&'static str),
    DeductAntisym(StepId, StepId),
    ProveHyp(StepId, StepId),
    /// A term for the truth value of this letter.
    Subst(u8, &'static str, StepId),
    SubstTwo((u8, &'static str), (u8, &'static str), StepId),
    /// Truth values for the type variable a, and then a term for the truth value of this letter.
    SubstAfterTypes(u8, &'static str, StepId),
    /// An axiom without hypotheses.
    Given(&'static str),
    /// An axiom of two hypotheses.
    Axiom(&'static str, &'static str, &'static str),
    /// A step again, as a sequent of two hypotheses.
    Restate(StepId, &'static str, &'static str, &'static str),
    DefineConst(&'static [u8], &'static str),
    /// The first law of the operator n with abs and rep, from a step. The second is the step behind it.
    DefineTypeOp(StepId, Version),
}

/// What is done with a proof, or what has to be so.
#[derive(Clone, Copy)]
pub(crate) enum Turn {
    /// A term is made and kept, for the word `&` with its number.
    Keep(&'static str),
    /// A rule makes the step of this number.
    Makes(StepId, Rule),
    /// A rule is refused for this reason.
    Refused(Rule, Kind),
    /// A step says that a conclusion follows from these hypotheses, in this order.
    Says(StepId, &'static [&'static str], &'static str),
    /// A step says that two terms, of whatever type, are equal under these hypotheses, in this order.
    Equates(StepId, &'static [&'static str], &'static str, &'static str),
    /// A step was made by this rule of these steps.
    By(StepId, StepKind, &'static [StepId]),
    /// Its rule was given nothing beside its premises.
    Nothing(StepId),
    /// Its rule was given this term.
    Term(StepId, &'static str),
    /// Its rule was given the variable of this letter.
    Variable(StepId, u8),
    /// Its rule was given a sequent of these hypotheses and this conclusion.
    Sequent(StepId, &'static [&'static str], &'static str),
    /// Its rule was given an operator in an article of this version.
    Version(StepId, Version),
    /// There are so many steps.
    Steps(usize),
    /// So many things were made.
    Things(usize),
    /// So many symbols are taken.
    Symbols(usize),
    /// An operator is used with so many arguments.
    UsesOp(&'static [u8], usize),
    /// A constant is used as a truth value.
    UsesConst(&'static [u8]),
    /// The use of an operator is refused.
    OpRefused(&'static [u8], usize, Kind),
    /// The use of a constant as a truth value is refused.
    ConstRefused(&'static [u8], Kind),
    /// A name is taken so as an operator, and so as a constant.
    Taken(&'static [u8], Option<SymbolKind>, Option<SymbolKind>),
    /// The thing of this number that was made is an operator of so many arguments.
    Operator(usize, &'static [u8], usize),
    /// It is a constant.
    Constant(usize, &'static [u8]),
    /// It is this step.
    StepAt(usize, StepId),
    /// It is a constant that was defined.
    Defined(usize, &'static [u8]),
    /// It is an operator that was defined from this step.
    DefinedFrom(usize, &'static [u8], StepId),
}

/// A case: its name, and its turns one after another, over a proof of its own.
#[derive(Clone, Copy)]
pub(crate) struct Case {
    pub(crate) name: &'static str,
    pub(crate) turns: &'static [Turn],
}

// Whether this was done. Want of memory is no answer.
fn is_done(answer: Result<(), Fault>) -> Result<bool, Fault> {
    match answer {
        Ok(()) => Ok(true),
        Err(fault) => Err(fault),
    }
}

impl Bench {
    // The step that a rule makes.
    fn step(&mut self, rule: Rule) -> Result<StepId, Fault> {
        match rule {
            Rule::EqMp(one, two)
            | Rule::Trans(one, two)
            | Rule::AppThm(one, two)
            | Rule::DeductAntisym(one, two)
            | Rule::ProveHyp(one, two) => self.of_steps(rule, one, two),
            Rule::Sym(one) => self.sym(one),
            Rule::AbsThm(letter, one) => self.abs_thm(letter, one),
            Rule::DefineTypeOp(one, version) => self.law_of_n(one, version),
            Rule::SubstTwo(first, second, one) => {
                let front = self.term(first.1)?;
                let back = self.term(second.1)?;
                self.subst_two((first.0, front), (second.0, back), one)
            }
            Rule::Axiom(first, second, concl) => {
                let first = self.term(first)?;
                let second = self.term(second)?;
                let concl = self.term(concl)?;
                self.axiom(first, second, concl)
            }
            Rule::Restate(one, first, second, concl) => {
                let first = self.term(first)?;
                let second = self.term(second)?;
                let concl = self.term(concl)?;
                self.restate(one, first, second, concl)
            }
            Rule::Refl(t)
            | Rule::Assume(t)
            | Rule::BetaConv(t)
            | Rule::Given(t)
            | Rule::Subst(_, t, _)
            | Rule::SubstAfterTypes(_, t, _)
            | Rule::DefineConst(_, t) => {
                let t = self.term(t)?;
                self.step_of(rule, t)
            }
        }
    }

    // The step that a rule makes that is given one term.
    fn step_of(&mut self, rule: Rule, t: TermId) -> Result<StepId, Fault> {
        match rule {
            Rule::Subst(letter, _, one) => self.subst(letter, t, one),
            Rule::SubstAfterTypes(letter, _, one) => self.subst_after_types(letter, t, one),
            Rule::DefineConst(name, _) => self.define_const(name, t),
            _ => self.of_term(rule, t),
        }
    }

    // The first law of the operator n, from a step, where the second is the step behind it.
    fn law_of_n(&mut self, one: StepId, version: Version) -> Result<StepId, Fault> {
        let (first, second) = self.define_type_op(b"n", b"abs", b"rep", one, version)?;
        if second == first.saturating_add(1) {
            Ok(first)
        } else {
            Err(UNKNOWN)
        }
    }

    // Whether a turn that asks for terms comes out as it must.
    fn holds_of_terms(&mut self, turn: Turn) -> Result<bool, Fault> {
        match turn {
            Turn::Says(id, hyps, concl) => {
                self.ask(hyps)?;
                let concl = self.term(concl)?;
                Ok(self.concludes(id, concl))
            }
            Turn::Equates(id, hyps, left, right) => {
                self.ask(hyps)?;
                let left = self.term(left)?;
                let right = self.term(right)?;
                Ok(self.concludes_equal(id, left, right))
            }
            Turn::Sequent(id, hyps, concl) => {
                self.ask(hyps)?;
                let concl = self.term(concl)?;
                Ok(self.is_given(id, concl))
            }
            Turn::Term(id, t) => {
                let t = self.term(t)?;
                Ok(self.has_term(id, t))
            }
            _ => Err(UNKNOWN),
        }
    }

    // Makes a term and keeps it.
    fn keep_term(&mut self, t: &str) -> Result<(), Fault> {
        let term = self.term(t)?;
        self.keep(term)
    }

    // Whether a rule makes the step of this number.
    fn makes(&mut self, id: StepId, rule: Rule) -> Result<bool, Fault> {
        Ok(self.step(rule)? == id)
    }

    // Whether a turn that asks for what was made comes out as it must.
    fn holds_of_made(&self, turn: Turn) -> Result<bool, Fault> {
        match turn {
            Turn::Steps(count) => Ok(self.proof.len() == count),
            Turn::Things(count) => Ok(self.proof.made().len() == count),
            Turn::Symbols(count) => Ok(self.proof.symbols().count() == count),
            Turn::Taken(name, operator, constant) => Ok(self.kinds(name)? == (operator, constant)),
            Turn::Operator(index, name, _)
            | Turn::Constant(index, name)
            | Turn::Defined(index, name)
            | Turn::DefinedFrom(index, name, _) => self.is_made(turn, index, name),
            Turn::StepAt(index, id) => Ok(self.is_step_at(index, id)),
            Turn::By(id, kind, premises) => Ok(self.is_by(id, kind, premises)),
            Turn::Nothing(id) => Ok(self.has_nothing(id)),
            Turn::Variable(id, letter) => self.has_variable(id, letter),
            Turn::Version(id, version) => Ok(self.has_version(id, version)),
            _ => Err(UNKNOWN),
        }
    }

    // Whether a turn comes out as it must.
    fn holds(&mut self, turn: Turn) -> Result<bool, Fault> {
        match turn {
            Turn::Keep(t) => is_done(self.keep_term(t)),
            Turn::Makes(id, rule) => self.makes(id, rule),
            Turn::Refused(rule, kind) => Ok(self.step(rule) == Err(Fault::Refused(kind))),
            Turn::Says(..) | Turn::Equates(..) | Turn::Sequent(..) | Turn::Term(..) => {
                self.holds_of_terms(turn)
            }
            Turn::UsesOp(name, arity) => is_done(self.use_op(name, arity)),
            Turn::UsesConst(name) => is_done(self.use_const(name)),
            Turn::OpRefused(name, arity, kind) => {
                Ok(self.use_op(name, arity) == Err(Fault::Refused(kind)))
            }
            Turn::ConstRefused(name, kind) => {
                Ok(self.use_const(name) == Err(Fault::Refused(kind)))
            }
            _ => self.holds_of_made(turn),
        }
    }

    /// Whether each turn comes out as it must.
    pub(crate) fn all_hold(&mut self, turns: &[Turn]) -> Result<bool, Fault> {
        for turn in turns {
            if !self.holds(*turn)? {
                return Ok(false);
            }
        }
        Ok(true)
    }
}
