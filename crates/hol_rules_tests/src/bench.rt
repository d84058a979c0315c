//! A proof whose calls judge the numbers that they are given, and the few terms that the tests speak of.
ghost use Rattle.std.specs.Prelude.{◌<◌, length, IfOk, IsTrue};
ghost use Rattle.hol_term.specs.Tables.{IsTermAt};
ghost use Rattle.hol_rules.specs.Kept.{step_count};

use crate::turns::{Rule, Turn};
use common::{Fault, Kind, Memory};
use hol_defs::SymbolKind;
use hol_name::Name;
use hol_rules::{Made, Parameters, Proof, StepId};
use hol_spec::{StepKind, Version};
use hol_term::{TermId, Variable};
use hol_type::TypeId;
use std::alloc::Global;

/// What the bench answers where a number is of no term and of no step. No rule answers so.
pub(crate) const UNKNOWN: Fault = Fault::Refused(Kind::WrongKind);

/// How a name is taken, as an operator and as a constant.
pub(crate) type Kinds = (Option<SymbolKind>, Option<SymbolKind>);

/// A proof, the terms that were made last, those that are kept, and the hypotheses that are asked for.
#[derive(Drop)]
pub(crate) struct Bench {
    pub(crate) proof: Proof,
    made: Vec<TermId>,
    kept: Vec<TermId>,
    hyps: Vec<TermId>,
    alloc: Global,
}

impl Bench {
    pub(crate) fn new(alloc: Global) -> Result<Bench, Memory> {
        let proof = Proof::new(alloc)?;
        Ok(Bench {
            proof,
            made: Vec::new(alloc),
            kept: Vec::new(alloc),
            hyps: Vec::new(alloc),
            alloc,
        })
    }

    /// Forgets the terms that were made.
    pub(crate) fn clear(&mut self) {
        self.made.clear();
    }

    /// Puts a term behind them.
    pub(crate) fn push(&mut self, term: TermId) -> Result<(), Fault> {
        match self.made.push(term) {
            Ok(()) => Ok(()),
            Err(_) => Err(Fault::Memory),
        }
    }

    /// Asks for no hypothesis.
    pub(crate) fn clear_hyps(&mut self) {
        self.hyps.clear();
    }

    /// Asks for a hypothesis behind those that are asked for.
    pub(crate) fn push_hyp(&mut self, hyp: TermId) -> Result<(), Fault> {
        match self.hyps.push(hyp) {
            Ok(()) => Ok(()),
            Err(_) => Err(Fault::Memory),
        }
    }

    /// Keeps a term.
    pub(crate) fn keep(&mut self, term: TermId) -> Result<(), Fault> {
        match self.kept.push(term) {
            Ok(()) => Ok(()),
            Err(_) => Err(Fault::Memory),
        }
    }

    /// The term of this number of those that are kept.
    pub(crate) fn kept(&self, index: u32) -> Result<TermId, Fault> {
        match self.kept.get(index as usize) {
            Some(term) => Ok(*term),
            None => Err(UNKNOWN),
        }
    }

    /// Takes the last of them.
    pub(crate) fn pop(&mut self) -> Result<TermId, Fault> {
        match self.made.pop() {
            Some(term) => Ok(term),
            None => Err(UNKNOWN),
        }
    }

    fn name(&self, text: &[u8]) -> Result<Name, Fault> {
        match Name::single(self.alloc, text) {
            Ok(name) => Ok(name),
            Err(_) => Err(Fault::Memory),
        }
    }

    fn is_type(&self, id: TypeId) -> bool
        ensures { IsTrue result → id.0 < length self.now.proof.trees.types }
    {
        id.0 < self.proof.terms().types().count()
    }

    fn is_term(&self, id: TermId) -> bool
        ensures { IsTrue result → IsTermAt self.now.proof.trees id.0 }
    {
        let terms = self.proof.terms();
        if id.0 >= terms.count() {
            return false;
        }
        match terms.ty(id) {
            Some(_) => true,
            None => false,
        }
    }

    fn is_step(&self, id: StepId) -> bool
        ensures { IsTrue result → id < step_count self.now.proof }
    {
        id < self.proof.len()
    }

    // The type that an operator of no arguments makes.
    fn nullary(&mut self, operator: &[u8]) -> Result<TypeId, Fault>
        ensures { IfOk result (λ id. id.0 < length self.new.proof.trees.types) }
    {
        let name = self.name(operator)?;
        self.proof.ty_op(&name, &[])
    }

    // The type of truth values.
    fn boolean(&mut self) -> Result<TypeId, Fault>
        ensures { IfOk result (λ id. id.0 < length self.new.proof.trees.types) }
    {
        self.nullary(b"bool")
    }

    fn function(&mut self, domain: TypeId, codomain: TypeId) -> Result<TypeId, Fault>
        ensures { IfOk result (λ id. id.0 < length self.new.proof.trees.types) }
    {
        if !self.is_type(domain) || !self.is_type(codomain) {
            return Err(UNKNOWN);
        }
        let name = self.name(b"->")?;
        self.proof.ty_op(&name, &[domain, codomain])
    }

    // bool -> bool
    fn predicate(&mut self) -> Result<TypeId, Fault>
        ensures { IfOk result (λ id. id.0 < length self.new.proof.trees.types) }
    {
        let truth = self.boolean()?;
        self.function(truth, truth)
    }

    // The variable of a name and a type.
    fn free(&mut self, text: &[u8], ty: TypeId) -> Result<TermId, Fault>
        requires { ty.0 < length self.old.proof.trees.types }
    {
        let name = self.name(text)?;
        self.proof.free(&name, ty)
    }

    // The constant of a name and a type.
    fn constant(&mut self, text: &[u8], ty: TypeId) -> Result<TermId, Fault>
        requires { ty.0 < length self.old.proof.trees.types }
    {
        let name = self.name(text)?;
        self.proof.constant(&name, ty)
    }

    // The input constant of a name and a type, which is used and made.
    fn used(&mut self, text: &[u8], ty: TypeId) -> Result<TermId, Fault>
        requires { ty.0 < length self.old.proof.trees.types }
    {
        let name = self.name(text)?;
        self.proof.use_const(&name, ty)?;
        self.proof.constant(&name, ty)
    }

    // The variable of a name, a truth value.
    fn named(&mut self, text: &[u8]) -> Result<TermId, Fault> {
        let ty = self.boolean()?;
        self.free(text, ty)
    }

    /// The variable of this letter, a truth value.
    pub(crate) fn truth(&mut self, letter: u8) -> Result<TermId, Fault> {
        self.named(&[letter])
    }

    /// The variable f, a function from truth values to truth values.
    pub(crate) fn f(&mut self) -> Result<TermId, Fault> {
        let ty = self.predicate()?;
        self.free(b"f", ty)
    }

    /// The variable of this number, a truth value.
    pub(crate) fn numbered(&mut self, number: u32) -> Result<TermId, Fault> {
        self.named(&number.to_le_bytes())
    }

    // Equality of what has this type.
    fn equality_of(&mut self, ty: TypeId) -> Result<TermId, Fault> {
        let truth = self.boolean()?;
        let predicate = self.function(ty, truth)?;
        let relation = self.function(ty, predicate)?;
        self.constant(b"=", relation)
    }

    // Equality of truth values.
    fn equality(&mut self) -> Result<TermId, Fault> {
        let truth = self.boolean()?;
        self.equality_of(truth)
    }

    // The input constant u, of predicates of truth values.
    fn u(&mut self) -> Result<TermId, Fault> {
        let truth = self.boolean()?;
        let predicate = self.predicate()?;
        let ty = self.function(predicate, truth)?;
        self.used(b"u", ty)
    }

    /// u of a predicate.
    pub(crate) fn u_of(&mut self, predicate: TermId) -> Result<TermId, Fault> {
        let u = self.u()?;
        self.app(u, predicate)
    }

    /// f so many times over a truth value.
    pub(crate) fn iterated(&mut self, count: u32, start: TermId) -> Result<TermId, Fault> {
        let f = self.f()?;
        let mut term = start;
        for _ in 0..count {
            term = self.app(f, term)?;
        }
        Ok(term)
    }

    /// A truth value equated with itself, and that again, so many times.
    pub(crate) fn doubled(&mut self, count: u32, start: TermId) -> Result<TermId, Fault> {
        let mut term = start;
        for _ in 0..count {
            term = self.equation(term, term)?;
        }
        Ok(term)
    }

    // The equation of 32 variables, from this number on.
    fn row(&mut self, equality: TermId, first: u32) -> Result<TermId, Fault> {
        let mut term = self.numbered(first)?;
        for more in 1..32u32 {
            let variable = self.numbered(first.saturating_add(more))?;
            term = self.equated(equality, variable, term)?;
        }
        Ok(term)
    }

    // The equation of 32 rows, from this row on.
    fn block(&mut self, equality: TermId, first: u32) -> Result<TermId, Fault> {
        let mut term = self.row(equality, first.saturating_mul(32))?;
        for more in 1..32u32 {
            let row = self.row(equality, first.saturating_add(more).saturating_mul(32))?;
            term = self.equated(equality, row, term)?;
        }
        Ok(term)
    }

    /// The equation of so many blocks of 1,024 variables, from this block on.
    pub(crate) fn blocks(&mut self, first: u32, count: u32) -> Result<TermId, Fault> {
        let equality = self.equality()?;
        let mut term = self.block(equality, first.saturating_mul(32))?;
        for more in 1..count {
            let block = self.block(equality, first.saturating_add(more).saturating_mul(32))?;
            term = self.equated(equality, block, term)?;
        }
        Ok(term)
    }

    /// The use of an operator with so many arguments.
    pub(crate) fn use_op(&mut self, text: &[u8], arity: usize) -> Result<(), Fault> {
        let name = self.name(text)?;
        self.proof.use_op(&name, arity)
    }

    /// The use of a constant as a truth value.
    pub(crate) fn use_const(&mut self, text: &[u8]) -> Result<(), Fault> {
        let ty = self.boolean()?;
        let name = self.name(text)?;
        self.proof.use_const(&name, ty)
    }

    /// How a name is taken: as an operator, and as a constant.
    pub(crate) fn kinds(&self, text: &[u8]) -> Result<Kinds, Fault> {
        let name = self.name(text)?;
        let symbols = self.proof.symbols();
        Ok((symbols.op_kind(&name), symbols.const_kind(&name)))
    }

    // Whether the thing of this number that was made is what a turn asks for, of this name.
    fn is_thing(&self, turn: Turn, index: usize, name: &Name) -> bool {
        match (turn, self.proof.made().get(index)) {
            (Turn::Operator(_, _, arity), Some(Made::InputOp(own, count))) => {
                *own == *name && *count == arity
            }
            (Turn::Constant(..), Some(Made::InputConst(own))) => *own == *name,
            (Turn::Defined(..), Some(Made::Const(own))) => *own == *name,
            (Turn::DefinedFrom(_, _, id), Some(Made::TypeOp(own, one))) => {
                *own == *name && *one == id
            }
            _ => false,
        }
    }

    /// The same, of the name of this text.
    pub(crate) fn is_made(&self, turn: Turn, index: usize, text: &[u8]) -> Result<bool, Fault> {
        let name = self.name(text)?;
        let is = self.is_thing(turn, index, &name);
        drop(name);
        Ok(is)
    }

    /// Whether it is this step.
    pub(crate) fn is_step_at(&self, index: usize, id: StepId) -> bool {
        let made = self.proof.made().get(index);
        matches!(made, Some(Made::Step(own)) if *own == id)
    }

    /// The application of a term to another.
    pub(crate) fn app(&mut self, f: TermId, x: TermId) -> Result<TermId, Fault> {
        if self.is_term(f) && self.is_term(x) {
            self.proof.app(f, x)
        } else {
            Err(UNKNOWN)
        }
    }

    /// The equation of two truth values.
    pub(crate) fn equation(&mut self, left: TermId, right: TermId) -> Result<TermId, Fault> {
        let equality = self.equality()?;
        self.equated(equality, left, right)
    }

    // The same by equality of truth values.
    fn equated(&mut self, equality: TermId, left: TermId, right: TermId) -> Result<TermId, Fault> {
        let half = self.app(equality, left)?;
        self.app(half, right)
    }

    // The abstraction of a term over the variable of this letter and type.
    fn bind(&mut self, letter: u8, ty: TypeId, body: TermId) -> Result<TermId, Fault>
        requires ty { ty.0 < length self.old.proof.trees.types }
    {
        if !self.is_term(body) {
            return Err(UNKNOWN);
        }
        let name = self.name(&[letter])?;
        self.proof.abs(&Variable { name, ty }, body)
    }

    /// Of the type of a term: its abstraction over the variable of this letter, the variable, or the constant.
    pub(crate) fn alike(&mut self, code: u8, letter: u8, t: TermId) -> Result<TermId, Fault> {
        if !self.is_term(t) {
            return Err(UNKNOWN);
        }
        let ty = self.proof.terms().type_of(t);
        match code {
            b'/' => self.bind(letter, ty, t),
            b'?' => self.free(&[letter], ty),
            _ => self.constant(&[letter], ty),
        }
    }

    /// The abstraction of a term over the truth value of this letter.
    pub(crate) fn abs(&mut self, letter: u8, body: TermId) -> Result<TermId, Fault> {
        let ty = self.boolean()?;
        self.bind(letter, ty, body)
    }

    /// Whether a step says that a conclusion follows from the hypotheses that are asked for, in their order.
    pub(crate) fn concludes(&self, id: StepId, concl: TermId) -> bool {
        if !self.is_step(id) {
            return false;
        }
        let said = self.proof.sequent(id);
        said.concl == concl && said.hyps.ids() == self.hyps.as_slice()
    }

    /// Whether a step says that two terms, of whatever type, are equal under them.
    pub(crate) fn concludes_equal(&self, id: StepId, left: TermId, right: TermId) -> bool {
        if !self.is_step(id) {
            return false;
        }
        let said = self.proof.sequent(id);
        self.is_term(said.concl)
            && self.proof.terms().dest_eq(said.concl) == Some((left, right))
            && said.hyps.ids() == self.hyps.as_slice()
    }

    /// Whether its rule was given the sequent of this conclusion under them.
    pub(crate) fn is_given(&self, id: StepId, concl: TermId) -> bool {
        if !self.is_step(id) {
            return false;
        }
        match self.proof.params(id) {
            Parameters::Sequent(own) => {
                own.concl == concl && own.hyps.ids() == self.hyps.as_slice()
            }
            _ => false,
        }
    }

    /// Whether a step was made by this rule of these steps.
    pub(crate) fn is_by(&self, id: StepId, kind: StepKind, premises: &[StepId]) -> bool {
        self.is_step(id) && self.proof.kind(id) == kind && self.proof.premises(id) == premises
    }

    /// Whether its rule was given nothing beside its premises.
    pub(crate) fn has_nothing(&self, id: StepId) -> bool {
        self.is_step(id) && matches!(self.proof.params(id), Parameters::Nothing)
    }

    /// Whether its rule was given this term.
    pub(crate) fn has_term(&self, id: StepId, term: TermId) -> bool {
        self.is_step(id) && matches!(self.proof.params(id), Parameters::Term(own) if *own == term)
    }

    /// Whether its rule was given the variable of this letter.
    pub(crate) fn has_variable(&self, id: StepId, letter: u8) -> Result<bool, Fault> {
        let name = self.name(&[letter])?;
        Ok(
            self.is_step(id)
                && matches!(self.proof.params(id), Parameters::Variable(own) if own.name == name),
        )
    }

    /// The step that a rule makes that is given one term.
    pub(crate) fn of_term(&mut self, rule: Rule, t: TermId) -> Result<StepId, Fault> {
        if !self.is_term(t) {
            return Err(UNKNOWN);
        }
        match rule {
            Rule::Refl(_) => self.proof.refl(t),
            Rule::Assume(_) => self.proof.assume(t),
            Rule::BetaConv(_) => self.proof.beta_conv(t),
            _ => self.proof.axiom(&[], t),
        }
    }

    /// The step that a rule makes of two.
    pub(crate) fn of_steps(
        &mut self,
        rule: Rule,
        one: StepId,
        two: StepId,
    ) -> Result<StepId, Fault> {
        if !self.is_step(one) || !self.is_step(two) {
            return Err(UNKNOWN);
        }
        match rule {
            Rule::EqMp(..) => self.proof.eq_mp(one, two),
            Rule::Trans(..) => self.proof.trans(one, two),
            Rule::AppThm(..) => self.proof.app_thm(one, two),
            Rule::DeductAntisym(..) => self.proof.deduct_antisym(one, two),
            _ => self.proof.prove_hyp(one, two),
        }
    }

    /// The variable of this letter, of type a.
    pub(crate) fn of_type_a(&mut self, letter: u8) -> Result<TermId, Fault> {
        let ty = self.a()?;
        self.free(&[letter], ty)
    }

    // The type variable a.
    fn a(&mut self) -> Result<TypeId, Fault>
        ensures { IfOk result (λ id. id.0 < length self.new.proof.trees.types) }
    {
        let name = self.name(b"a")?;
        self.proof.ty_var(&name)
    }

    /// The input constant k, a relation, of two terms.
    pub(crate) fn k_of(&mut self, x: TermId, y: TermId) -> Result<TermId, Fault> {
        let predicate = self.predicate()?;
        if !self.is_term(x) {
            return Err(UNKNOWN);
        }
        let domain = self.proof.terms().type_of(x);
        let ty = self.function(domain, predicate)?;
        let k = self.used(b"k", ty)?;
        let half = self.app(k, x)?;
        self.app(half, y)
    }

    /// A step with a term for the truth value of this letter.
    pub(crate) fn subst(&mut self, letter: u8, t: TermId, one: StepId) -> Result<StepId, Fault> {
        let ty = self.boolean()?;
        if !self.is_step(one) || !self.is_term(t) {
            return Err(UNKNOWN);
        }
        let name = self.name(&[letter])?;
        self.proof.subst(&[], &[(Variable { name, ty }, t)], one)
    }

    /// A step with terms for the truth values of two letters.
    pub(crate) fn subst_two(
        &mut self,
        first: (u8, TermId),
        second: (u8, TermId),
        one: StepId,
    ) -> Result<StepId, Fault> {
        let ty = self.boolean()?;
        if !self.is_step(one) || !self.is_term(first.1) || !self.is_term(second.1) {
            return Err(UNKNOWN);
        }
        let front = self.name(&[first.0])?;
        let back = self.name(&[second.0])?;
        let pairs = [
            (Variable { name: front, ty }, first.1),
            (Variable { name: back, ty }, second.1),
        ];
        self.proof.subst(&[], &pairs, one)
    }

    /// A step with truth values for the type variable a, and then a term for the truth value of this letter.
    pub(crate) fn subst_after_types(
        &mut self,
        letter: u8,
        t: TermId,
        one: StepId,
    ) -> Result<StepId, Fault> {
        let ty = self.boolean()?;
        if !self.is_step(one) || !self.is_term(t) {
            return Err(UNKNOWN);
        }
        let a = self.name(b"a")?;
        let name = self.name(&[letter])?;
        self.proof
            .subst(&[(a, ty)], &[(Variable { name, ty }, t)], one)
    }

    pub(crate) fn sym(&mut self, one: StepId) -> Result<StepId, Fault> {
        if self.is_step(one) {
            self.proof.sym(one)
        } else {
            Err(UNKNOWN)
        }
    }

    /// Both sides under an abstraction over the truth value of this letter.
    pub(crate) fn abs_thm(&mut self, letter: u8, one: StepId) -> Result<StepId, Fault> {
        let ty = self.boolean()?;
        if !self.is_step(one) {
            return Err(UNKNOWN);
        }
        let name = self.name(&[letter])?;
        self.proof.abs_thm(&Variable { name, ty }, one)
    }

    /// An axiom of two hypotheses.
    pub(crate) fn axiom(
        &mut self,
        first: TermId,
        second: TermId,
        concl: TermId,
    ) -> Result<StepId, Fault> {
        if self.is_term(first) && self.is_term(second) && self.is_term(concl) {
            self.proof.axiom(&[first, second], concl)
        } else {
            Err(UNKNOWN)
        }
    }

    /// A step again, as a sequent of two hypotheses.
    pub(crate) fn restate(
        &mut self,
        one: StepId,
        first: TermId,
        second: TermId,
        concl: TermId,
    ) -> Result<StepId, Fault> {
        let known = self.is_term(first) && self.is_term(second) && self.is_term(concl);
        if known && self.is_step(one) {
            self.proof.restate(one, &[first, second], concl)
        } else {
            Err(UNKNOWN)
        }
    }

    /// The equation of two terms of one type.
    pub(crate) fn equal(&mut self, left: TermId, right: TermId) -> Result<TermId, Fault> {
        if !self.is_term(left) {
            return Err(UNKNOWN);
        }
        let ty = self.proof.terms().type_of(left);
        let equality = self.equality_of(ty)?;
        self.equated(equality, left, right)
    }

    pub(crate) fn define_const(&mut self, text: &[u8], t: TermId) -> Result<StepId, Fault> {
        if !self.is_term(t) {
            return Err(UNKNOWN);
        }
        let name = self.name(text)?;
        self.proof.define_const(&name, t)
    }

    /// The variable of this letter, of the type that an operator of no arguments makes.
    pub(crate) fn of_operator(&mut self, letter: u8, operator: &[u8]) -> Result<TermId, Fault> {
        let ty = self.nullary(operator)?;
        self.free(&[letter], ty)
    }

    /// The constant of a name, a function to the type of another term, of a term.
    pub(crate) fn mapped(&mut self, text: &[u8], x: TermId, like: TermId) -> Result<TermId, Fault> {
        if !self.is_term(x) || !self.is_term(like) {
            return Err(UNKNOWN);
        }
        let from = self.proof.terms().type_of(x);
        let to = self.proof.terms().type_of(like);
        let ty = self.function(from, to)?;
        let constant = self.constant(text, ty)?;
        self.app(constant, x)
    }

    /// Whether its rule was given an operator in an article of this version.
    pub(crate) fn has_version(&self, id: StepId, version: Version) -> bool {
        if !self.is_step(id) {
            return false;
        }
        match self.proof.params(id) {
            Parameters::TypeOp(given) => given.get().version == version,
            _ => false,
        }
    }

    /// The laws of an operator of no arguments, from a step.
    pub(crate) fn define_type_op(
        &mut self,
        operator: &[u8],
        abs: &[u8],
        rep: &[u8],
        one: StepId,
        version: Version,
    ) -> Result<(StepId, StepId), Fault> {
        if !self.is_step(one) {
            return Err(UNKNOWN);
        }
        let op = self.name(operator)?;
        let abs = self.name(abs)?;
        let rep = self.name(rep)?;
        self.proof
            .define_type_op(&op, &abs, &rep, &[], one, version)
    }
}
