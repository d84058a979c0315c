//! What a proof made, as numbers of its table.
ghost use Rattle.std.specs.Prelude.{◌≡◌, IfOk};
ghost use Rattle.hol_term.specs.PutIndexes.{IsIndexOf};

use crate::inference::Inference;
use common::Memory;
use hol_name::Name;
use hol_spec::Version;
use hol_term::{PutIndex, TermId, Variable};
use hol_type::TypeId;
use sequent::Sequent;
use std::alloc::{AllocError, Global};
use std::marker::Model;
use std::rc::Rc;

/// The number of a step in its proof: steps are numbered from 0 in order of making.
pub type StepId = usize;

/// Types for type variables and terms for free variables, each list all at once.
#[derive(Drop)]
pub struct Substitution {
    /// Type variables by their names, each with the type that is put for it.
    pub types: Vec<(Name, TypeId)>,
    /// Free variables, each with the term that is put for it.
    pub terms: Vec<(Variable, TermId)>,
}

/// What is put for variables, ready for any number of steps, which share it. Contracts see the substitution.
#[derive(Drop)]
pub struct Put {
    shared: Rc<Ready>,
}

// What is put, and what is made ready of it once.
#[derive(Drop)]
struct Ready {
    put: Substitution,
    index: PutIndex,
}

impl Model for Put {
    ghost use Rattle.hol_rules.specs.declared.made.Substitution.{Substitution as ASubstitution};
    ghost use Rattle.hol_term.specs.PutIndexes.{IsIndexOf};

    ghost Value = { ASubstitution };

    ghost view = { λ put. put.shared.value.put };

    ghost invariant = { λ put. IsIndexOf put.shared.value.index put.shared.value.put.terms.items };
}

impl Put {
    /// What is put.
    pub fn get(&self) -> &Substitution
        ensures { result.now ≡ self.now }
    {
        &self.shared.as_ref().put
    }

    /// The index of the terms that are put.
    pub(crate) fn index(&self) -> &PutIndex
        ensures { IsIndexOf result.now self.now.terms.items }
    {
        &self.shared.as_ref().index
    }

    // A substitution, made ready.
    pub(crate) fn new(alloc: Global, put: Substitution) -> Result<Put, Memory>
        ensures { IfOk result (λ ready. ready ≡ put) }
    {
        let index = PutIndex::new(alloc, &put.terms)?;
        match Rc::new(alloc, Ready { put, index }) {
            Ok(shared) => Ok(Put { shared }),
            Err(_) => Err(Memory),
        }
    }

    /// The same, shared. It takes no memory, and fails only where it has as many copies as can be counted.
    pub fn again(&self) -> Result<Put, Memory>
        ensures { IfOk result (λ put. put ≡ self.now) }
    {
        match self.shared.clone() {
            Ok(shared) => Ok(Put { shared }),
            Err(AllocError) => Err(Memory),
        }
    }
}

/// What a rule was given beside its premises.
#[derive(Drop)]
pub enum Parameters {
    /// Nothing.
    Nothing,
    /// A term.
    Term(TermId),
    /// A free variable.
    Variable(Variable),
    /// What is put for variables.
    Subst(Put),
    /// A sequent that was stated.
    Sequent(Sequent),
    /// A constant, and the term that it stands for.
    Const(Name, TermId),
    /// Constants, each with the variable for which it is put.
    List(Vec<(Name, Variable)>),
    /// A type operator.
    TypeOp(GivenOperator),
}

/// A new type operator, as the rule that defines it was given it.
#[derive(Drop)]
pub struct NewOperator {
    /// The operator.
    pub op: Name,
    /// The constant to the new type.
    pub abs: Name,
    /// The constant from the new type.
    pub rep: Name,
    /// The operator's type variables, in their order.
    pub names: Vec<Name>,
    /// The version of the article, by which the laws are stated.
    pub version: Version,
}

/// A new type operator in a place of its own: few steps were given one. Contracts see the operator.
#[derive(Drop)]
pub struct GivenOperator {
    operator: Rc<NewOperator>,
}

impl Model for GivenOperator {
    ghost use Rattle.hol_rules.specs.declared.made.NewOperator.{NewOperator as AnOperator};

    ghost Value = { AnOperator };

    ghost view = { λ given. given.operator.value };
}

impl GivenOperator {
    /// The operator.
    pub fn get(&self) -> &NewOperator
        ensures { result.now ≡ self.now }
    {
        self.operator.as_ref()
    }

    // The operator, in a place of its own.
    pub(crate) fn new(alloc: Global, operator: NewOperator) -> Result<GivenOperator, Memory>
        ensures { IfOk result (λ given. given ≡ operator) }
    {
        match Rc::new(alloc, operator) {
            Ok(operator) => Ok(GivenOperator { operator }),
            Err(_) => Err(Memory),
        }
    }
}

/// One thing that a proof made.
#[derive(Drop)]
pub enum Made {
    /// An input constant was taken.
    InputConst(Name),
    /// An input operator with so many arguments was taken.
    InputOp(Name, usize),
    /// A constant was defined.
    Const(Name),
    /// A type operator was defined, with the constants to and from the new type, from the step of this number.
    TypeOp(Name, StepId),
    /// The step of this number.
    Step(StepId),
}

/// A step.
#[derive(Drop)]
pub(crate) struct Step {
    pub(crate) inference: Inference,
    pub(crate) parameters: Parameters,
    pub(crate) sequent: Sequent,
}

// A long proof has hundreds of thousands of steps.
const _: () = prove!(size_of::<Step>() <= 80);
