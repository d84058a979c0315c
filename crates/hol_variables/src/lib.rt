//! The parameters of terms and sequents, found once for each term.
//!
//! A memo notes of each type and each term of a table which type variables and which free variables it has. A call notes what has come into the
//! table since the call before, from the lowest number up, so that the parts of a term are noted before it, and then reads what is asked.
//! Lists of variables are kept by number and shared: a term has the list of its function where its argument adds nothing. A long
//! list, of more than 1,024 variables, isn't kept: what has so many is walked anew, each time that it is asked for.
//!
//! So all calls over one table together look at each of its types and terms once, which costs the look-up of each variable of the argument among
//! those of the function; a call that comes upon nothing new takes the time of the lists that it reads. The table may grow between calls, and is to
//! be the same table each time: what was noted stays right where each number keeps its type or its term (`AreNoted-keeps`).
//!
//! ```
//! let mut memo = ParamMemo::new(alloc);
//! let count = memo.count(&table, &sequent)?;
//! let free = memo.has_free(&table, &variable, sequent.concl)?;
//! ```
//!
//! | Module | What it does |
//! |---|---|
//! | `numbers` | sets of numbers, in order of coming |
//! | `lists` | lists of numbers, each under a number, and their unions |
//! | `packed` | the lists of a term, in eight bytes |
//! | `catching_up` | what is noted of each type and term |
//! | `counting` | the count of a sequent's parameters, by what is noted |
//! | `reading` | the parameters of a sequent, by what is noted |
//! | `walking` | a count and an answer by a walk, for what has too many variables |
#![tactic(auto)]

ghost use Rattle.std.specs.Prelude.{◌≡◌, ◌<◌, ◌-◌, ◌^◌, [], length, min, IfOk};
ghost use Rattle.hol_spec.specs.Lists.{is_in};
ghost use Rattle.hol_spec.specs.Sequents.{free_variables_of, parameter_count, type_variables_of};
ghost use Rattle.hol_spec.specs.Terms.{free_places, variable_eq};
ghost use Rattle.hol_term.specs.Subterms.{HaveTypes, variables_of};
ghost use Rattle.hol_term.specs.Tables.{Trees, term_at};
ghost use Rattle.hol_type.specs.Tables as type;
ghost use Rattle.sequent.specs.Sequents.{sequent_at, IsKnown};
ghost use Rattle.hol_variables.specs.Noted.{AreNoted};
ghost use Rattle.hol_variables.specs.Variables.{variable_view};

mod catching_up;
mod counting;
mod lists;
mod numbers;
mod packed;
mod reading;
mod walking;

use crate::lists::{ListId, Lists};
use crate::packed::Packed;
use crate::walking::{is_walked, walked};
use common::Memory;
use hol_term::{TermId, TermTable, Variable};
use sequent::{Params, Sequent};
use std::alloc::Global;

/// What is noted of the types and the terms of a table: the variables of each, by number.
#[derive(Drop)]
pub struct ParamMemo {
    alloc: Global,
    names: Lists,
    variables: Lists,
    types: Vec<Option<ListId>>,
    terms: Vec<Packed>,
}

/// The lists of a term's type variables and of its free variables, where they are kept.
#[derive(Clone, Copy)]
pub(crate) struct Own {
    pub(crate) names: Option<ListId>,
    pub(crate) variables: Option<ListId>,
}

impl ParamMemo {
    /// Nothing is noted. It takes no memory.
    pub fn new(alloc: Global) -> Self
        ensures noted { (trees : Trees) → AreNoted trees result }
    {
        ParamMemo {
            alloc,
            names: Lists::new(alloc),
            variables: Lists::new(alloc),
            types: Vec::new(alloc),
            terms: Vec::new(alloc),
        }
    }

    /// How many type variables, free variables and hypotheses the sequent has, or the greatest number of the type if they are more.
    pub fn count(&mut self, terms: &TermTable, sequent: &Sequent) -> Result<usize, Memory>
        requires known { IsKnown terms.now sequent.now }
        requires noted { AreNoted terms.now self.old }
        ensures count { IfOk result (λ count. count ≡ min (parameter_count (sequent_at terms.now sequent.now)) (2 ^ 64 - 1)) }
        ensures noted { AreNoted terms.now self.new }
    {
        self.catch_up(terms)?;
        match self.counted(terms, sequent)? {
            Some(count) => Ok(count),
            None => walked(self.alloc, terms, sequent),
        }
    }

    /// The type variables and the free variables of a sequent, each in order of first occurrence in the hypotheses in order, and then in the
    /// conclusion. They are read off what is noted, and found by a walk where a term isn't noted yet or has a list that isn't kept.
    pub fn params(&self, terms: &TermTable, sequent: &Sequent) -> Result<Params, Memory>
        requires known { IsKnown terms.now sequent.now }
        requires noted { AreNoted terms.now self.now }
        ensures type_vars { IfOk result (λ params. params.type_vars ≡ type_variables_of (sequent_at terms.now sequent.now)) }
        ensures free_vars { IfOk result (λ params. variables_of terms.now params.free_vars ≡ free_variables_of (sequent_at terms.now sequent.now)) }
        ensures known { IfOk result (λ params. HaveTypes terms.now params.free_vars) }
        ensures one_each { IfOk result (λ params. type.IsDistinct terms.now.types) }
    {
        let mut params = Params::new(self.alloc);
        if self.read(terms, sequent, &mut params)? {
            return Ok(params);
        }
        drop(params);
        sequent.params(self.alloc, terms)
    }

    /// Whether the variable is free in the term.
    pub fn has_free(
        &mut self,
        terms: &TermTable,
        variable: &Variable,
        id: TermId,
    ) -> Result<bool, Memory>
        requires variable { variable.now.ty.0 < length terms.now.types }
        requires id { id.0 < length terms.now.terms }
        requires noted { AreNoted terms.now self.old }
        ensures free { IfOk result (λ free. free ≡ is_in variable_eq (variable_view terms.now variable.now) (free_places (term_at terms.now id.0))) }
        ensures noted { AreNoted terms.now self.new }
    {
        self.catch_up(terms)?;
        match self.found(terms, variable, id) {
            Some(free) => Ok(free),
            None => is_walked(terms, variable, id),
        }
    }
}
