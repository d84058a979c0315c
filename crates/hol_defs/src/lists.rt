//! Definitions of lists of constants.
ghost use Rattle.std.specs.Prelude.{◌≡◌, ◌<◌, ◌&&◌, ◌++◌, ◌∷◌, [], List, None, length, map, IfOk, IfErr, IfSome, OnOk, OnErr};
ghost use Rattle.std.specs.List.{list_all, list_any};
ghost use Rattle.std.specs.Map.{lookup};
ghost use Rattle.std.specs.Option.{option_map};
ghost use Rattle.hol_spec.specs.Defining.{is_closed as is_closed_term, has_type_variables_of};
ghost use Rattle.hol_spec.specs.DefinitionLists.{definitions_in, defining_equations, names_of as names_in, variable_equation};
ghost use Rattle.hol_spec.specs.Lists.{is_in, union};
ghost use Rattle.hol_spec.specs.Repeats.{no_repeats};
ghost use Rattle.hol_spec.specs.NameEquality.{name_eq};
ghost use Rattle.hol_spec.specs.Symbols.{Symbol, is_taken_constant};
ghost use Rattle.hol_spec.specs.Terms.{free_places, variable_eq};
ghost use Rattle.hol_type.specs.Tables as type;
ghost use Rattle.hol_term.specs.declared.Variable.{Variable as AVariable};
ghost use Rattle.hol_term.specs.Tables.{term_at, terms_at, IsTermAt};
ghost use Rattle.hol_defs.specs.Faults.{list_fault, Refuses};
ghost use Rattle.hol_term.specs.Subterms.{variables_of, HaveTypes};
ghost use Rattle.hol_defs.specs.Indexes.{generics_of};
ghost use Rattle.hol_defs.specs.Lists.{constants_of, definitions_fault, equation_at, equations_fault, equations_of, is_list as is_list_of, pairs_at, same_variable, sequent_at, term_of, undefined_fault, AreDefined, AreEquationsKnown, AreFound, AreNew, ArePairsKnown, AreTerms, IsEquationKnown, IsMarked};
ghost use Rattle.hol_defs.specs.Symbols.{Taken, symbols_at, AreKnownSymbols};

use crate::Symbols;
use crate::judging::{has_variables, is_closed};
use crate::tables::{FirstTerms, NameSet, VariableSet};
use common::{Fault, Kind, Memory};
use hol_name::Name;
use hol_term::{TermId, TermTable, TermView, Variable};
use std::alloc::Global;

/// What a hypothesis says of a variable: that it equals a term.
#[derive(Drop)]
pub(crate) struct Equation {
    pub(crate) variable: Variable,
    pub(crate) term: TermId,
}

/// How many symbols are taken, and how many constants are defined.
#[derive(Clone, Copy)]
pub(crate) struct Mark {
    taken: usize,
    generics: usize,
}

impl Symbols {
    /// Defines the constants of a list of pairs, each by the equation that the hypotheses have of its variable
    /// (OpenTheory article format, version 6, `defineConstList`). It is refused with `NameTaken` where a constant has
    /// one of the names; else with `NotClosed` where a defining term has a free variable; else with `ExtraTypeVars` where
    /// a defining term has a type variable that its type lacks; else with `BadDefinitionList` where names or variables
    /// repeat, there are not as many hypotheses as pairs, a variable has no equation, or the conclusion has a free
    /// variable outside the list.
    pub fn define_list(
        &mut self,
        table: &mut TermTable,
        pairs: &[(Name, Variable)],
        hyps: &[TermId],
        concl: TermId,
    ) -> Result<(), Fault>
        requires known { AreKnownSymbols table.old self.old }
        requires pairs { ArePairsKnown table.old pairs.now }
        requires hyps { AreTerms table.old hyps.now }
        requires concl { IsTermAt table.old concl.0 }
        ensures takes { OnOk result (symbols_at table.new self.new ≡ symbols_at table.old self.old
            ++ map Symbol.defined (definitions_in (pairs_at table.old pairs.now) (terms_at table.old hyps.now))) }
        ensures fits { OnOk result (list_fault (symbols_at table.old self.old) (pairs_at table.old pairs.now)
            (record { hypotheses = terms_at table.old hyps.now; conclusion = term_at table.old concl.0 }) ≡ None) }
        ensures refusal { IfErr result (λ fault. Refuses fault (list_fault (symbols_at table.old self.old) (pairs_at table.old pairs.now)
            (record { hypotheses = terms_at table.old hyps.now; conclusion = term_at table.old concl.0 }))) }
        ensures unchanged { OnErr result (self.new ≡ self.old) }
        ensures known { AreKnownSymbols table.new self.new }
        ensures table { table.new ≡ table.old }
    {
        match self.judge_list(table, pairs, hyps, concl) {
            Ok(terms) => {
                let taken = self.take_list(pairs, &terms);
                drop(terms);
                taken?;
                Ok(())
            }
            Err(fault) => Err(fault),
        }
    }

    /// Judges the definitions of a list of constants as `define_list` does, and takes nothing: for a caller that has more
    /// to judge. It gives the terms that define them, in the order of the pairs.
    pub fn judge_list(
        &self,
        table: &TermTable,
        pairs: &[(Name, Variable)],
        hyps: &[TermId],
        concl: TermId,
    ) -> Result<Vec<TermId>, Fault>
        requires known { AreKnownSymbols table.now self.now }
        requires pairs { ArePairsKnown table.now pairs.now }
        requires hyps { AreTerms table.now hyps.now }
        requires concl { IsTermAt table.now concl.0 }
        ensures defined { IfOk result (λ terms. AreDefined table.now (pairs_at table.now pairs.now) (terms_at table.now hyps.now) pairs.now terms.items) }
        ensures fits { OnOk result (list_fault (symbols_at table.now self.now) (pairs_at table.now pairs.now)
            (record { hypotheses = terms_at table.now hyps.now; conclusion = term_at table.now concl.0 }) ≡ None) }
        ensures refusal { IfErr result (λ fault. Refuses fault (list_fault (symbols_at table.now self.now) (pairs_at table.now pairs.now)
            (record { hypotheses = terms_at table.now hyps.now; conclusion = term_at table.now concl.0 }))) }
    {
        if self.has_taken(table, pairs) {
            return Err(Fault::Refused(Kind::NameTaken));
        }
        let mut variables = VariableSet::new(self.alloc);
        let terms = judge_definitions(self.alloc, table, pairs, hyps, concl, &mut variables);
        drop(variables);
        terms
    }

    // Whether one of the names is taken.
    fn has_taken(&self, table: &TermTable, pairs: &[(Name, Variable)]) -> bool
        requires { AreKnownSymbols table.now self.now }
        ensures { result ≡ list_any (is_taken_constant (symbols_at table.now self.now)) (names_in (pairs_at table.now pairs.now)) }
    {
        for pair in pairs {
            if self.is_constant(&pair.0) {
                return true;
            }
        }
        false
    }

    // Takes constants, of which none is taken.
    fn take_list(&mut self, pairs: &[(Name, Variable)], terms: &[TermId]) -> Result<(), Memory>
        requires same { length pairs.now ≡ length terms.now }
        requires new { AreNew (generics_of self.old) pairs.now }
        ensures takes { OnOk result (self.new ≡ self.old ++ constants_of pairs.now terms.now) }
        ensures unchanged { OnErr result (self.new ≡ self.old) }
    {
        let mark = self.mark();
        for index in 0..pairs.len() {
            let pair = &pairs[index];
            match self.take_const(&pair.0, terms[index], pair.1.ty) {
                Ok(()) => {}
                Err(_) => {
                    self.cut(mark);
                    return Err(Memory);
                }
            }
        }
        Ok(())
    }

    // How many symbols are taken, and how many constants are defined.
    fn mark(&self) -> Mark
        ensures taken { result.taken ≡ length self.now }
        ensures generics { result.generics ≡ length (generics_of self.now) }
    {
        Mark {
            taken: self.taken.len(),
            generics: self.generics.len(),
        }
    }

    // Gives up the constants that were defined after the mark, where nothing else was taken.
    fn cut(&mut self, mark: Mark)
        requires { (before : List Taken) × IsMarked before self.old mark }
        ensures { (before : List Taken) → IsMarked before self.old mark → self.new ≡ before }
    {
        self.taken.truncate(mark.taken);
        self.generics.cut(mark.generics);
    }
}

// Judges the definitions of a list, the names aside, with a set for the variables of the pairs.
fn judge_definitions(
    alloc: Global,
    table: &TermTable,
    pairs: &[(Name, Variable)],
    hyps: &[TermId],
    concl: TermId,
    variables: &mut VariableSet,
) -> Result<Vec<TermId>, Fault>
    requires pairs { ArePairsKnown table.now pairs.now }
    requires hyps { AreTerms table.now hyps.now }
    requires concl { IsTermAt table.now concl.0 }
    requires variables { variables.old ≡ [] }
    ensures defined { IfOk result (λ terms. AreDefined table.now (pairs_at table.now pairs.now) (terms_at table.now hyps.now) pairs.now terms.items) }
    ensures fits { OnOk result (definitions_fault (pairs_at table.now pairs.now) (sequent_at table.now hyps.now concl) ≡ None) }
    ensures refusal { IfErr result (λ fault. Refuses fault (definitions_fault (pairs_at table.now pairs.now) (sequent_at table.now hyps.now concl))) }
{
    let _types = table.types().count();
    add_variables(variables, pairs)?;
    let mut equations = Vec::new(alloc);
    match judge_equations(table, pairs, hyps, concl, variables, &mut equations) {
        Ok(()) => definientia(alloc, pairs, equations),
        Err(fault) => {
            drop(equations);
            Err(fault)
        }
    }
}

// Judges what the hypotheses say of the variables of the pairs, each once, and the list, and puts what they say.
fn judge_equations(
    table: &TermTable,
    pairs: &[(Name, Variable)],
    hyps: &[TermId],
    concl: TermId,
    variables: &VariableSet,
    equations: &mut Vec<Equation>,
) -> Result<(), Fault>
    requires pairs { ArePairsKnown table.now pairs.now }
    requires hyps { AreTerms table.now hyps.now }
    requires concl { IsTermAt table.now concl.0 }
    requires variables { variables.now ≡ union same_variable [] (map (λ p. p.1) pairs.now) }
    requires distinct { type.IsDistinct table.now.types }
    requires none { equations.old.items ≡ [] }
    ensures said { OnOk result (map (equation_at table.now) equations.new.items ≡
        defining_equations (pairs_at table.now pairs.now) (terms_at table.now hyps.now)) }
    ensures known { OnOk result (AreEquationsKnown table.now equations.new.items) }
    ensures fits { OnOk result (equations_fault (pairs_at table.now pairs.now) (sequent_at table.now hyps.now concl) ≡ None) }
    ensures refusal { IfErr result (λ fault. Refuses fault (equations_fault (pairs_at table.now pairs.now) (sequent_at table.now hyps.now concl))) }
{
    let alloc = *equations.allocator();
    push_equations(table, variables, hyps, equations)?;
    if !are_closed(table, equations)? {
        return Err(Fault::Refused(Kind::NotClosed));
    }
    if !have_own_variables(alloc, table, equations)? {
        return Err(Fault::Refused(Kind::ExtraTypeVars));
    }
    if !is_list(alloc, table, pairs, hyps, concl, variables)? {
        return Err(Fault::Refused(Kind::BadDefinitionList));
    }
    Ok(())
}

// Takes the variables of the pairs, each once.
fn add_variables(set: &mut VariableSet, pairs: &[(Name, Variable)]) -> Result<(), Memory>
    requires { set.old ≡ [] }
    ensures { OnOk result (set.new ≡ union same_variable [] (map (λ p. p.1) pairs.now)) }
{
    for pair in pairs {
        set.add(Variable {
            name: pair.1.name.clone()?,
            ty: pair.1.ty,
        })?;
    }
    Ok(())
}

// Puts what the hypotheses say of these variables.
fn push_equations(
    table: &TermTable,
    variables: &VariableSet,
    hyps: &[TermId],
    all: &mut Vec<Equation>,
) -> Result<(), Memory>
    requires hyps { AreTerms table.now hyps.now }
    requires variables { HaveTypes table.now variables.now }
    requires distinct { type.IsDistinct table.now.types }
    requires none { all.old.items ≡ [] }
    ensures said { OnOk result (map (equation_at table.now) all.new.items ≡ equations_of table.now variables.now hyps.now) }
    ensures known { OnOk result (AreEquationsKnown table.now all.new.items) }
{
    for hyp in hyps {
        push_equation(table, variables, *hyp, all)?;
    }
    Ok(())
}

// Puts what a hypothesis says last, if it is an equation of one of these variables.
fn push_equation(
    table: &TermTable,
    variables: &VariableSet,
    hyp: TermId,
    all: &mut Vec<Equation>,
) -> Result<(), Memory>
    requires hyp { IsTermAt table.now hyp.0 }
    requires variables { HaveTypes table.now variables.now }
    requires distinct { type.IsDistinct table.now.types }
    ensures said { OnOk result (map (equation_at table.now) all.new.items ≡
        map (equation_at table.now) all.old.items ++ equations_of table.now variables.now (hyp ∷ [])) }
    ensures known { OnOk result (AreEquationsKnown table.now all.old.items → AreEquationsKnown table.now all.new.items) }
{
    let Some(equation) = equation_of(table, hyp)? else {
        return Ok(());
    };
    if !variables.has(&equation.variable) {
        return Ok(());
    }
    all.push(equation)?;
    Ok(())
}

// The variable and the term of an equation of a variable.
fn equation_of(table: &TermTable, hyp: TermId) -> Result<Option<Equation>, Memory>
    requires { IsTermAt table.now hyp.0 }
    ensures says { IfOk result (λ equation. option_map (equation_at table.now) equation ≡ variable_equation (term_at table.now hyp.0)) }
    ensures known { IfOk result (λ equation. IfSome equation (λ e. IsEquationKnown table.now e)) }
{
    let Some((left, term)) = table.dest_eq(hyp) else {
        return Ok(None);
    };
    match table.view(left) {
        TermView::Free(name, ty) => {
            let name = name.clone()?;
            Ok(Some(Equation {
                variable: Variable { name, ty },
                term,
            }))
        }
        TermView::Bound(_) | TermView::Const(..) | TermView::App(..) | TermView::Lam(..) => {
            Ok(None)
        }
    }
}

// Whether the term of each equation is closed.
fn are_closed(table: &TermTable, equations: &[Equation]) -> Result<bool, Memory>
    requires { AreEquationsKnown table.now equations.now }
    ensures { IfOk result (λ are. are ≡ list_all (λ e. is_closed_term e.1) (map (equation_at table.now) equations.now)) }
{
    for equation in equations {
        if !is_closed(table, equation.term)? {
            return Ok(false);
        }
    }
    Ok(true)
}

// Whether the type of each equation's variable has each type variable of its term.
fn have_own_variables(
    alloc: Global,
    table: &TermTable,
    equations: &[Equation],
) -> Result<bool, Memory>
    requires { AreEquationsKnown table.now equations.now }
    ensures { IfOk result (λ have. have ≡ list_all (λ e. has_type_variables_of e.0.1 e.1) (map (equation_at table.now) equations.now)) }
{
    for equation in equations {
        if !has_variables(alloc, table, equation.variable.ty, equation.term)? {
            return Ok(false);
        }
    }
    Ok(true)
}

// Whether no name and no variable stands in two pairs, there are as many hypotheses as pairs, and each free variable of
// the conclusion is one of the pairs'. These are the variables of the pairs, each once.
fn is_list(
    alloc: Global,
    table: &TermTable,
    pairs: &[(Name, Variable)],
    hyps: &[TermId],
    concl: TermId,
    variables: &VariableSet,
) -> Result<bool, Memory>
    requires pairs { ArePairsKnown table.now pairs.now }
    requires concl { concl.0 < length table.now.terms }
    requires variables { variables.now ≡ union same_variable [] (map (λ p. p.1) pairs.now) }
    requires distinct { type.IsDistinct table.now.types }
    ensures { IfOk result (λ is. is ≡ is_list_of (pairs_at table.now pairs.now)
        (record { hypotheses = terms_at table.now hyps.now; conclusion = term_at table.now concl.0 })) }
{
    let names = are_names_once(alloc, pairs)?;
    let among = are_variables_among(table, concl, variables)?;
    Ok(all_four(
        names,
        variables.len() == pairs.len(),
        hyps.len() == pairs.len(),
        among,
    ))
}

// Whether all four hold.
fn all_four(one: bool, two: bool, three: bool, four: bool) -> bool
    ensures { result ≡ (one && two && three && four) }
{
    if !one {
        false
    } else if !two {
        false
    } else if !three {
        false
    } else {
        four
    }
}

// Whether no name stands in two pairs.
fn are_names_once(alloc: Global, pairs: &[(Name, Variable)]) -> Result<bool, Memory>
    ensures { IfOk result (λ are. are ≡ no_repeats name_eq (map (λ p. p.0) pairs.now)) }
{
    let mut names = NameSet::new(alloc);
    let are = are_once(&mut names, pairs);
    drop(names);
    are
}

// The same, with a set for the names.
fn are_once(names: &mut NameSet, pairs: &[(Name, Variable)]) -> Result<bool, Memory>
    requires { names.old ≡ [] }
    ensures { IfOk result (λ are. are ≡ no_repeats name_eq (map (λ p. p.0) pairs.now)) }
{
    for pair in pairs {
        names.add_copy(&pair.0)?;
    }
    Ok(names.len() == pairs.len())
}

// Whether each free variable of a term is one of these.
fn are_variables_among(
    table: &TermTable,
    term: TermId,
    variables: &VariableSet,
) -> Result<bool, Memory>
    requires term { term.0 < length table.now.terms }
    requires variables { HaveTypes table.now variables.now }
    ensures { IfOk result (λ are. are ≡ list_all (λ v. is_in variable_eq v (variables_of table.now variables.now)) (free_places (term_at table.now term.0))) }
{
    let free = table.free_vars(term)?;
    Ok(are_in(variables, &free))
}

// Whether each variable is in a set.
fn are_in(set: &VariableSet, variables: &[Variable]) -> bool
    ensures { result ≡ list_all (λ v. is_in same_variable v set.now) variables.now }
{
    variables.iter().all(|variable| set.has(variable))
}

// The terms that define the variables of the pairs, in the order of the pairs. It is refused where one of them has none.
fn definientia(
    alloc: Global,
    pairs: &[(Name, Variable)],
    equations: Vec<Equation>,
) -> Result<Vec<TermId>, Fault>
    ensures found { IfOk result (λ terms. AreFound pairs.now equations.items terms.items) }
    ensures refusal { IfErr result (λ fault. Refuses fault (undefined_fault pairs.now equations.items)) }
{
    let mut found = FirstTerms::new(alloc);
    let terms = first_terms(alloc, pairs, equations, &mut found);
    drop(found);
    terms
}

// The same, with a table for the terms of the equations.
fn first_terms(
    alloc: Global,
    pairs: &[(Name, Variable)],
    equations: Vec<Equation>,
    found: &mut FirstTerms,
) -> Result<Vec<TermId>, Fault>
    requires { found.old ≡ [] }
    ensures found { IfOk result (λ terms. AreFound pairs.now equations.items terms.items) }
    ensures refusal { IfErr result (λ fault. Refuses fault (undefined_fault pairs.now equations.items)) }
{
    note_all(found, equations)?;
    let mut terms = Vec::new(alloc);
    for pair in pairs {
        match found.find(&pair.1) {
            Some(term) => terms.push(term)?,
            None => return Err(Fault::Refused(Kind::BadDefinitionList)),
        }
    }
    Ok(terms)
}

// Notes the term that the first equation of each variable has.
fn note_all(found: &mut FirstTerms, equations: Vec<Equation>) -> Result<(), Memory>
    requires { found.old ≡ [] }
    ensures { OnOk result ((v : AVariable) → lookup (same_variable v) found.new ≡ term_of equations.items v) }
{
    for equation in equations {
        found.note(equation.variable, equation.term)?;
    }
    Ok(())
}
