//! The count of what a rule was given beside its premises.
ghost use Rattle.std.specs.Prelude.{◌<◌, ◌+◌, length, OnOk};
ghost use Rattle.hol_type.specs.Tables as type;
ghost use Rattle.hol_term.specs.Substitutions.{term_pairs_at, AreKnownPairs, AreTermPairsKnown};
ghost use Rattle.hol_term.specs.Tables.{Trees, term_at, terms_at, type_at, AreKnown};
ghost use Rattle.hol_defs.specs.Lists.{pairs_at, variable_at, ArePairsKnown};
ghost use Rattle.sequent.specs.Sequents.{sequent_at, IsKnown};
ghost use Rattle.hol_rules.specs.Views.{parameters_view, AreParametersKnown};
ghost use Rattle.article_write_spec.specs.Lengths.{add, name_length as name_length_of};
ghost use Rattle.article_write_spec.specs.TermLengths.{count_under, count_variable as count_of_variable};
ghost use Rattle.article_write_spec.specs.ArticleLength.{count_given as count_of_given, count_list, count_sequent as count_of_sequent};
ghost use Rattle.article_count.specs.GivenCounts.{constant_pair, put_at, term_pair, type_pair};
ghost use Rattle.article_count.specs.TermTasks.{CanCountTerms, CountsTerms};

use crate::terms::TermCount;
use article_lines::lengths::{list_length, name_length};
use common::Memory;
use hol_name::Name;
use hol_rules::{Parameters, Substitution};
use hol_term::{TermId, TermTable, Variable};
use hol_type::TypeId;
use sequent::Sequent;

impl TermCount {
    /// Counts what a rule was given.
    pub(crate) fn count_given(
        &mut self,
        terms: &TermTable,
        given: &Parameters,
    ) -> Result<(), Memory>
        requires count { CanCountTerms terms.now self.old }
        requires known { AreParametersKnown terms.now given.now }
        ensures { OnOk result (CountsTerms terms.now self.old self.new (λ q. count_of_given q (parameters_view terms.now given.now))) }
    {
        match given {
            Parameters::Nothing => Ok(()),
            Parameters::Term(id) => self.count_term(terms, *id),
            Parameters::Variable(variable) => self.count_free_variable(terms, variable),
            Parameters::Subst(pairs) => self.count_substitution(terms, pairs.get()),
            Parameters::Sequent(sequent) => self.count_sequent(terms, sequent),
            Parameters::Const(name, id) => self.count_named(terms, name, *id),
            Parameters::List(pairs) => self.count_constants(terms, pairs),
            Parameters::TypeOp(given) => {
                let new = given.get();
                self.count_three(&new.op, &new.abs, &new.rep);
                self.count_names(&new.names);
                Ok(())
            }
        }
    }

    // Counts a name.
    fn count_name(&mut self, name: &Name)
        ensures { (trees : Trees) → CountsTerms trees self.old self.new (λ q. add (name_length_of name.now)) }
    {
        self.count.add(name_length(name));
    }

    // Counts the names of a type operator and of its two constants.
    fn count_three(&mut self, op: &Name, abs: &Name, rep: &Name)
        ensures { (trees : Trees) → CountsTerms trees self.old self.new (λ q. add (name_length_of op.now + name_length_of abs.now + name_length_of rep.now)) }
    {
        self.count_name(op);
        self.count_name(abs);
        self.count_name(rep);
    }

    // Counts names.
    fn count_names(&mut self, names: &[Name])
        ensures { (trees : Trees) → CountsTerms trees self.old self.new (λ q. count_list (λ n. add (name_length_of n)) names.now) }
    {
        for name in names {
            self.count_name(name);
        }
        self.count.add(list_length(names.len()));
    }

    // Counts a name and a term.
    fn count_named(&mut self, terms: &TermTable, name: &Name, id: TermId) -> Result<(), Memory>
        requires count { CanCountTerms terms.now self.old }
        requires id { id.0 < length terms.now.terms }
        ensures { OnOk result (CountsTerms terms.now self.old self.new (λ q m. count_under q 0 (term_at terms.now id.0) (add (name_length_of name.now) m))) }
    {
        self.count_name(name);
        self.count_term(terms, id)
    }

    // Counts a free variable.
    fn count_free_variable(&mut self, terms: &TermTable, variable: &Variable) -> Result<(), Memory>
        requires count { CanCountTerms terms.now self.old }
        requires ty { variable.now.ty.0 < length terms.now.types }
        ensures { OnOk result (CountsTerms terms.now self.old self.new (λ q. count_of_variable variable.now.name (type_at terms.now variable.now.ty.0))) }
    {
        self.count.count_variable(self.alloc, terms, name_length(&variable.name), variable.ty)
    }

    // Counts a list of terms.
    fn count_terms(&mut self, terms: &TermTable, ids: &[TermId]) -> Result<(), Memory>
        requires count { CanCountTerms terms.now self.old }
        requires known { AreKnown terms.now ids.now }
        ensures { OnOk result (CountsTerms terms.now self.old self.new (λ q. count_list (count_under q 0) (terms_at terms.now ids.now))) }
    {
        for id in ids {
            self.count_term(terms, *id)?;
        }
        self.count.add(list_length(ids.len()));
        Ok(())
    }

    // Counts a sequent.
    fn count_sequent(&mut self, terms: &TermTable, sequent: &Sequent) -> Result<(), Memory>
        requires count { CanCountTerms terms.now self.old }
        requires known { IsKnown terms.now sequent.now }
        ensures { OnOk result (CountsTerms terms.now self.old self.new (λ q. count_of_sequent q (sequent_at terms.now sequent.now))) }
    {
        self.count_terms(terms, sequent.hyps.ids())?;
        self.count_term(terms, sequent.concl)
    }

    // Counts what is put for variables.
    fn count_substitution(&mut self, terms: &TermTable, pairs: &Substitution) -> Result<(), Memory>
        requires count { CanCountTerms terms.now self.old }
        requires known { AreKnownPairs terms.now pairs.now.types.items pairs.now.terms.items }
        ensures { OnOk result (CountsTerms terms.now self.old self.new (λ q. count_of_given q (put_at terms.now pairs.now))) }
    {
        self.count_type_pairs(terms, &pairs.types)?;
        self.count_term_pairs(terms, &pairs.terms)?;
        self.count.add(list_length(2));
        Ok(())
    }

    // Counts type variables with what is put for them.
    fn count_type_pairs(
        &mut self,
        terms: &TermTable,
        pairs: &[(Name, TypeId)],
    ) -> Result<(), Memory>
        requires count { CanCountTerms terms.now self.old }
        requires known { type.ArePairsKnown terms.now.types pairs.now }
        ensures { OnOk result (CountsTerms terms.now self.old self.new (λ q. count_list type_pair (type.pairs_at terms.now.types pairs.now))) }
    {
        for pair in pairs {
            self.count_type_pair(terms, pair)?;
        }
        self.count.add(list_length(pairs.len()));
        Ok(())
    }

    // Counts a type variable with what is put for it.
    fn count_type_pair(&mut self, terms: &TermTable, pair: &(Name, TypeId)) -> Result<(), Memory>
        requires count { CanCountTerms terms.now self.old }
        requires ty { pair.now.1.0 < length terms.now.types }
        ensures { OnOk result (CountsTerms terms.now self.old self.new (λ q. type_pair (pair.now.0, type_at terms.now pair.now.1.0))) }
    {
        self.count_name(&pair.0);
        self.count.count_type(self.alloc, terms, pair.1)?;
        self.count.add(list_length(2));
        Ok(())
    }

    // Counts free variables with what is put for them.
    fn count_term_pairs(
        &mut self,
        terms: &TermTable,
        pairs: &[(Variable, TermId)],
    ) -> Result<(), Memory>
        requires count { CanCountTerms terms.now self.old }
        requires known { AreTermPairsKnown terms.now pairs.now }
        ensures { OnOk result (CountsTerms terms.now self.old self.new (λ q. count_list (term_pair q) (term_pairs_at terms.now pairs.now))) }
    {
        for pair in pairs {
            self.count_term_pair(terms, pair)?;
        }
        self.count.add(list_length(pairs.len()));
        Ok(())
    }

    // Counts a free variable with what is put for it.
    fn count_term_pair(
        &mut self,
        terms: &TermTable,
        pair: &(Variable, TermId),
    ) -> Result<(), Memory>
        requires count { CanCountTerms terms.now self.old }
        requires ty { pair.now.0.ty.0 < length terms.now.types }
        requires term { pair.now.1.0 < length terms.now.terms }
        ensures { OnOk result (CountsTerms terms.now self.old self.new
            (λ q. term_pair q (variable_at terms.now pair.now.0, term_at terms.now pair.now.1.0))) }
    {
        self.count_free_variable(terms, &pair.0)?;
        self.count_term(terms, pair.1)?;
        self.count.add(list_length(2));
        Ok(())
    }

    // Counts constants with the variables for which they are put.
    fn count_constants(
        &mut self,
        terms: &TermTable,
        pairs: &[(Name, Variable)],
    ) -> Result<(), Memory>
        requires count { CanCountTerms terms.now self.old }
        requires known { ArePairsKnown terms.now pairs.now }
        ensures { OnOk result (CountsTerms terms.now self.old self.new (λ q. count_list constant_pair (pairs_at terms.now pairs.now))) }
    {
        for pair in pairs {
            self.count_constant_pair(terms, pair)?;
        }
        self.count.add(list_length(pairs.len()));
        Ok(())
    }

    // Counts a constant with the variable for which it is put.
    fn count_constant_pair(
        &mut self,
        terms: &TermTable,
        pair: &(Name, Variable),
    ) -> Result<(), Memory>
        requires count { CanCountTerms terms.now self.old }
        requires ty { pair.now.1.ty.0 < length terms.now.types }
        ensures { OnOk result (CountsTerms terms.now self.old self.new (λ q. constant_pair (pair.now.0, (pair.now.1.name, type_at terms.now pair.now.1.ty.0)))) }
    {
        self.count_name(&pair.0);
        self.count_free_variable(terms, &pair.1)?;
        self.count.add(list_length(2));
        Ok(())
    }
}
