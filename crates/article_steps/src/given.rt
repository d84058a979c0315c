//! What a rule is given beside its premises: terms, variables, and lists of pairs.
ghost use Rattle.std.specs.Prelude.{◌<◌, length};
ghost use Rattle.std.specs.List.{AllByRecursion};
ghost use Rattle.hol_spec.specs.Terms.{IsTerm};
ghost use Rattle.hol_type.specs.Tables as type;
ghost use Rattle.hol_term.specs.Tables.{terms_at, AreKnown, IsTermAt};
ghost use Rattle.hol_term.specs.Substitutions.{term_pairs_at, AreKnownPairs, AreTermPairsKnown};
ghost use Rattle.hol_defs.specs.Lists.{pair_at, ArePairsKnown};
ghost use Rattle.sequent.specs.Sequents.{sequent_at, IsKnown};
ghost use Rattle.hol_rules.specs.Views.{parameters_view, AreParametersKnown};
ghost use Rattle.article_write_spec.specs.Drafts.{say_name, write_list};
ghost use Rattle.article_write_spec.specs.WrittenSteps.{write_given as given_writer, write_sequent as sequent_writer};
ghost use Rattle.article_steps.specs.Given.{constant_pair_writer, constant_pairs_writer, constant_writer, operator_writer, put_writer, term_pair_at, term_pair_writer, term_pairs_writer, terms_writer, type_pair_at, type_pair_writer, type_pairs_writer, AreClosed, IsClosed};
ghost use Rattle.article_steps.specs.Left.{AddsTo, IsOpen};

use crate::room::{Job, Room};
use crate::trees::{end_list, write_jobs, write_term, write_variable};
use article_lines::keys::Keys;
use article_lines::lines::write_name;
use article_spec::Word;
use bridge_base::{Failed, Sink};
use hol_name::Name;
use hol_rules::{Parameters, Substitution};
use hol_term::{TermId, TermTable, Variable};
use hol_type::TypeId;
use sequent::Sequent;

// A constant and the term that it stands for.
#[derive(Clone, Copy)]
struct Constant<'a> {
    name: &'a Name,
    id: TermId,
}

// The names of a type operator, of its constants and of its type variables.
#[derive(Clone, Copy)]
struct Operator<'a> {
    op: &'a Name,
    abs: &'a Name,
    rep: &'a Name,
    names: &'a [Name],
}

/// Writes what a rule is given beside its premises.
pub(crate) fn write_given<S: Sink>(
    terms: &TermTable,
    number: u64,
    given: &Parameters,
    keys: &mut Keys,
    room: &mut Room,
    sink: &mut S,
) -> Result<(), Failed>
    requires ready { IsOpen terms.now keys.old room.old.room }
    requires known { AreParametersKnown terms.now given.now }
    requires closed { AreClosed (parameters_view terms.now given.now) }
    ensures { AddsTo S.got S.faults terms.now (given_writer number (parameters_view terms.now given.now))
        keys.old sink.old keys.new room.new.room sink.new result }
{
    match given {
        Parameters::Nothing => Ok(()),
        Parameters::Term(id) => write_term(terms, number, *id, keys, room, sink),
        Parameters::Variable(variable) => write_variable(terms, variable, keys, room, sink),
        Parameters::Subst(put) => { write_substitution(terms, number, put.get(), keys, room, sink) }
        Parameters::Sequent(sequent) => { write_sequent(terms, number, sequent, keys, room, sink) }
        Parameters::Const(name, id) => {
            let constant = Constant { name, id: *id };
            write_constant(terms, number, constant, keys, room, sink)
        }
        Parameters::List(pairs) => write_constant_pairs(terms, pairs, keys, room, sink),
        Parameters::TypeOp(given) => {
            let new = given.get();
            let operator = Operator {
                op: &new.op,
                abs: &new.abs,
                rep: &new.rep,
                names: &new.names,
            };
            write_operator(terms, operator, keys, room, sink)
        }
    }
}

// Writes a constant and the term that it stands for.
fn write_constant<S: Sink>(
    terms: &TermTable,
    number: u64,
    constant: Constant<'_>,
    keys: &mut Keys,
    room: &mut Room,
    sink: &mut S,
) -> Result<(), Failed>
    requires ready { IsOpen terms.now keys.old room.old.room }
    requires known { constant.id.0 < length terms.now.terms }
    requires closed { IsTermAt terms.now constant.id.0 }
    ensures { AddsTo S.got S.faults terms.now (constant_writer terms.now number constant.entry) keys.old sink.old keys.new room.new.room sink.new result }
{
    write_name(constant.name, sink)?;
    write_term(terms, number, constant.id, keys, room, sink)
}

// Writes the names of a type operator, of its constants and of its type variables.
fn write_operator<S: Sink>(
    terms: &TermTable,
    operator: Operator<'_>,
    keys: &mut Keys,
    room: &mut Room,
    sink: &mut S,
) -> Result<(), Failed>
    requires { IsOpen terms.now keys.old room.old.room }
    ensures { AddsTo S.got S.faults terms.now (operator_writer operator.entry) keys.old sink.old keys.new room.new.room sink.new result }
{
    write_name(operator.op, sink)?;
    write_name(operator.abs, sink)?;
    write_name(operator.rep, sink)?;
    write_names(terms, operator.names, keys, room, sink)
}

// Writes types for type variables, and terms for variables.
fn write_substitution<S: Sink>(
    terms: &TermTable,
    number: u64,
    put: &Substitution,
    keys: &mut Keys,
    room: &mut Room,
    sink: &mut S,
) -> Result<(), Failed>
    requires ready { IsOpen terms.now keys.old room.old.room }
    requires known { AreKnownPairs terms.now put.now.types.items put.now.terms.items }
    requires closed { AllByRecursion (λ p. IsTerm p.1) (term_pairs_at terms.now put.now.terms.items) }
    ensures { AddsTo S.got S.faults terms.now (put_writer terms.now number put.now) keys.old sink.old keys.new room.new.room sink.new result }
{
    write_type_pairs(terms, &put.types, keys, room, sink)?;
    write_term_pairs(terms, number, &put.terms, keys, room, sink)?;
    end_list(terms, 2, keys, room, sink)
}

// Writes a sequent: its hypotheses, and its conclusion behind them.
fn write_sequent<S: Sink>(
    terms: &TermTable,
    number: u64,
    sequent: &Sequent,
    keys: &mut Keys,
    room: &mut Room,
    sink: &mut S,
) -> Result<(), Failed>
    requires ready { IsOpen terms.now keys.old room.old.room }
    requires known { IsKnown terms.now sequent.now }
    requires closed { IsClosed (sequent_at terms.now sequent.now) }
    ensures { AddsTo S.got S.faults terms.now (sequent_writer number (sequent_at terms.now sequent.now))
        keys.old sink.old keys.new room.new.room sink.new result }
{
    write_terms(terms, number, sequent.hyps.ids(), keys, room, sink)?;
    write_term(terms, number, sequent.concl, keys, room, sink)
}

// Writes a list of terms.
fn write_terms<S: Sink>(
    terms: &TermTable,
    number: u64,
    ids: &[TermId],
    keys: &mut Keys,
    room: &mut Room,
    sink: &mut S,
) -> Result<(), Failed>
    requires ready { IsOpen terms.now keys.old room.old.room }
    requires known { AreKnown terms.now ids.now }
    requires closed { AllByRecursion IsTerm (terms_at terms.now ids.now) }
    ensures { AddsTo S.got S.faults terms.now (terms_writer terms.now number ids.now) keys.old sink.old keys.new room.new.room sink.new result }
{
    for id in ids {
        write_term(terms, number, *id, keys, room, sink)?;
    }
    end_list(terms, ids.len(), keys, room, sink)
}

// Writes a list of types with their type variables.
fn write_type_pairs<S: Sink>(
    terms: &TermTable,
    pairs: &[(Name, TypeId)],
    keys: &mut Keys,
    room: &mut Room,
    sink: &mut S,
) -> Result<(), Failed>
    requires ready { IsOpen terms.now keys.old room.old.room }
    requires known { type.ArePairsKnown terms.now.types pairs.now }
    ensures { AddsTo S.got S.faults terms.now (type_pairs_writer terms.now pairs.now) keys.old sink.old keys.new room.new.room sink.new result }
{
    for pair in pairs {
        write_type_pair(terms, pair, keys, room, sink)?;
    }
    end_list(terms, pairs.len(), keys, room, sink)
}

// Writes a type with its type variable.
fn write_type_pair<S: Sink>(
    terms: &TermTable,
    pair: &(Name, TypeId),
    keys: &mut Keys,
    room: &mut Room,
    sink: &mut S,
) -> Result<(), Failed>
    requires ready { IsOpen terms.now keys.old room.old.room }
    requires known { pair.now.1.0 < length terms.now.types }
    ensures { AddsTo S.got S.faults terms.now (type_pair_writer (type_pair_at terms.now pair.now)) keys.old sink.old keys.new room.new.room sink.new result }
{
    write_name(&pair.0, sink)?;
    write_jobs(
        terms,
        0,
        &[Job::Conses(2), Job::Word(Word::Nil), Job::Type(pair.1)],
        keys,
        room,
        sink,
    )
}

// Writes a list of terms with their variables.
fn write_term_pairs<S: Sink>(
    terms: &TermTable,
    number: u64,
    pairs: &[(Variable, TermId)],
    keys: &mut Keys,
    room: &mut Room,
    sink: &mut S,
) -> Result<(), Failed>
    requires ready { IsOpen terms.now keys.old room.old.room }
    requires known { AreTermPairsKnown terms.now pairs.now }
    requires closed { AllByRecursion (λ p. IsTerm p.1) (term_pairs_at terms.now pairs.now) }
    ensures { AddsTo S.got S.faults terms.now (term_pairs_writer terms.now number pairs.now) keys.old sink.old keys.new room.new.room sink.new result }
{
    for pair in pairs {
        write_term_pair(terms, number, pair, keys, room, sink)?;
    }
    end_list(terms, pairs.len(), keys, room, sink)
}

// Writes a term with its variable.
fn write_term_pair<S: Sink>(
    terms: &TermTable,
    number: u64,
    pair: &(Variable, TermId),
    keys: &mut Keys,
    room: &mut Room,
    sink: &mut S,
) -> Result<(), Failed>
    requires ready { IsOpen terms.now keys.old room.old.room }
    requires ty { pair.now.0.ty.0 < length terms.now.types }
    requires known { pair.now.1.0 < length terms.now.terms }
    requires closed { IsTermAt terms.now pair.now.1.0 }
    ensures { AddsTo S.got S.faults terms.now (term_pair_writer number (term_pair_at terms.now pair.now))
        keys.old sink.old keys.new room.new.room sink.new result }
{
    write_name(&pair.0.name, sink)?;
    write_jobs(
        terms,
        number,
        &[
            Job::Conses(2),
            Job::Word(Word::Nil),
            Job::Term(pair.1),
            Job::Word(Word::Var),
            Job::Type(pair.0.ty),
        ],
        keys,
        room,
        sink,
    )
}

// Writes a list of constants with their variables.
fn write_constant_pairs<S: Sink>(
    terms: &TermTable,
    pairs: &[(Name, Variable)],
    keys: &mut Keys,
    room: &mut Room,
    sink: &mut S,
) -> Result<(), Failed>
    requires ready { IsOpen terms.now keys.old room.old.room }
    requires known { ArePairsKnown terms.now pairs.now }
    ensures { AddsTo S.got S.faults terms.now (constant_pairs_writer terms.now pairs.now) keys.old sink.old keys.new room.new.room sink.new result }
{
    for pair in pairs {
        write_constant_pair(terms, pair, keys, room, sink)?;
    }
    end_list(terms, pairs.len(), keys, room, sink)
}

// Writes a constant with its variable.
fn write_constant_pair<S: Sink>(
    terms: &TermTable,
    pair: &(Name, Variable),
    keys: &mut Keys,
    room: &mut Room,
    sink: &mut S,
) -> Result<(), Failed>
    requires ready { IsOpen terms.now keys.old room.old.room }
    requires known { pair.now.1.ty.0 < length terms.now.types }
    ensures { AddsTo S.got S.faults terms.now (constant_pair_writer (pair_at terms.now pair.now)) keys.old sink.old keys.new room.new.room sink.new result }
{
    write_name(&pair.0, sink)?;
    write_variable(terms, &pair.1, keys, room, sink)?;
    end_list(terms, 2, keys, room, sink)
}

// Writes a list of names.
fn write_names<S: Sink>(
    terms: &TermTable,
    names: &[Name],
    keys: &mut Keys,
    room: &mut Room,
    sink: &mut S,
) -> Result<(), Failed>
    requires { IsOpen terms.now keys.old room.old.room }
    ensures { AddsTo S.got S.faults terms.now (write_list say_name names.now) keys.old sink.old keys.new room.new.room sink.new result }
{
    for name in names {
        write_name(name, sink)?;
    }
    end_list(terms, names.len(), keys, room, sink)
}
