//! Types, variables and terms, each built at its first place and then told by its key, and pairs and lists of them.
ghost use Rattle.std.specs.Prelude.{◌<◌, ◌≤◌, length};
ghost use Rattle.hol_term.specs.Tables.{term_at, IsTermAt};
ghost use Rattle.hol_defs.specs.Lists.{variable_at};
ghost use Rattle.article_spec.specs.declared.commands.Word.TheVariants as word;
ghost use Rattle.article_write_spec.specs.Drafts.{say_word, conses};
ghost use Rattle.article_write_spec.specs.WrittenTypes.{write_variable as variable_writer};
ghost use Rattle.article_write_spec.specs.WrittenTerms.{write_term as term_writer};
ghost use Rattle.article_steps.specs.Agendas.{begun};
ghost use Rattle.article_steps.specs.Left.{jobs_writer, AddsTo, IsOpen, IsReady};

use crate::room::{Job, Room};
use crate::walk::run;
use article_lines::keys::Keys;
use article_lines::lines::write_name;
use article_spec::Word;
use bridge_base::{Failed, Sink};
use hol_term::{TermId, TermTable, Variable};

/// Does these jobs, the last one first.
pub(crate) fn write_jobs<S: Sink>(
    terms: &TermTable,
    number: u64,
    jobs: &[Job],
    keys: &mut Keys,
    room: &mut Room,
    sink: &mut S,
) -> Result<(), Failed>
    requires room { length jobs.now ≤ room.old.room }
    requires ready { IsReady terms.now number (begun jobs.now room.old) keys.old }
    ensures { AddsTo S.got S.faults terms.now (jobs_writer terms.now number (begun jobs.now room.old))
        keys.old sink.old keys.new room.new.room sink.new result }
{
    room.clear();
    room.push_all(jobs);
    run(terms, number, keys, room, sink)
}

/// Writes a term in which no number is loose.
pub(crate) fn write_term<S: Sink>(
    terms: &TermTable,
    number: u64,
    id: TermId,
    keys: &mut Keys,
    room: &mut Room,
    sink: &mut S,
) -> Result<(), Failed>
    requires ready { IsOpen terms.now keys.old room.old.room }
    requires known { id.0 < length terms.now.terms }
    requires closed { IsTermAt terms.now id.0 }
    ensures { AddsTo S.got S.faults terms.now (term_writer number (term_at terms.now id.0)) keys.old sink.old keys.new room.new.room sink.new result }
{
    write_jobs(terms, number, &[Job::Term(id)], keys, room, sink)
}

/// Writes a variable.
pub(crate) fn write_variable<S: Sink>(
    terms: &TermTable,
    variable: &Variable,
    keys: &mut Keys,
    room: &mut Room,
    sink: &mut S,
) -> Result<(), Failed>
    requires ready { IsOpen terms.now keys.old room.old.room }
    requires known { variable.now.ty.0 < length terms.now.types }
    ensures { AddsTo S.got S.faults terms.now (variable_writer (variable_at terms.now variable.now)) keys.old sink.old keys.new room.new.room sink.new result }
{
    write_name(&variable.name, sink)?;
    write_jobs(
        terms,
        0,
        &[Job::Word(Word::Var), Job::Type(variable.ty)],
        keys,
        room,
        sink,
    )
}

/// Ends a list of so many elements.
pub(crate) fn end_list<S: Sink>(
    terms: &TermTable,
    count: usize,
    keys: &mut Keys,
    room: &mut Room,
    sink: &mut S,
) -> Result<(), Failed>
    requires { IsOpen terms.now keys.old room.old.room }
    ensures { AddsTo S.got S.faults terms.now (λ d. conses count (say_word word.Nil d)) keys.old sink.old keys.new room.new.room sink.new result }
{
    write_jobs(
        terms,
        0,
        &[Job::Conses(count), Job::Word(Word::Nil)],
        keys,
        room,
        sink,
    )
}
