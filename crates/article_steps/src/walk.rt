//! Types and terms, written with an agenda in the place of a recursion.
ghost use Rattle.std.specs.Prelude.{◌≡◌, ◌<◌, ◌+◌, length, None};
ghost use Rattle.hol_term.specs.Tables.{IsTermAt};
ghost use Rattle.article_steps.specs.declared.room.Job.TheVariants as job;
ghost use Rattle.article_steps.specs.Agendas.{pushed};
ghost use Rattle.article_steps.specs.Left.{def_text, jobs_writer, AddsTo, GoesOfAny, GoesTo, IsReady, StepsOfAny};
ghost use Rattle.article_lines.specs.Things.{HasRoom, thing_key, with_thing};
ghost use Rattle.article_lines.specs.Writing.{Writes};

use crate::room::{Job, Room};
use article_lines::keys::{Keys, Thing};
use article_lines::lines::{write_binder, write_key, write_name, write_word};
use article_spec::Word;
use bridge_base::{Failed, Sink};
use hol_term::{TermId, TermTable, TermView};
use hol_type::{TypeId, TypeView};

// Tells a type by its key, or else leaves its parts to be written.
fn do_type<S: Sink>(
    terms: &TermTable,
    number: u64,
    id: TypeId,
    keys: &Keys,
    room: &mut Room,
    sink: &mut S,
) -> Result<(), Failed>
    requires { IsReady terms.now number (pushed (job.Type id) room.old) keys.now }
    ensures { GoesTo S.got S.faults terms.now number (pushed (job.Type id) room.old) keys.now sink.old room.new keys.now sink.new result }
{
    match keys.key(Thing::Type(id)) {
        Some(key) => write_key(key, Word::Ref, sink),
        None => {
            room.push_all(&[Job::Keep(Thing::Type(id)), Job::TypeParts(id)]);
            Ok(())
        }
    }
}

// Writes the name of a type, and leaves what stands behind it.
fn do_type_parts<S: Sink>(
    terms: &TermTable,
    number: u64,
    id: TypeId,
    keys: &Keys,
    room: &mut Room,
    sink: &mut S,
) -> Result<(), Failed>
    requires { IsReady terms.now number (pushed (job.TypeParts id) room.old) keys.now }
    ensures { GoesTo S.got S.faults terms.now number (pushed (job.TypeParts id) room.old) keys.now sink.old room.new keys.now sink.new result }
{
    match terms.types().view(id) {
        TypeView::Var(name) => {
            room.push(Job::Word(Word::VarType));
            write_name(name, sink)
        }
        TypeView::Op(name, arguments) => {
            room.push_all(&[
                Job::Word(Word::OpType),
                Job::Conses(arguments.len()),
                Job::Word(Word::Nil),
                Job::Arguments(id, 0),
                Job::Word(Word::TypeOp),
            ]);
            write_name(name, sink)
        }
    }
}

// Leaves the next of the arguments of an operator to be written, and those behind it.
fn do_arguments(terms: &TermTable, id: TypeId, from: usize, room: &mut Room)
    requires known { id.0 < length terms.now.types }
    requires room { length room.old.jobs + 1 < room.old.room }
    ensures { StepsOfAny terms.now (pushed (job.Arguments id from) room.old) room.new }
{
    if let TypeView::Op(_, arguments) = terms.types().view(id) {
        if from < arguments.len() {
            room.push_all(&[Job::Arguments(id, from + 1), Job::Type(arguments[from])]);
        }
    }
}

// Tells a term by its key, or else leaves its parts to be written: always those of one in which a number is loose.
fn do_term<S: Sink>(
    terms: &TermTable,
    number: u64,
    id: TermId,
    keys: &Keys,
    room: &mut Room,
    sink: &mut S,
) -> Result<(), Failed>
    requires { IsReady terms.now number (pushed (job.Term id) room.old) keys.now }
    ensures { GoesTo S.got S.faults terms.now number (pushed (job.Term id) room.old) keys.now sink.old room.new keys.now sink.new result }
{
    match terms.ty(id) {
        Some(_) => do_closed_term(terms, number, id, keys, room, sink),
        None => {
            room.push(Job::TermParts(id));
            Ok(())
        }
    }
}

// Tells a term in which no number is loose by its key, or else leaves its parts to be written.
fn do_closed_term<S: Sink>(
    terms: &TermTable,
    number: u64,
    id: TermId,
    keys: &Keys,
    room: &mut Room,
    sink: &mut S,
) -> Result<(), Failed>
    requires ready { IsReady terms.now number (pushed (job.Term id) room.old) keys.now }
    requires closed { IsTermAt terms.now id.0 }
    ensures { GoesTo S.got S.faults terms.now number (pushed (job.Term id) room.old) keys.now sink.old room.new keys.now sink.new result }
{
    match keys.key(Thing::Term(id)) {
        Some(key) => write_key(key, Word::Ref, sink),
        None => {
            room.push_all(&[Job::Keep(Thing::Term(id)), Job::TermParts(id)]);
            Ok(())
        }
    }
}

// Writes the name that is the first of a term, if one is, and leaves what stands behind it.
fn do_term_parts<S: Sink>(
    terms: &TermTable,
    number: u64,
    id: TermId,
    keys: &Keys,
    room: &mut Room,
    sink: &mut S,
) -> Result<(), Failed>
    requires { IsReady terms.now number (pushed (job.TermParts id) room.old) keys.now }
    ensures { GoesTo S.got S.faults terms.now number (pushed (job.TermParts id) room.old) keys.now sink.old room.new keys.now sink.new result }
{
    match terms.view(id) {
        TermView::Free(name, ty) => {
            room.push_all(&[
                Job::Word(Word::VarTerm),
                Job::Word(Word::Var),
                Job::Type(ty),
            ]);
            write_name(name, sink)
        }
        TermView::Bound(within) => {
            let count = room.depth();
            let within = within as usize;
            let ty = room.binder(within);
            room.push_all(&[
                Job::Word(Word::VarTerm),
                Job::Word(Word::Var),
                Job::Type(ty),
            ]);
            write_binder(number, count - 1 - within, sink)
        }
        TermView::Const(name, ty) => {
            room.push_all(&[
                Job::Word(Word::ConstTerm),
                Job::Type(ty),
                Job::Word(Word::Const),
            ]);
            write_name(name, sink)
        }
        TermView::App(function, argument) => {
            room.push_all(&[
                Job::Word(Word::AppTerm),
                Job::Term(argument),
                Job::Term(function),
            ]);
            Ok(())
        }
        TermView::Lam(ty, body) => {
            let depth = room.depth();
            room.push_all(&[
                Job::Word(Word::AbsTerm),
                Job::Unbind,
                Job::Term(body),
                Job::Word(Word::Var),
                Job::Type(ty),
            ]);
            room.bind(ty);
            write_binder(number, depth, sink)
        }
    }
}

// Writes a `cons`, where one is left, and leaves one less.
fn do_conses<S: Sink>(count: usize, room: &mut Room, sink: &mut S) -> Result<(), Failed>
    requires { length room.old.jobs < room.old.room }
    ensures { GoesOfAny S.got S.faults (pushed (job.Conses count) room.old) sink.old room.new sink.new result }
{
    if count == 0 {
        return Ok(());
    }
    room.push(Job::Conses(count - 1));
    write_word(Word::Cons, sink)
}

// Gives a thing the next key, and writes it.
pub(crate) fn keep<S: Sink>(thing: Thing, keys: &mut Keys, sink: &mut S) -> Result<(), Failed>
    requires room { HasRoom keys.old thing }
    requires new { thing_key keys.old thing ≡ None }
    ensures kept { keys.new ≡ with_thing thing keys.old }
    ensures writes { Writes (S.got sink.old) (S.faults sink.old) (def_text keys.old) (S.got sink.new) (S.faults sink.new) result }
{
    let key = keys.keep(thing);
    write_key(key, Word::Def, sink)
}

// Does a job that was the next.
fn do_job<S: Sink>(
    terms: &TermTable,
    number: u64,
    job: Job,
    keys: &mut Keys,
    room: &mut Room,
    sink: &mut S,
) -> Result<(), Failed>
    requires ready { IsReady terms.now number (pushed job room.old) keys.old }
    requires left { length room.old.jobs < room.old.room }
    ensures { GoesTo S.got S.faults terms.now number (pushed job room.old) keys.old sink.old room.new keys.new sink.new result }
{
    match job {
        Job::Type(id) => do_type(terms, number, id, keys, room, sink),
        Job::TypeParts(id) => do_type_parts(terms, number, id, keys, room, sink),
        Job::Arguments(id, from) => {
            do_arguments(terms, id, from, room);
            Ok(())
        }
        Job::Term(id) => do_term(terms, number, id, keys, room, sink),
        Job::TermParts(id) => do_term_parts(terms, number, id, keys, room, sink),
        Job::Word(word) => write_word(word, sink),
        Job::Conses(count) => do_conses(count, room, sink),
        Job::Keep(thing) => keep(thing, keys, sink),
        Job::Unbind => {
            room.unbind();
            Ok(())
        }
    }
}

/// Does the jobs of an agenda, and those that come of them, until none is left.
pub(crate) fn run<S: Sink>(
    terms: &TermTable,
    number: u64,
    keys: &mut Keys,
    room: &mut Room,
    sink: &mut S,
) -> Result<(), Failed>
    requires { IsReady terms.now number room.old keys.old }
    ensures { AddsTo S.got S.faults terms.now (jobs_writer terms.now number room.old) keys.old sink.old keys.new room.new.room sink.new result }
{
    while let Some(job) = room.pop() {
        do_job(terms, number, job, keys, room, sink)?;
    }
    Ok(())
}
