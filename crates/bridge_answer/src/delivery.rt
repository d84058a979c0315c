//! An answer as texts to two sinks, and as a status.
ghost use Rattle.std.specs.Prelude.{◌≡◌, ◌<◌, ◌≤◌, length, map, OnOk, OnErr};
ghost use Rattle.std.specs.List.{flat_map};
ghost use Rattle.bridge_base.specs.Outside.{HasCause, Gains, GainsFront};
ghost use Rattle.lp_spec.specs.FaultKinds.{fault_of};
ghost use Rattle.bridge_spec.specs.Calls.{sunk};
ghost use Rattle.bridge_spec.specs.Outputs.{Delivers};
ghost use Rattle.bridge_spec.specs.Texts.{byte_line, dk_refusal_line, fault_name, fault_blank, fault_identifier, declaration_line};
ghost use Rattle.bridge_answer.specs.AnswerTexts.{status_of, text_of, note_of};

use crate::answer::Answer;
use bridge_base::{Failed, Sink, write_all};
use bridge_spec::Status;
use common::Kind;
use itoa::Buffer;
use lp_spec::DkKind;

/// The line that says which forms there are.
const USAGE: &[u8] =
    b"usage: bridge verify [--share] [--fast] FILE.. | translate [--share] FILE.. | check FILE [--budget N] [--fast] | decode FILE | show FILE.. | trial N | article FILE..\n";

/// Writes the texts of an answer, the output first, and gives its status. Where the output fails, the
/// note says so; where either fails, the status is that of a write fault.
pub fn deliver<O: Sink, N: Sink>(answer: Answer, out: &mut O, note: &mut N) -> Status
    ensures delivered { Delivers (status_of answer) (text_of answer) (note_of answer) (sunk O.got O.faults out.old out.new)
        (sunk N.got N.faults note.old note.new) result }
    ensures out_count { O.faults out.old ≤ O.faults out.new }
    ensures note_count { N.faults note.old ≤ N.faults note.new }
{
    if write_lines(out, answer.text()).is_err() {
        let _ = write_all(note, b"write fault\n");
        return Status::WriteFault;
    }
    if write_note(note, &answer).is_err() {
        return Status::WriteFault;
    }
    answer.into_status()
}

/// Writes a text, each line by a call of its own.
fn write_lines<O: Sink>(out: &mut O, text: &[u8]) -> Result<(), Failed>
    ensures ok { OnOk result (Gains (O.got out.old) text.now (O.got out.new)) }
    ensures err { OnErr result (GainsFront (O.got out.old) text.now (O.got out.new)) }
    ensures cause { HasCause (O.faults out.old) (O.faults out.new) result }
{
    let mut written = 0;
    while written < text.len() {
        let rest = &text[written..];
        let line = line_length(rest);
        write_all(out, &rest[..line])?;
        written += line;
    }
    Ok(())
}

/// The length of the first line, its end included.
fn line_length(text: &[u8]) -> usize
    requires { 0 < length text.now }
    ensures some { 0 < result }
    ensures within { result ≤ length text.now }
{
    match text.iter().position(|byte| *byte == b'\n') {
        Some(place) => place + 1,
        None => text.len(),
    }
}

/// Writes what the answer says on standard error.
fn write_note<N: Sink>(note: &mut N, answer: &Answer) -> Result<(), Failed>
    ensures ok { OnOk result (Gains (N.got note.old) (note_of answer.now) (N.got note.new)) }
    ensures err { OnErr result (GainsFront (N.got note.old) (note_of answer.now) (N.got note.new)) }
    ensures cause { HasCause (N.faults note.old) (N.faults note.new) result }
{
    match answer {
        Answer::Told(_) => write_all(note, b""),
        Answer::Refused(article, line, kind) => write_refusal(note, *article, *line, *kind),
        Answer::Usage => write_all(note, USAGE),
        Answer::ReadFault => write_all(note, b"read fault\n"),
        Answer::Memory => write_all(note, b"out of memory\n"),
        Answer::DkRefused(place, kind) => write_dk_refusal(note, *place, kind),
        Answer::IllTyped(i) => write_declaration(note, *i, b": ill typed\n"),
        Answer::OverBudget(i) => write_declaration(note, *i, b": over budget\n"),
        Answer::NotSequent(i) => write_declaration(note, *i, b": not a sequent\n"),
        Answer::Unwritable => write_all(note, b"article not writable\n"),
    }
}

fn write_refusal<N: Sink>(note: &mut N, article: u64, line: u64, kind: Kind) -> Result<(), Failed>
    ensures ok { OnOk result (Gains (N.got note.old) (note_of (Answer.Refused article line kind)) (N.got note.new)) }
    ensures err { OnErr result (GainsFront (N.got note.old) (note_of (Answer.Refused article line kind)) (N.got note.new)) }
    ensures cause { HasCause (N.faults note.old) (N.faults note.new) result }
{
    let mut which = Buffer::new();
    let mut place = Buffer::new();
    let mut number = Buffer::new();
    write_parts(
        note,
        &[
            b"article ",
            which.format(article).as_bytes(),
            b" line ",
            place.format(line).as_bytes(),
            b": ",
            kind.name().as_bytes(),
            b" (",
            number.format(kind.number()).as_bytes(),
            b")\n",
        ],
    )
}

fn write_dk_refusal<N: Sink>(note: &mut N, place: u64, kind: &DkKind) -> Result<(), Failed>
    ensures ok { OnOk result (Gains (N.got note.old) (dk_refusal_line place (fault_of kind.now)) (N.got note.new)) }
    ensures err { OnErr result (GainsFront (N.got note.old) (dk_refusal_line place (fault_of kind.now)) (N.got note.new)) }
    ensures cause { HasCause (N.faults note.old) (N.faults note.new) result }
{
    write_byte(
        note,
        place,
        name_of(kind),
        blank_of(kind),
        identifier_of(kind),
    )
}

/// Writes the fault at a byte: its name, a blank and an identifier.
fn write_byte<'a, N: Sink>(
    note: &mut N,
    place: u64,
    name: &'a [u8],
    blank: &'a [u8],
    identifier: &'a [u8],
) -> Result<(), Failed>
    ensures ok { OnOk result (Gains (N.got note.old) (byte_line place name.now blank.now identifier.now) (N.got note.new)) }
    ensures err { OnErr result (GainsFront (N.got note.old) (byte_line place name.now blank.now identifier.now) (N.got note.new)) }
    ensures cause { HasCause (N.faults note.old) (N.faults note.new) result }
{
    let mut number = Buffer::new();
    write_parts(
        note,
        &[
            b"byte ",
            number.format(place).as_bytes(),
            b": ",
            name,
            blank,
            identifier,
            b"\n",
        ],
    )
}

/// The name of a fault of a text.
fn name_of(kind: &DkKind) -> &'static [u8]
    ensures { result.now ≡ fault_name (fault_of kind.now) }
{
    match kind {
        DkKind::NoPrelude => b"NoPrelude",
        DkKind::BadText => b"BadText",
        DkKind::UnknownName(_) => b"UnknownName",
        DkKind::NameTwice(_) => b"NameTwice",
        DkKind::DkTooDeep => b"DkTooDeep",
        DkKind::DkTooLong => b"DkTooLong",
    }
}

/// The blank before the identifier of a fault, where it has one.
fn blank_of(kind: &DkKind) -> &'static [u8]
    ensures { result.now ≡ fault_blank (fault_of kind.now) }
{
    match kind {
        DkKind::UnknownName(_) | DkKind::NameTwice(_) => b" ",
        _ => b"",
    }
}

/// The identifier of a fault, where it has one.
fn identifier_of(kind: &DkKind) -> &[u8]
    ensures { result.now ≡ fault_identifier (fault_of kind.now) }
{
    match kind {
        DkKind::UnknownName(name) | DkKind::NameTwice(name) => name.as_bytes(),
        _ => b"",
    }
}

/// Writes what is said of a declaration.
fn write_declaration<N: Sink>(note: &mut N, i: u64, said: &[u8]) -> Result<(), Failed>
    ensures ok { OnOk result (Gains (N.got note.old) (declaration_line i said.now) (N.got note.new)) }
    ensures err { OnErr result (GainsFront (N.got note.old) (declaration_line i said.now) (N.got note.new)) }
    ensures cause { HasCause (N.faults note.old) (N.faults note.new) result }
{
    let mut number = Buffer::new();
    write_parts(note, &[b"declaration ", number.format(i).as_bytes(), said])
}

/// Writes pieces one after another.
pub fn write_parts<S: Sink>(sink: &mut S, parts: &[&[u8]]) -> Result<(), Failed>
    ensures ok { OnOk result (Gains (S.got sink.old) (flat_map (λ part. part.now) parts.now) (S.got sink.new)) }
    ensures err { OnErr result (GainsFront (S.got sink.old) (flat_map (λ part. part.now) parts.now) (S.got sink.new)) }
    ensures cause { HasCause (S.faults sink.old) (S.faults sink.new) result }
{
    for part in parts {
        write_all(sink, part)?;
    }
    Ok(())
}
