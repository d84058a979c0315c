//! The reader of lines.

ghost use Rattle.std.specs.Prelude.{◌≡◌, ◌∷◌, [], ◌++◌, ◌+◌, ◌<◌, ◌≤◌, length, true, false, None, Some, Ok, Err, OnOk, IfOk, IfErr, IfSome, IfNone};
ghost use Rattle.std.specs.List.{flat_map};
ghost use Rattle.std.specs.Result.{result_err};
ghost use Rattle.common.specs.declared.faults.Kind.{Kind};
ghost use Rattle.article_spec.specs.Lines.{newline, max_line, max_article, IsLine};
ghost use Rattle.article_read.specs.declared.lines.LineFault.{LineFault};
ghost use Rattle.article_read.specs.Reading.{IsFed, Feeds, EndsWith, StaysStopped, IsKept, ReadsAs, fresh};
ghost use Rattle.article_read.specs.OpenLines.{AnswersLine, FeedsPart, HasRoom, Keeps, behind_line};

use crate::content::{Judgement, read_content};
use article_spec::Command;
use common::Kind;
use std::alloc::Global;
use std::marker::Model;
use thiserror::Error;

/// Why a reader stopped.
#[derive(Clone, Copy, Debug, PartialEq, Eq, Error)]
pub enum LineFault {
    /// The article is refused at this line, which counts from 1, skipped lines too. The kind is
    /// `BadLine` or `NumberRange` for a line that has ended, and `LineTooLong` or `InputTooLong` for
    /// one that goes past a limit.
    #[error("line {line}: {kind}")]
    Refused { line: u64, kind: Kind },
    /// Memory ran out.
    #[error("out of memory")]
    Memory,
}

const MAX_LINE: usize = 1048576;

const MAX_ARTICLE: u64 = 4294967296;

/// A reader of the lines of an article. It is seen as the number and the offset of the line that is
/// open, that line's bytes, and the fault that has stopped it.
#[derive(Drop)]
pub struct Lines {
    number: u64,
    offset: u64,
    rest: Vec<u8>,
    fault: Option<LineFault>,
}

impl Model for Lines {
    ghost use Rattle.article_read.specs.Reading.{Reading, IsKept};

    ghost Value = { Reading };

    ghost view = { λ lines. record { number = lines.number; offset = lines.offset; rest = lines.rest.items; fault = lines.fault } };

    ghost invariant = { λ lines. IsKept lines.number lines.offset lines.rest.items };
}

impl Lines {
    /// A reader that was fed nothing.
    pub fn new(alloc: Global) -> Lines
        ensures value { result ≡ fresh }
        ensures fed { IsFed result [] [] }
    {
        Lines {
            number: 1,
            offset: 0,
            rest: Vec::new(alloc),
            fault: None,
        }
    }

    /// Takes the next piece of the article, and appends to `out` the commands of the lines that end in
    /// it. It refuses the first faulty line as soon as it can be told: at its newline with
    /// `NumberRange`, where the line is a number outside 64 bits, or else with `BadLine`; at its byte
    /// 1,048,577, newline aside, with `LineTooLong`; and at the article's byte 4,294,967,297 with
    /// `InputTooLong`. Where both limits are passed at one byte, it is `LineTooLong`. The commands
    /// before the fault are in `out`. After a fault, want of memory too, each call answers it again.
    pub fn feed(&mut self, piece: &[u8], out: &mut Vec<Command>) -> Result<(), LineFault>
        ensures feeds { Feeds self.old piece.now out.old.items out.new.items self.new }
        ensures answer { self.new.fault ≡ result_err result }
        ensures repeats { StaysStopped self.old self.new out.old.items out.new.items (result_err result) }

        ensures counted { OnOk result (self.new.offset + length self.new.rest
            ≡ self.old.offset + length self.old.rest + length piece.now) }
        ensures within { OnOk result (self.new.offset + length self.new.rest ≤ max_article) }
    {
        if let Some(fault) = self.fault {
            return Err(fault);
        }
        let mut rest = piece;
        while let Some((line, more)) = first_line(rest) {
            self.take_line(line, out)?;
            rest = more;
        }
        self.take_part(rest)
    }

    /// Ends the article, whose last line needs no newline, and answers with the line of its end. It
    /// refuses exactly where the whole article has a faulty line: the last one with `BadLine` or
    /// `NumberRange`, as if it had a newline, or one that `feed` has refused. After `Ok` the reader is
    /// as new, after a fault each call answers it again.
    pub fn finish(&mut self, out: &mut Vec<Command>) -> Result<u64, LineFault>
        ensures ends { EndsWith self.old out.old.items out.new.items result }
        ensures renewed { OnOk result (self.new ≡ fresh) }
        ensures answer { IfErr result (λ fault. self.new.fault ≡ Some fault) }
        ensures repeats { StaysStopped self.old self.new out.old.items out.new.items (result_err result) }
    {
        if let Some(fault) = self.fault {
            return Err(fault);
        }
        let given = self.give(&self.rest, out);
        self.note(given)?;
        let line = self.number;
        self.renew();
        Ok(line)
    }

    /// How many bytes of the line that is open are kept, at most 1,048,576: nothing else is kept of what was fed. It takes
    /// no memory.
    pub fn held(&self) -> usize
        ensures line { result ≡ length self.now.rest }
        ensures most { result ≤ max_line }
    {
        self.rest.len()
    }

    /// Takes a line and its newline.
    fn take_line(&mut self, line: &[u8], commands: &mut Vec<Command>) -> Result<(), LineFault>
        requires none { self.old.fault ≡ None }
        requires line { IsLine line.now }
        ensures feeds { Feeds self.old (line.now ++ newline ∷ []) commands.old.items commands.new.items self.new }
        ensures answer { self.new.fault ≡ result_err result }
        ensures counted { OnOk result (self.new.offset + length self.new.rest
            ≡ self.old.offset + length self.old.rest + (length line.now + 1)) }
    {
        if self.is_whole(line.len()) {
            let given = self.give(line, commands);
            return self.end_line(line.len(), given);
        }
        self.take_part(line)?;
        self.take_newline(commands)
    }

    /// Takes a part of the open line.
    fn take_part(&mut self, part: &[u8]) -> Result<(), LineFault>
        requires none { self.old.fault ≡ None }
        requires line { IsLine part.now }
        ensures feeds { FeedsPart self.old part.now self.new }
        ensures answer { self.new.fault ≡ result_err result }
        ensures counted { OnOk result (self.new.offset + length self.new.rest
            ≡ self.old.offset + length self.old.rest + length part.now) }
        ensures within { OnOk result (self.new.offset + length self.new.rest ≤ max_article) }
    {
        let (room, kind) = self.room();
        if part.len() as u64 > room {
            return self.refuse(kind);
        }
        self.keep(part)
    }

    /// Takes the newline of the open line.
    fn take_newline(&mut self, commands: &mut Vec<Command>) -> Result<(), LineFault>
        requires { self.old.fault ≡ None }
        ensures feeds { Feeds self.old (newline ∷ []) commands.old.items commands.new.items self.new }
        ensures answer { self.new.fault ≡ result_err result }
        ensures counted { OnOk result (self.new.offset + length self.new.rest ≡ self.old.offset + length self.old.rest + 1) }
    {
        if self.is_full() {
            return self.refuse(Kind::InputTooLong);
        }
        let count = self.rest.len();
        let given = self.give(&self.rest, commands);
        self.end_line(count, given)
    }

    /// Whether nothing is kept of the open line, and a line of so many bytes and its newline pass no limit.
    fn is_whole(&self, count: usize) -> bool
        ensures empty { result ≡ true → self.now.rest ≡ [] }
        ensures short { result ≡ true → count ≤ max_line }
        ensures room { result ≡ true → self.now.offset + count < max_article }
    {
        self.rest.is_empty() && count <= MAX_LINE && self.offset + (count as u64) < MAX_ARTICLE
    }

    /// How many more bytes of the open line pass no limit, and which one the next byte passes, unless it is a newline.
    fn room(&self) -> (u64, Kind)
        ensures room { HasRoom self.now.offset (length self.now.rest) result.0 result.1 }
        ensures kept { IsKept self.now.number self.now.offset self.now.rest }
    {
        let held = self.rest.len() as u64;
        let room = MAX_LINE as u64 - held;
        let left = MAX_ARTICLE - self.offset - held;
        if room <= left {
            return (room, Kind::LineTooLong);
        }
        (left, Kind::InputTooLong)
    }

    /// Whether no further byte is within the limit of an article.
    fn is_full(&self) -> bool
        ensures full { result ≡ true → self.now.offset + length self.now.rest ≡ max_article }
        ensures room { result ≡ false → self.now.offset + length self.now.rest < max_article }
        ensures kept { IsKept self.now.number self.now.offset self.now.rest }
    {
        self.offset + self.rest.len() as u64 == MAX_ARTICLE
    }

    /// Keeps a part of the open line.
    fn keep(&mut self, part: &[u8]) -> Result<(), LineFault>
        requires none { self.old.fault ≡ None }
        requires line { IsLine part.now }
        requires short { length self.old.rest + length part.now ≤ max_line }
        requires within { self.old.offset + length self.old.rest + length part.now ≤ max_article }
        ensures kept { Keeps self.old part.now (result_err result) self.new }
        ensures answer { self.new.fault ≡ result_err result }
        ensures counted { OnOk result (self.new.offset + length self.new.rest
            ≡ self.old.offset + length self.old.rest + length part.now) }
    {
        if self.rest.extend_from_slice(part).is_err() {
            return self.note(Err(LineFault::Memory));
        }
        Ok(())
    }

    /// Appends the command of this line as the open one, if it has one.
    fn give(&self, line: &[u8], commands: &mut Vec<Command>) -> Result<(), LineFault>
        ensures answers { AnswersLine (result_err result) self.now.number line.now commands.old.items commands.new.items }
        ensures kept { IsKept self.now.number self.now.offset self.now.rest }
    {
        give_command(*self.rest.allocator(), self.number, line, commands)
    }

    /// Ends the open line of so many bytes, of which this was answered.
    fn end_line(&mut self, count: usize, given: Result<(), LineFault>) -> Result<(), LineFault>
        requires none { self.old.fault ≡ None }
        requires room { self.old.offset + count < max_article }
        ensures same { result ≡ given }
        ensures behind { self.new ≡ behind_line self.old count (result_err given) }
        ensures answer { self.new.fault ≡ result_err result }
        ensures counted { OnOk result (self.new.offset + length self.new.rest ≡ self.old.offset + count + 1) }
    {
        self.note(given)?;
        self.next_line(count);
        Ok(())
    }

    /// Stops at the open line.
    fn refuse(&mut self, kind: Kind) -> Result<(), LineFault>
        requires { self.old.fault ≡ None }
        ensures answer { result ≡ Err (LineFault.Refused self.old.number kind) }
        ensures stopped { self.new ≡ record self.old { fault = Some (LineFault.Refused self.old.number kind) } }
    {
        let line = self.number;
        self.note(Err(LineFault::Refused { line, kind }))
    }

    /// Stops where this is a fault.
    fn note(&mut self, given: Result<(), LineFault>) -> Result<(), LineFault>
        requires { self.old.fault ≡ None }
        ensures same { result ≡ given }
        ensures noted { self.new ≡ record self.old { fault = result_err given } }
    {
        self.fault = given.err();
        given
    }

    /// Opens the line behind the open one, which has so many bytes.
    fn next_line(&mut self, count: usize)
        requires { self.old.offset + count < max_article }
        ensures { self.new ≡ record { number = self.old.number + 1; offset = self.old.offset + count + 1; rest = []; fault = self.old.fault } }
    {
        self.number += 1;
        self.offset += count as u64 + 1;
        self.rest.clear();
    }

    /// Begins a new article.
    fn renew(&mut self)
        requires { self.old.fault ≡ None }
        ensures { self.new ≡ fresh }
    {
        self.number = 1;
        self.offset = 0;
        self.rest.clear();
    }
}

/// The first line of a text, without its newline, and what comes behind it, where the line has ended.
fn first_line(text: &[u8]) -> Option<(&[u8], &[u8])>
    ensures cut { IfSome result (λ parts. text.now ≡ parts.0.now ++ newline ∷ parts.1.now) }
    ensures line { IfSome result (λ parts. IsLine parts.0.now) }
    ensures open { IfNone result (IsLine text.now) }
{
    for i in 0..text.len() {
        if text[i] == b'\n' {
            return Some((&text[..i], &text[i + 1..]));
        }
    }
    None
}

/// Appends the command of a line, if it has one.
fn give_command(
    alloc: Global,
    number: u64,
    line: &[u8],
    commands: &mut Vec<Command>,
) -> Result<(), LineFault>
    ensures { AnswersLine (result_err result) number line.now commands.old.items commands.new.items }
{
    match read_content(alloc, line) {
        Judgement::Skipped => Ok(()),
        Judgement::Command(item) => {
            let line = number;
            match commands.push(Command { line, item }) {
                Ok(()) => Ok(()),
                Err(_) => Err(LineFault::Memory),
            }
        }
        Judgement::Faulty(kind) => Err(LineFault::Refused { line: number, kind }),
        Judgement::Memory => Err(LineFault::Memory),
    }
}

/// Reads an article that comes in these pieces: appends its commands to `out`, and answers with the
/// line of its end or with its first fault, as the whole text has them. Want of memory says nothing.
pub fn read_all(alloc: Global, pieces: &[Vec<u8>], out: &mut Vec<Command>) -> Result<u64, LineFault>
    ensures { ReadsAs (flat_map (λ piece. piece.items) pieces.now) out.old.items out.new.items result }
{
    let mut lines = Lines::new(alloc);
    for piece in pieces {
        lines.feed(piece, out)?;
    }
    lines.finish(out)
}
