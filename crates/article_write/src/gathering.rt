//! A sink that gathers what another sink is to get.
ghost use Rattle.std.specs.Prelude.{◌≡◌, ◌<◌, ◌≤◌, ◌++◌, [], ℕ, List, Option, length, take, Ok, IfOk, OnOk, OnErr};
ghost use Rattle.bridge_base.specs.Outside.{Gains, HasCause};
ghost use Rattle.article_lines.specs.Writing.{Writes};
ghost use Rattle.article_write.specs.Gathering.{told_length, told_since, told_with};

use bridge_base::{Failed, Sink};
use std::marker::Model;
use std::snapshot::Snapshot;

// How many bytes are gathered at most, and given on at once.
const ROOM: usize = 4_096;

// Bytes that a sink is still to get, in order. Contracts see the list of them.
#[derive(Drop)]
struct Waiting {
    bytes: [u8; ROOM],
    start: usize,
    end: usize,
}

impl Model for Waiting {
    ghost use Rattle.std.specs.Prelude.{ℕ, List, drop, take, ◌≤◌};

    ghost Value = { List ℕ };

    ghost view = { λ w. drop w.start (take w.end w.bytes) };

    ghost invariant = { λ w. (w.start ≤ w.end) × (w.end ≤ 4096) };
}

impl Waiting {
    fn new() -> Self
        ensures { result ≡ [] }
    {
        Waiting {
            bytes: [0; ROOM],
            start: 0,
            end: 0,
        }
    }

    // Takes as much of a piece as there is room for, and gives its length: there is room where nothing is waiting.
    fn take(&mut self, piece: &[u8]) -> usize
        ensures bound { result ≤ length piece.now }
        ensures moves { self.old ≡ [] → 0 < length piece.now → 0 < result }
        ensures taken { self.new ≡ self.old ++ take result piece.now }
    {
        if self.start == self.end {
            self.start = 0;
            self.end = 0;
        }
        let count = piece.len().min(ROOM - self.end);
        let end = self.end + count;
        self.bytes[self.end..end].copy_from_slice(&piece[..count]);
        self.end = end;
        count
    }

    // Gives all that is waiting to the sink. Where that fails, what the sink didn't get is still waiting.
    fn give<S: Sink>(&mut self, sink: &mut S) -> Result<(), Failed>
        ensures none { OnOk result (self.new ≡ []) }
        ensures kept { told_with (S.got sink.new) self.new ≡ told_with (S.got sink.old) self.old }
        ensures grown { told_length (S.got sink.old) ≤ told_length (S.got sink.new) }
        ensures cause { HasCause (S.faults sink.old) (S.faults sink.new) result }
    {
        while self.start < self.end {
            self.start += sink.write(&self.bytes[self.start..self.end])?;
        }
        Ok(())
    }

    // Takes a front of a piece, of at least one byte where it has one, and gives its length. Where there is no room, the sink gets what is
    // waiting before that.
    fn take_or_give<S: Sink>(&mut self, piece: &[u8], sink: &mut S) -> Result<usize, Failed>
        ensures bound { IfOk result (λ count. count ≤ length piece.now) }
        ensures moves { IfOk result (λ count. 0 < length piece.now → 0 < count) }
        ensures bytes { IfOk result (λ count. Gains (told_with (S.got sink.old) self.old) (take count piece.now) (told_with (S.got sink.new) self.new)) }
        ensures err { OnErr result (told_with (S.got sink.new) self.new ≡ told_with (S.got sink.old) self.old) }
        ensures grown { told_length (S.got sink.old) ≤ told_length (S.got sink.new) }
        ensures cause { HasCause (S.faults sink.old) (S.faults sink.new) result }
    {
        let count = self.take(piece);
        if count > 0 || piece.is_empty() {
            return Ok(count);
        }
        self.give(sink)?;
        Ok(self.take(piece))
    }
}

/// A sink that gathers what it gets for another sink, which gets it together, at most 4,096 bytes at a time: once there is no room for one
/// more, and at the end. Its faults are those of the other.
///
/// It tells what the other tells and what is waiting, and before that a number: how many bytes the other told at the beginning. What is
/// told grows at its end, so a caller that knows nothing but that it grew still knows where it began.
pub(crate) struct GatheringSink<S: Sink> {
    sink: S,
    waiting: Waiting,
    begun: Snapshot<S>,
    ghost grown: { told_length (S.got begun.value) ≤ told_length (S.got sink) },
}

impl<S: Sink> GatheringSink<S> {
    /// In front of that sink, with nothing gathered.
    pub(crate) fn new(sink: S) -> Self
        ensures sink { result.sink ≡ sink }
        ensures begun { result.begun.value ≡ sink }
        ensures none { result.waiting ≡ [] }
    {
        let begun = Snapshot::of(&sink);
        GatheringSink {
            sink,
            waiting: Waiting::new(),
            begun,
        }
    }

    /// The sink again. It gets what is still waiting, unless what was written to this one failed.
    pub(crate) fn finish(self, outcome: Result<(), Failed>) -> (S, Result<(), Failed>)
        ensures { (old : Option (List ℕ)) (faults : ℕ) (text : List ℕ) → Writes (told_since old old []) faults text (told_since (S.got self.begun.value) (S.got self.sink) self.waiting) (S.faults self.sink) outcome
            → Writes old faults text (S.got result.0) (S.faults result.0) result.1 }
    {
        let GatheringSink {
            sink,
            waiting,
            begun: _begun,
        } = self;
        match outcome {
            Ok(()) => given(sink, waiting),
            Err(failed) => (sink, Err(failed)),
        }
    }
}

// Gives what is waiting to the sink.
fn given<S: Sink>(sink: S, waiting: Waiting) -> (S, Result<(), Failed>)
    ensures ok { OnOk result.1 (S.got result.0 ≡ told_with (S.got sink) waiting) }
    ensures kept { (left : List ℕ) × (told_with (S.got result.0) left ≡ told_with (S.got sink) waiting) }
    ensures grown { told_length (S.got sink) ≤ told_length (S.got result.0) }
    ensures cause { HasCause (S.faults sink) (S.faults result.0) result.1 }
{
    let mut sink = sink;
    let mut waiting = waiting;
    let result = waiting.give(&mut sink);
    (sink, result)
}

impl<S: Sink> Sink for GatheringSink<S> {
    ghost use Rattle.article_write.specs.Gathering.{told_since};

    ghost got = { λ g. told_since (S.got g.begun.value) (S.got g.sink) g.waiting };

    ghost faults = { λ g. S.faults g.sink };

    /// Takes a front of the piece. Fails where the other sink does, once there is no room.
    fn write(&mut self, piece: &[u8]) -> Result<usize, Failed> {
        self.waiting.take_or_give(piece, &mut self.sink)
    }
}
