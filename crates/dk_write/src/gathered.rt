//! Text that is gathered before a sink gets it.
ghost use Rattle.std.specs.Prelude.{◌≡◌, ◌+◌, ◌≤◌, ◌++◌, [], length, OnOk, OnErr};
ghost use Rattle.bridge_base.specs.Outside.{Gains, GainsFront, HasCause};
ghost use Rattle.dk_write.specs.Writing.{Writes, words_text};

use bridge_base::{Failed, Sink, write_all};
use std::marker::Model;

// How many bytes are gathered at most, and written at once.
const ROOM: usize = 4_096;

/// Bytes that a sink is to get: it gets them together, once there is no room for one more, and at the end.
#[derive(Drop)]
pub(crate) struct Gathered {
    bytes: [u8; ROOM],
    len: usize,
}

impl Model for Gathered {
    ghost use Rattle.std.specs.Prelude.{ℕ, List, take, ◌≤◌};

    ghost Value = { List ℕ };

    ghost view = { λ g. take g.len g.bytes };

    ghost invariant = { λ g. g.len ≤ 4096 };
}

impl Gathered {
    pub(crate) fn new() -> Self
        ensures { result ≡ [] }
    {
        Gathered {
            bytes: [0; ROOM],
            len: 0,
        }
    }

    /// Gathers nothing of what came so far.
    pub(crate) fn forget(&mut self)
        ensures { self.new ≡ [] }
    {
        self.len = 0;
    }

    // How many bytes more can be gathered.
    fn room(&self) -> usize
        ensures { length self.now + result ≡ 4096 }
    {
        ROOM - self.len
    }

    // Gathers a piece for which there is room.
    fn gather(&mut self, piece: &[u8])
        requires { length self.old + length piece.now ≤ 4096 }
        ensures { self.new ≡ self.old ++ piece.now }
    {
        let end = self.len + piece.len();
        self.bytes[self.len..end].copy_from_slice(piece);
        self.len = end;
    }

    // Writes what is gathered to the sink.
    pub(crate) fn flush<S: Sink>(&mut self, sink: &mut S) -> Result<(), Failed>
        ensures none { OnOk result (self.new ≡ []) }
        ensures ok { OnOk result (Gains (S.got sink.old) self.old (S.got sink.new)) }
        ensures err { OnErr result (GainsFront (S.got sink.old) self.old (S.got sink.new)) }
        ensures cause { HasCause (S.faults sink.old) (S.faults sink.new) result }
    {
        write_all(sink, &self.bytes[..self.len])?;
        self.len = 0;
        Ok(())
    }

    // Gathers a piece, and writes what is gathered as often as there is no room left.
    pub(crate) fn write<S: Sink>(&mut self, piece: &[u8], sink: &mut S) -> Result<(), Failed>
        ensures { Writes (S.got sink.old) self.old (S.faults sink.old) piece.now (S.got sink.new) self.new (S.faults sink.new) result }
    {
        let mut rest = piece;
        while rest.len() > self.room() {
            let (front, back) = rest.split_at(self.room());
            self.gather(front);
            self.flush(sink)?;
            rest = back;
        }
        self.gather(rest);
        Ok(())
    }

    // Writes these words, one after another.
    pub(crate) fn write_words<S: Sink>(
        &mut self,
        words: &[&[u8]],
        sink: &mut S,
    ) -> Result<(), Failed>
        ensures { Writes (S.got sink.old) self.old (S.faults sink.old) (words_text words.now) (S.got sink.new) self.new (S.faults sink.new) result }
    {
        for word in words {
            self.write(word, sink)?;
        }
        Ok(())
    }
}
