//! A sink in memory that fails where it is told to.
ghost use Rattle.std.specs.Prelude.{◌≡◌, IsTrue, IsErr, IfOk, OnOk, OnErr, length, if◌then◌else◌};
ghost use Rattle.bridge_base.specs.Outside.{HasCause};
ghost use Rattle.bridge_base.specs.Calls.{is_listed};
ghost use Rattle.bridge_base.specs.InMemory.{written, refused, ran_short, cleared};

use crate::call_log::CallLog;
use crate::outside::{Failed, Sink};
use std::marker::Model;

/// A sink in memory, which fails at the calls that it is told to fail at.
///
/// Calls are counted from 1, up to the greatest u64, at which the count stays. Beside the listed calls one
/// fails only for want of memory, and `short` counts these apart.
#[derive(Debug, Drop)]
pub struct MemSink {
    contents: Vec<u8>,
    log: CallLog,
    short: u64,
}

impl Model for MemSink {
    ghost use Rattle.bridge_base.specs.InMemory.{SinkState};

    ghost Value = { SinkState };

    ghost view = { λ sink. record { contents = sink.contents.items; calls = sink.log; short = sink.short } };
}

impl MemSink {
    /// A sink that holds these bytes already, and fails at the calls of these numbers.
    pub fn new(contents: Vec<u8>, failing: Vec<u64>) -> MemSink
        ensures contents { result.contents ≡ contents.items }
        ensures calls { result.calls ≡ record { made = 0; failing = failing.items; faults = 0 } }
        ensures short { result.short ≡ 0 }
    {
        MemSink {
            contents,
            log: CallLog::new(failing),
            short: 0,
        }
    }

    /// All that the sink holds.
    pub fn contents(&self) -> &[u8]
        ensures { result.now ≡ self.now.contents }
    {
        &self.contents
    }

    /// Gives up all that the sink holds, without giving back its memory. Its counts stay. It takes no memory.
    pub fn clear(&mut self)
        ensures { self.new ≡ cleared self.old }
    {
        self.contents.clear();
    }

    /// How many calls of `write` were made, up to the greatest u64.
    pub fn calls(&self) -> u64
        ensures { result ≡ self.now.calls.made }
    {
        self.log.made()
    }

    /// How many calls failed, up to the greatest u64.
    pub fn faults(&self) -> u64
        ensures { result ≡ self.now.calls.faults }
    {
        self.log.faults()
    }

    /// How many calls failed for want of memory, up to the greatest u64.
    pub fn short(&self) -> u64
        ensures { result ≡ self.now.short }
    {
        self.short
    }
}

impl Sink for MemSink {
    ghost use Rattle.std.specs.Prelude.{Some};

    ghost got = { λ sink. Some sink.contents };

    ghost faults = { λ sink. sink.calls.faults };

    /// Writes the whole piece, or none of it: at a listed call, and where memory runs out.
    fn write(&mut self, piece: &[u8]) -> Result<usize, Failed>
        ensures count { IfOk result (λ count. count ≡ length piece.now) }
        ensures ok { OnOk result (self.new ≡ written self.old piece.now) }
        ensures listed { IsTrue (is_listed self.old.calls) → IsErr result }
        ensures err { OnErr result (self.new ≡ (if is_listed self.old.calls then refused self.old else ran_short self.old)) }
        ensures cause { HasCause self.old.calls.faults self.new.calls.faults result }
    {
        self.log.count()?;
        match self.contents.extend_from_slice(piece) {
            Ok(()) => Ok(piece.len()),
            Err(_) => {
                self.short = self.short.saturating_add(1);
                Err(self.log.fail())
            }
        }
    }
}
