//! The reader of modules.
ghost use Rattle.std.specs.Prelude.{ℕ, ◌≡◌, ◌<◌, ◌≤◌, ◌+◌, ◌-◌, ◌^◌, ◌++◌, List, [], ◌∷◌, None, Some, length, is_some, IfOk, OnOk, OnErr, IfErr};
ghost use Rattle.dk_read.specs.declared.faults.DkFault.TheVariants as fault;
ghost use Rattle.lp_spec.specs.ReadingFaults as reading;
ghost use Rattle.holide_sig.specs.Modules.{declarations_of};
ghost use Rattle.dk_read.specs.Texts.{Ends};
ghost use Rattle.dk_read.specs.Readers.{Reading, place_of, held_of, HasRoom, IsFed, limit_of, EndsWith, ReadsAs, Accepts, NeverTooLong, StopsAs, EndsStopped, Feeds, GoesOn, Answers, StaysStopped, Judges, HasName};

use crate::faults::DkFault;
use crate::stage::Stage;
use common::Memory;
use holide_sig::{Ident, Module};
use lp_spec::DkKind;
use std::alloc::Global;
use std::marker::Model;

/// How long a text may be.
#[derive(Clone, Copy, Debug, PartialEq, Eq)]
pub enum Limit {
    /// So many bytes.
    Bytes(u64),
    /// As long as memory reaches.
    Free,
}

/// A reader of the text of a module. A place is a number of 64 bits: without a limit a text of 2^64 bytes or more is want of
/// memory, and a limit is less. Of a text that is longer than the limit the fault is told that its bytes up to there show, also
/// where they end in a word or a sign that can't follow whatever it becomes; else that it is too long.
#[derive(Drop)]
pub struct Reader {
    alloc: Global,
    limit: Limit,
    stage: Stage,
}

impl Model for Reader {
    ghost use Rattle.dk_read.specs.Readers.{Reading, coded_reading, limit_of, progress_of, fault_in, IsStage};

    ghost Value = { Reading };

    ghost coded = { coded_reading };

    ghost view = { λ r. record { limit = limit_of r.limit; progress = progress_of r.stage; fault = fault_in r.stage } };

    ghost invariant = { λ r. IsStage r.stage };
}

impl Reader {
    /// A reader that was fed nothing. It takes no memory.
    pub fn new(alloc: Global, limit: Limit) -> Self
        ensures limit { result.limit ≡ limit_of limit }
        ensures fed { IsFed result [] }
    {
        Reader {
            alloc,
            limit,
            stage: Stage::Opening(0),
        }
    }

    /// Takes the next piece of the text. It refuses only a text that is refused whatever follows, and at the latest
    /// one that is longer than the limit; without a limit none is too long. After a fault each call answers it again,
    /// or want of memory where the identifier of the fault can't be copied.
    pub fn feed(&mut self, piece: &[u8]) -> Result<(), DkFault>
        ensures limit { self.new.limit ≡ self.old.limit }
        ensures feeds { Feeds self.old piece.now self.new }
        ensures goes { GoesOn self.old piece.now self.new }
        ensures answer { Answers self.new.fault result }
        ensures stays { StaysStopped self.old self.new }
        ensures judges { Judges self.old piece.now result }
        ensures free { NeverTooLong self.old result }
    {
        self.take(piece)
    }

    /// Takes the next piece, unless a fault has stopped the reader.
    fn take(&mut self, piece: &[u8]) -> Result<(), DkFault>
        ensures limit { self.new.limit ≡ self.old.limit }
        ensures feeds { Feeds self.old piece.now self.new }
        ensures goes { GoesOn self.old piece.now self.new }
        ensures answer { Answers self.new.fault result }
        ensures stays { StaysStopped self.old self.new }
    {
        if !self.is_stopped() {
            self.append(piece);
        }
        self.answer()
    }

    // Whether a fault has stopped the reader.
    fn is_stopped(&self) -> bool
        ensures stopped { result ≡ is_some self.now.fault }
    {
        match &self.stage {
            Stage::Stopped(_) => true,
            _ => false,
        }
    }

    // Takes the next piece, as far as the limit goes. A text of 2^64 bytes or more wants more memory than there is.
    fn append(&mut self, piece: &[u8])
        requires going { self.old.fault ≡ None }
        ensures limit { self.new.limit ≡ self.old.limit }
        ensures feeds { Feeds self.old piece.now self.new }
        ensures goes { GoesOn self.old piece.now self.new }
    {
        match self.limit {
            Limit::Bytes(most) => self.append_within(piece, most),
            Limit::Free => self.append_freely(piece),
        }
    }

    // Takes the next piece, as far as there is room.
    fn append_within(&mut self, piece: &[u8], most: u64)
        requires going { self.old.fault ≡ None }
        requires limit { self.old.limit ≡ Some most }
        ensures limit { self.new.limit ≡ self.old.limit }
        ensures feeds { Feeds self.old piece.now self.new }
        ensures goes { GoesOn self.old piece.now self.new }
    {
        let room = most.saturating_sub(self.place());
        if (piece.len() as u64) <= room {
            self.read(piece);
        } else {
            self.cut(piece, room, most);
        }
    }

    // Takes the next piece without a limit.
    fn append_freely(&mut self, piece: &[u8])
        requires going { self.old.fault ≡ None }
        requires limit { self.old.limit ≡ None }
        ensures limit { self.new.limit ≡ self.old.limit }
        ensures feeds { Feeds self.old piece.now self.new }
        ensures goes { GoesOn self.old piece.now self.new }
    {
        let room = u64::MAX.saturating_sub(self.place());
        if (piece.len() as u64) <= room {
            self.read(piece);
        } else {
            self.want_memory();
        }
    }

    // How many bytes have been read, unless a fault has come.
    fn place(&self) -> u64
        ensures place { result ≡ place_of self.now.progress }
        ensures read { self.now.fault ≡ None → (text : List ℕ) → IsFed self.now text → result ≡ length text }
    {
        self.stage.place()
    }

    // Stops for want of memory.
    fn want_memory(&mut self)
        ensures limit { self.new.limit ≡ self.old.limit }
        ensures fault { self.new.fault ≡ Some fault.Memory }
    {
        self.stop(DkFault::Memory);
    }

    // Stops by this fault.
    fn stop(&mut self, fault: DkFault)
        ensures limit { self.new.limit ≡ self.old.limit }
        ensures fault { self.new.fault ≡ Some fault }
    {
        self.stage.put(Stage::Stopped(fault));
    }

    // Takes a piece that there is room for.
    fn read(&mut self, piece: &[u8])
        requires going { self.old.fault ≡ None }
        requires room { HasRoom self.old.limit (place_of self.old.progress) (length piece.now) }
        requires few { place_of self.old.progress + length piece.now < 2 ^ 64 }
        ensures limit { self.new.limit ≡ self.old.limit }
        ensures feeds { Feeds self.old piece.now self.new }
        ensures goes { GoesOn self.old piece.now self.new }
    {
        self.stage.read(self.alloc, piece);
    }

    // Takes the front of a piece that goes past the limit.
    fn cut(&mut self, piece: &[u8], room: u64, most: u64)
        requires going { self.old.fault ≡ None }
        requires limit { self.old.limit ≡ Some most }
        requires room { room ≡ most - place_of self.old.progress }
        requires over { room < length piece.now }
        ensures limit { self.new.limit ≡ self.old.limit }
        ensures feeds { Feeds self.old piece.now self.new }
        ensures goes { GoesOn self.old piece.now self.new }
    {
        // A place is a number of 64 bits, so the front ends at one.
        let _place = self.place();
        let (front, _back) = piece.split_at(room as usize);
        self.read(front);
        self.stop_at(most);
    }

    // Stops where the text goes on past the limit, unless a fault before it has stopped the reader.
    fn stop_at(&mut self, most: u64)
        ensures limit { self.new.limit ≡ self.old.limit }
        ensures stops { self.old.fault ≡ None → StopsAs (reading.cut_at most self.old.progress) self.new.fault }
        ensures stays { StaysStopped self.old self.new }
    {
        self.stage.cut(most);
    }

    /// The fault that has stopped the reader, copied.
    fn answer(&self) -> Result<(), DkFault>
        ensures { Answers self.now.fault result }
    {
        match &self.stage {
            Stage::Stopped(DkFault::Memory) => Err(DkFault::Memory),
            Stage::Stopped(DkFault::Refused { place, kind }) => match copy(self.alloc, kind) {
                Ok(kind) => Err(DkFault::Refused {
                    place: *place,
                    kind,
                }),
                Err(_) => Err(DkFault::Memory),
            },
            _ => Ok(()),
        }
    }

    /// How many bytes of the text the reader holds: those of the identifier or key word that is open. It takes no
    /// memory.
    pub fn held(&self) -> usize
        ensures { result ≡ held_of self.now.progress }
    {
        match &self.stage {
            Stage::Inside(text) => text.held(),
            _ => 0,
        }
    }

    /// Ends the text. It answers with the module that the whole text reads as, or with its refusal: the fault at
    /// the least place. Without a limit no text is too long. A reader that has stopped answers its fault again.
    pub fn finish(self) -> Result<Module, DkFault>
        ensures ends { EndsWith self result }
        ensures reads { IfOk result (λ m. ReadsAs self (declarations_of m)) }
        ensures accepts { Accepts self result }
        ensures free { NeverTooLong self result }
        ensures again { EndsStopped self result }
    {
        self.read_end()
    }

    /// Ends the reading.
    fn read_end(self) -> Result<Module, DkFault>
        ensures ends { EndsWith self result }
        ensures again { EndsStopped self result }
    {
        let Reader {
            alloc: _,
            limit: _,
            stage,
        } = self;
        match stage {
            Stage::Opening(count) => Err(DkFault::Refused {
                place: count as u64,
                kind: DkKind::NoPrelude,
            }),
            Stage::Inside(text) => text.end(),
            Stage::Stopped(fault) => Err(fault),
        }
    }
}

// A fault of its own.
fn copy(alloc: Global, kind: &DkKind) -> Result<DkKind, Memory>
    ensures ok { IfOk result (λ k. k ≡ kind.now) }
    ensures err { OnErr result (HasName kind.now) }
{
    match kind {
        DkKind::NoPrelude => Ok(DkKind::NoPrelude),
        DkKind::BadText => Ok(DkKind::BadText),
        DkKind::DkTooDeep => Ok(DkKind::DkTooDeep),
        DkKind::DkTooLong => Ok(DkKind::DkTooLong),
        DkKind::UnknownName(name) => {
            let bytes = Vec::from_slice(alloc, name.as_bytes())?;
            Ok(DkKind::UnknownName(Ident::new(bytes)))
        }
        DkKind::NameTwice(name) => {
            let bytes = Vec::from_slice(alloc, name.as_bytes())?;
            Ok(DkKind::NameTwice(Ident::new(bytes)))
        }
    }
}
