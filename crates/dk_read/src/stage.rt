//! How far the reading of a text is.
ghost use Rattle.std.specs.Prelude.{◌≡◌, ◌<◌, ◌≤◌, ◌+◌, ◌^◌, [], None, Some, length, drop, OnOk, IfErr};
ghost use Rattle.lp_spec.specs.Text.{prelude};
ghost use Rattle.lp_spec.specs.Tokens as tokens;
ghost use Rattle.lp_term.specs.Tables.{Keeps};
ghost use Rattle.lp_spec.specs.ReadingFaults as reading;
ghost use Rattle.dk_read.specs.declared.faults.DkFault.TheVariants as fault;
ghost use Rattle.lp_spec.specs.declared.fault_kind.DkKind.TheVariants as kind;
ghost use Rattle.dk_read.specs.declared.stage.Stage.TheVariants as stage;
ghost use Rattle.dk_read.specs.States.{IsReading};
ghost use Rattle.dk_read.specs.Texts.{common, inside};
ghost use Rattle.dk_read.specs.Readers.{progress_of, place_of, fault_in, IsStage, Comes, IsCut, StopsAs};

use crate::faults::DkFault;
use crate::text::Text;
use holide_sig::PRELUDE;
use lp_spec::DkKind;
use std::alloc::Global;

/// How far a reading is: behind so many bytes of the signature's text, inside the text after it, or at a fault.
#[derive(Drop)]
pub(crate) enum Stage {
    Opening(usize),
    Inside(Text),
    Stopped(DkFault),
}

impl Stage {
    /// How many bytes have been read, unless a fault has come.
    pub(crate) fn place(&self) -> u64
        ensures { result ≡ place_of (progress_of self.now) }
    {
        match self {
            Stage::Opening(count) => *count as u64,
            Stage::Inside(text) => text.place,
            Stage::Stopped(_) => 0,
        }
    }

    /// Takes the next piece.
    pub(crate) fn read(&mut self, alloc: Global, piece: &[u8])
        requires stage { IsStage self.old }
        requires few { place_of (progress_of self.old) + length piece.now < 2 ^ 64 }
        ensures comes { Comes (reading.read_bytes (progress_of self.old) piece.now) self.new }
        ensures stage { IsStage self.new }
    {
        match self {
            Stage::Opening(count) => {
                let next = open(alloc, *count, piece);
                self.put(next);
            }
            Stage::Inside(text) => {
                if let Err(fault) = go_on(text, piece) {
                    self.put(Stage::Stopped(fault));
                }
            }
            Stage::Stopped(_) => {}
        }
    }

    /// Stops where the text goes on past the limit, unless a fault has stopped the reading.
    pub(crate) fn cut(&mut self, most: u64)
        requires stage { IsStage self.old }
        ensures stops { fault_in self.old ≡ None → StopsAs (reading.cut_at most (progress_of self.old)) (fault_in self.new) }
        ensures stays { (f : DkFault) → fault_in self.old ≡ Some f → self.new ≡ self.old }
        ensures stage { IsStage self.new }
    {
        match self {
            Stage::Opening(_) => self.put(Stage::Stopped(too_long(most))),
            Stage::Inside(text) => {
                let fault = cut_fault(text, most);
                self.put(Stage::Stopped(fault));
            }
            Stage::Stopped(_) => {}
        }
    }

    /// Puts another stage in the place of this one, which is let go.
    pub(crate) fn put(&mut self, next: Stage)
        ensures { self.new ≡ next }
    {
        drop(std::mem::replace(self, next));
    }
}

// The next piece of the signature's text, and what comes after it.
fn open(alloc: Global, count: usize, piece: &[u8]) -> Stage
    requires within { count < length prelude }
    requires few { count + length piece.now < 2 ^ 64 }
    ensures comes { Comes (reading.read_bytes (reading.Opening count (drop count prelude)) piece.now) result }
    ensures stage { IsStage result }
{
    let (_read, wanted) = PRELUDE.split_at(count);
    let same = common(piece, wanted);
    if same < wanted.len() {
        if same < piece.len() {
            return Stage::Stopped(DkFault::Refused {
                place: (count + same) as u64,
                kind: DkKind::NoPrelude,
            });
        }
        return Stage::Opening(count + same);
    }
    let (_front, back) = piece.split_at(same);
    begin(alloc, back)
}

// What of a piece comes after the signature's text.
fn begin(alloc: Global, bytes: &[u8]) -> Stage
    requires few { length prelude + length bytes.now < 2 ^ 64 }
    ensures comes { Comes (reading.read_bytes (reading.Inside (length prelude) tokens.Nothing [] reading.Between) bytes.now) result }
    ensures stage { IsStage result }
{
    match Text::new(alloc) {
        Ok(text) => read_inside(text, bytes),
        Err(_) => Stage::Stopped(DkFault::Memory),
    }
}

// The next piece of the text after the signature's.
fn read_inside(text: Text, piece: &[u8]) -> Stage
    requires reading { IsReading text.parser }
    requires few { text.place + length piece.now < 2 ^ 64 }
    ensures comes { Comes (reading.read_bytes (inside text) piece.now) result }
    ensures stage { IsStage result }
{
    let mut inner = text;
    match go_on(&mut inner, piece) {
        Ok(()) => Stage::Inside(inner),
        Err(fault) => {
            drop(inner);
            Stage::Stopped(fault)
        }
    }
}

/// Takes the next piece of the text after the signature's, or tells the fault that it shows.
pub(crate) fn go_on(text: &mut Text, piece: &[u8]) -> Result<(), DkFault>
    requires reading { IsReading text.old.parser }
    requires few { text.old.place + length piece.now < 2 ^ 64 }
    ensures goes { OnOk result (reading.read_bytes (inside text.old) piece.now ≡ inside text.new) }
    ensures reading { OnOk result (IsReading text.new.parser) }
    ensures stops { IfErr result (λ f. Comes (reading.read_bytes (inside text.old) piece.now) (stage.Stopped f)) }
    ensures place { IfErr result (λ f. IsStage (stage.Stopped f)) }
    ensures keeps { OnOk result (Keeps text.old.parser.module.table text.new.parser.module.table) }
{
    match text.take_all(piece) {
        Ok(()) => Ok(()),
        Err(stop) => Err(text.parser.fault(stop)),
    }
}

// The fault of a text that goes on past the limit: the one that its bytes up to there show, or else that it is too long.
fn cut_fault(text: &mut Text, most: u64) -> DkFault
    requires reading { IsReading text.old.parser }
    ensures cut { IsCut (reading.cut_at most (inside text.old)) result }
    ensures place { IsStage (stage.Stopped result) }
{
    match text.cut_token() {
        Some(stop) => text.parser.fault(stop),
        None => too_long(most),
    }
}

// The fault of a text that is longer than the limit.
fn too_long(most: u64) -> DkFault
    ensures { result ≡ fault.Refused most kind.DkTooLong }
{
    DkFault::Refused {
        place: most,
        kind: DkKind::DkTooLong,
    }
}

// How many bytes two texts begin with alike.
fn common(one: &[u8], two: &[u8]) -> usize
    ensures is { result ≡ common one.now two.now }
    ensures one { result ≤ length one.now }
    ensures two { result ≤ length two.now }
{
    let mut count = 0;
    let (mut left, mut right) = (one, two);
    while let [a, more @ ..] = left {
        match right {
            [b, rest @ ..] if *a == *b => {
                left = more;
                right = rest;
            }
            _ => return count,
        }
        count += 1;
    }
    count
}
