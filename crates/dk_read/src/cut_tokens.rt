//! Why a token can't follow, also one of which only the first bytes are known.
ghost use Rattle.lp_spec.specs.ReadingFaults as reading;
ghost use Rattle.dk_read.specs.States.{advance_in, state_of, IsReading, IsTokenKnown, Breaks, MayBreak, before};

use crate::faults::Stop;
use crate::parser::Parser;
use crate::terms::{State, Token};

impl Parser {
    /// No token comes at this place.
    pub(crate) fn stuck(&mut self, place: u64) -> Stop
        requires reading { IsReading self.old }
        ensures { Breaks (reading.broken (reading.Goes (before self.old) (state_of self.old)) place) self.new.names result }
    {
        match self.state {
            State::AfterFirst(first, name) => match self.meaning(first, name) {
                Ok(_) => Stop::BadText(place),
                Err(stop) => stop,
            },
            _ => Stop::BadText(place),
        }
    }

    /// Why a word can't follow at this place, whichever word it is.
    pub(crate) fn any_word(&mut self, place: u64) -> Option<Stop>
        requires reading { IsReading self.old }
        ensures { MayBreak (reading.any_word (before self.old) (state_of self.old) place) self.new.names result }
    {
        match self.state {
            State::AfterName(_, _) => Some(Stop::BadText(place)),
            State::AfterFirst(first, name) => match self.meaning(first, name) {
                Ok(_) => None,
                Err(stop) => Some(stop),
            },
            _ => None,
        }
    }

    /// Why neither a `:` nor a `:=` can follow at this place.
    pub(crate) fn any_colon(&mut self, place: u64) -> Option<Stop>
        requires reading { IsReading self.old }
        ensures { MayBreak (reading.any_colon (before self.old) (state_of self.old) place) self.new.names result }
    {
        match self.state {
            State::AfterName(_, _) | State::AfterFirst(_, _) => None,
            _ => self.bad_text(place, Token::Assign),
        }
    }

    // Why a token can't follow at this place, unless it is that a tree before it is too deep or a name is wrong.
    fn bad_text(&mut self, place: u64, token: Token) -> Option<Stop>
        requires reading { IsReading self.old }
        requires token { IsTokenKnown self.old.names token }
        ensures { MayBreak (reading.bad_text_of (advance_in self.old place token)) self.new.names result }
    {
        match self.stop_of(place, token) {
            Some(Stop::BadText(found)) => Some(Stop::BadText(found)),
            Some(Stop::Memory) => Some(Stop::Memory),
            _ => None,
        }
    }

    /// Why a token can't follow at this place.
    pub(crate) fn stop_of(&mut self, place: u64, token: Token) -> Option<Stop>
        requires reading { IsReading self.old }
        requires token { IsTokenKnown self.old.names token }
        ensures { MayBreak (reading.stop_of (advance_in self.old place token)) self.new.names result }
    {
        match self.advance(place, token) {
            Ok(()) => None,
            Err(stop) => Some(stop),
        }
    }
}
