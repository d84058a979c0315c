//! The end of a text, and the token that is open where it is cut.
ghost use Rattle.std.specs.Prelude.{◌≡◌, ◌<◌, ◌^◌, Err, IfOk, OnOk, IfErr};
ghost use Rattle.lp_spec.specs.Tokens as tokens;
ghost use Rattle.lp_term.specs.Tables.{Keeps};
ghost use Rattle.lp_spec.specs.ReadingFaults as reading;
ghost use Rattle.dk_read.specs.States.{before, state_of, IsReading, MayBreak};
ghost use Rattle.dk_read.specs.Texts.{pending_of, answer_at_end, inside, EndsTokens, Closes, Ends};

use crate::faults::{DkFault, Stop};
use crate::terms::{State, Token};
use crate::text::{Pending, Text};
use holide_sig::Module;

impl Text {
    /// Why the token that is open can't follow, whatever it becomes.
    pub(crate) fn cut_token(&mut self) -> Option<Stop>
        requires reading { IsReading self.old.parser }
        ensures { MayBreak (reading.cut_token (before self.old.parser) (state_of self.old.parser) (pending_of self.old)) self.new.parser.names result }
    {
        match self.pending {
            Pending::InWord(first) => self.parser.any_word(first),
            Pending::AfterColon(first) => self.parser.any_colon(first),
            Pending::AfterMinus(first) => self.parser.stop_of(first, Token::Arrow),
            Pending::AfterEquals(first) => self.parser.stop_of(first, Token::FatArrow),
            _ => None,
        }
    }

    // The tokens that the end of the text ends.
    fn end_tokens(&mut self) -> Result<(), Stop>
        requires reading { IsReading self.old.parser }
        ensures ends { EndsTokens (answer_at_end self.old) self.new result }
        ensures reading { OnOk result (IsReading self.new.parser) }
        ensures keeps { OnOk result (Keeps self.old.parser.module.table self.new.parser.module.table) }
        ensures place { OnOk result (self.new.place ≡ self.old.place) }
    {
        match self.pending {
            Pending::Nothing => Ok(()),
            Pending::InWord(first) => self.parser.word(first, &self.word),
            Pending::AfterColon(first) => self.parser.advance(first, Token::Colon),
            Pending::AfterParen(first) => self.parser.advance(first, Token::LeftParen),
            Pending::AfterMinus(first)
            | Pending::AfterEquals(first)
            | Pending::InComment(first)
            | Pending::AfterSemicolon(first) => Err(self.parser.stuck(first)),
        }
    }

    /// The end of the text.
    pub(crate) fn end(self) -> Result<Module, DkFault>
        requires reading { IsReading self.parser }
        requires few { self.place < 2 ^ 64 }
        ensures ends { Ends (reading.read_end (inside self)) result }
        ensures keeps { IfOk result (λ m. Keeps self.parser.module.table m.table) }
    {
        let mut text = self;
        match text.close() {
            Ok(()) => Ok(text.into_module()),
            Err(fault) => {
                drop(text);
                Err(fault)
            }
        }
    }

    // Ends the text, or tells why it can't end here.
    fn close(&mut self) -> Result<(), DkFault>
        requires reading { IsReading self.old.parser }
        requires few { self.old.place < 2 ^ 64 }
        ensures reads { OnOk result (reading.read_end (inside self.old) ≡ reading.reads (before self.new.parser)) }
        ensures reading { OnOk result (IsReading self.new.parser) }
        ensures keeps { OnOk result (Keeps self.old.parser.module.table self.new.parser.module.table) }
        ensures refuses { IfErr result (λ f. Ends (reading.read_end (inside self.old)) (Err f)) }
    {
        match self.close_between() {
            Ok(()) => Ok(()),
            Err(stop) => Err(self.parser.fault(stop)),
        }
    }

    // Ends the text between two declarations.
    fn close_between(&mut self) -> Result<(), Stop>
        requires reading { IsReading self.old.parser }
        ensures closes { Closes (reading.read_end (inside self.old)) self.new result }
        ensures reading { OnOk result (IsReading self.new.parser) }
        ensures keeps { OnOk result (Keeps self.old.parser.module.table self.new.parser.module.table) }
    {
        match self.end_tokens() {
            Ok(()) => self.rest_between(),
            Err(stop) => Err(stop),
        }
    }

    // After the last token a reading is between two declarations.
    fn rest_between(&mut self) -> Result<(), Stop>
        requires reading { IsReading self.old.parser }
        ensures closes { Closes (reading.answers (reading.Goes (before self.old.parser) (state_of self.old.parser)) (tokens.ended self.old.place)) self.new result }
        ensures reading { OnOk result (IsReading self.new.parser) }
        ensures keeps { OnOk result (Keeps self.old.parser.module.table self.new.parser.module.table) }
    {
        match self.parser.state {
            State::Between => Ok(()),
            _ => Err(self.parser.stuck(self.place)),
        }
    }

    // The module that has been read.
    fn into_module(self) -> Module
        ensures { result ≡ self.parser.module }
    {
        self.parser.module
    }
}
