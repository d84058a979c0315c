//! The reading of bytes. A word or a comment is taken whole, as far as the piece goes; each other byte ends at most two
//! tokens.
ghost use Rattle.std.specs.Prelude.{◌≡◌, ◌<◌, ◌≤◌, ◌+◌, ◌^◌, [], ◌∷◌, length, get_or, true, IfOk, OnOk};
ghost use Rattle.lp_spec.specs.Text.{prelude};
ghost use Rattle.lp_spec.specs.Tokens as tokens;
ghost use Rattle.lp_term.specs.Tables.{Keeps};
ghost use Rattle.dk_read.specs.declared.text.Pending.TheVariants as pending;
ghost use Rattle.lp_spec.specs.ReadingFaults as reading;
ghost use Rattle.dk_read.specs.Firsts.{IsFirst};
ghost use Rattle.dk_read.specs.Sharing.{with_table};
ghost use Rattle.dk_read.specs.States.{token_in, IsReading, IsTokenKnown};
ghost use Rattle.dk_read.specs.Texts.{a_byte_on, after_byte_in, after_token_and_byte, run, Takes, TakesSome, Passed, inside, pending_in, Signs, held_of};

use crate::faults::Stop;
use crate::heads::{blank_len, comment_len, is_letter, is_space, is_word_byte, sign_of, word_len};
use crate::parser::Parser;
use crate::terms::Token;
use common::Memory;
use holide_sig::PRELUDE;
use lp_term::LpTable;
use std::alloc::Global;

/// What the next byte may go on with, with the place at which it began.
#[derive(Clone, Copy)]
pub(crate) enum Pending {
    Nothing,
    InWord(u64),
    AfterColon(u64),
    AfterMinus(u64),
    AfterEquals(u64),
    AfterParen(u64),
    InComment(u64),
    AfterSemicolon(u64),
}

/// A reading between two bytes, with the bytes of the word that is open.
#[derive(Drop)]
pub(crate) struct Text {
    pub(crate) parser: Parser,
    pub(crate) pending: Pending,
    pub(crate) word: Vec<u8>,
    pub(crate) place: u64,
}

impl Text {
    // What the next byte may go on with.
    fn wait(&mut self, pending: Pending) -> Result<(), Stop>
        requires reading { IsReading self.old.parser }
        requires few { self.old.place + 1 < 2 ^ 64 }
        ensures takes { Takes (a_byte_on self.old (pending_in self.old.word.items pending)) self.new result }
        ensures reading { OnOk result (IsReading self.new.parser) }
        ensures keeps { OnOk result (Keeps self.old.parser.module.table self.new.parser.module.table) }
        ensures place { OnOk result (self.new.place ≡ self.old.place + 1) }
    {
        self.pending = pending;
        self.place += 1;
        Ok(())
    }

    // A token that the byte ends, with nothing behind it.
    fn end_token(&mut self, first: u64, token: Token) -> Result<(), Stop>
        requires reading { IsReading self.old.parser }
        requires token { IsTokenKnown self.old.parser.names token }
        requires few { self.old.place + 1 < 2 ^ 64 }
        ensures takes { Takes (after_byte_in self.old (tokens.goes (tokens.at first (token_in self.old.parser.names token) ∷ []) tokens.Nothing)) self.new result }
        ensures reading { OnOk result (IsReading self.new.parser) }
        ensures keeps { OnOk result (Keeps self.old.parser.module.table self.new.parser.module.table) }
        ensures place { OnOk result (self.new.place ≡ self.old.place + 1) }
    {
        self.parser.advance(first, token)?;
        self.wait(Pending::Nothing)
    }

    // A byte where nothing is pending.
    fn begin(&mut self, byte: u8) -> Result<(), Stop>
        requires reading { IsReading self.old.parser }
        requires few { self.old.place + 1 < 2 ^ 64 }
        ensures takes { Takes (after_byte_in self.old (tokens.begins self.old.place byte)) self.new result }
        ensures reading { OnOk result (IsReading self.new.parser) }
        ensures keeps { OnOk result (Keeps self.old.parser.module.table self.new.parser.module.table) }
        ensures place { OnOk result (self.new.place ≡ self.old.place + 1) }
    {
        let place = self.place;
        match byte {
            b'a'..=b'z' | b'A'..=b'Z' => self.begin_word(byte),
            b' ' | b'\n' | b'\t' | b'\r' => self.wait(Pending::Nothing),
            b'(' => self.wait(Pending::AfterParen(place)),
            b')' => self.end_token(place, Token::RightParen),
            b':' => self.wait(Pending::AfterColon(place)),
            b'-' => self.wait(Pending::AfterMinus(place)),
            b'=' => self.wait(Pending::AfterEquals(place)),
            b'.' => self.end_token(place, Token::Dot),
            _ => Err(self.parser.stuck(place)),
        }
    }

    // The first byte of a word.
    fn begin_word(&mut self, byte: u8) -> Result<(), Stop>
        requires reading { IsReading self.old.parser }
        requires few { self.old.place + 1 < 2 ^ 64 }
        ensures takes { Takes (a_byte_on self.old (tokens.InWord self.old.place (byte ∷ []))) self.new result }
        ensures reading { OnOk result (IsReading self.new.parser) }
        ensures keeps { OnOk result (Keeps self.old.parser.module.table self.new.parser.module.table) }
        ensures place { OnOk result (self.new.place ≡ self.old.place + 1) }
    {
        let place = self.place;
        self.word.clear();
        if self.word.push(byte).is_err() {
            return Err(Stop::Memory);
        }
        self.wait(Pending::InWord(place))
    }

    // A token that the byte ends, and the byte behind it.
    fn end_and_begin(&mut self, first: u64, token: Token, byte: u8) -> Result<(), Stop>
        requires reading { IsReading self.old.parser }
        requires token { IsTokenKnown self.old.parser.names token }
        requires few { self.old.place + 1 < 2 ^ 64 }
        ensures takes { Takes (after_token_and_byte self.old (tokens.at first (token_in self.old.parser.names token)) byte) self.new result }
        ensures reading { OnOk result (IsReading self.new.parser) }
        ensures keeps { OnOk result (Keeps self.old.parser.module.table self.new.parser.module.table) }
        ensures place { OnOk result (self.new.place ≡ self.old.place + 1) }
    {
        match self.parser.advance(first, token) {
            Ok(()) => self.begin(byte),
            Err(stop) => Err(stop),
        }
    }

    // The word that the byte ends, and the byte behind it.
    fn end_word(&mut self, first: u64, byte: u8) -> Result<(), Stop>
        requires reading { IsReading self.old.parser }
        requires few { self.old.place + 1 < 2 ^ 64 }
        ensures takes { Takes (after_token_and_byte self.old (tokens.at first (tokens.word_token self.old.word.items)) byte) self.new result }
        ensures reading { OnOk result (IsReading self.new.parser) }
        ensures keeps { OnOk result (Keeps self.old.parser.module.table self.new.parser.module.table) }
        ensures place { OnOk result (self.new.place ≡ self.old.place + 1) }
    {
        match self.parser.word(first, &self.word) {
            Ok(()) => self.begin(byte),
            Err(stop) => Err(stop),
        }
    }

    // The next byte.
    fn take(&mut self, byte: u8) -> Result<(), Stop>
        requires reading { IsReading self.old.parser }
        requires few { self.old.place + 1 < 2 ^ 64 }
        ensures takes { Takes (reading.read_byte (inside self.old) byte) self.new result }
        ensures reading { OnOk result (IsReading self.new.parser) }
        ensures keeps { OnOk result (Keeps self.old.parser.module.table self.new.parser.module.table) }
        ensures place { OnOk result (self.new.place ≡ self.old.place + 1) }
    {
        match self.pending {
            Pending::Nothing => self.begin(byte),
            Pending::InWord(first) => self.in_word(first, byte),
            Pending::AfterColon(first) => {
                if byte == 61 {
                    self.end_token(first, Token::Assign)
                } else {
                    self.end_and_begin(first, Token::Colon, byte)
                }
            }
            Pending::AfterMinus(first) => {
                if byte == 62 {
                    self.end_token(first, Token::Arrow)
                } else {
                    Err(self.parser.stuck(first))
                }
            }
            Pending::AfterEquals(first) => {
                if byte == 62 {
                    self.end_token(first, Token::FatArrow)
                } else {
                    Err(self.parser.stuck(first))
                }
            }
            Pending::AfterParen(first) => {
                if byte == 59 {
                    self.wait(Pending::InComment(first))
                } else {
                    self.end_and_begin(first, Token::LeftParen, byte)
                }
            }
            Pending::InComment(first) => {
                if byte == 59 {
                    self.wait(Pending::AfterSemicolon(first))
                } else {
                    self.wait(Pending::InComment(first))
                }
            }
            Pending::AfterSemicolon(first) => {
                if byte == 41 {
                    self.wait(Pending::Nothing)
                } else if byte == 59 {
                    self.wait(Pending::AfterSemicolon(first))
                } else {
                    self.wait(Pending::InComment(first))
                }
            }
        }
    }

    // A byte in or behind a word.
    fn in_word(&mut self, first: u64, byte: u8) -> Result<(), Stop>
        requires reading { IsReading self.old.parser }
        requires few { self.old.place + 1 < 2 ^ 64 }
        ensures takes { Takes (after_byte_in self.old (tokens.take_byte (tokens.InWord first self.old.word.items) self.old.place byte)) self.new result }
        ensures reading { OnOk result (IsReading self.new.parser) }
        ensures keeps { OnOk result (Keeps self.old.parser.module.table self.new.parser.module.table) }
        ensures place { OnOk result (self.new.place ≡ self.old.place + 1) }
    {
        if is_word_byte(byte) {
            if self.word.push(byte).is_err() {
                return Err(Stop::Memory);
            }
            self.wait(Pending::InWord(first))
        } else {
            self.end_word(first, byte)
        }
    }

    // The first byte of a piece.
    fn take_first(&mut self, piece: &[u8]) -> Result<usize, Stop>
        requires reading { IsReading self.old.parser }
        requires some { 1 ≤ length piece.now }
        requires few { self.old.place + length piece.now < 2 ^ 64 }
        ensures takes { TakesSome self.old piece.now self.new result }
    {
        match self.take(piece[0]) {
            Ok(()) => Ok(1),
            Err(stop) => Err(stop),
        }
    }

    // The bytes of a piece with which what is pending goes on, or the first one.
    fn take_some(&mut self, piece: &[u8]) -> Result<usize, Stop>
        requires reading { IsReading self.old.parser }
        requires some { 1 ≤ length piece.now }
        requires few { self.old.place + length piece.now < 2 ^ 64 }
        ensures takes { TakesSome self.old piece.now self.new result }
    {
        match self.pending {
            Pending::Nothing => self.take_next(piece),
            Pending::InWord(first) => self.go_on(first, piece),
            Pending::InComment(first) => self.take_comment(first, piece),
            _ => self.take_first(piece),
        }
    }

    // What stands at the head of a piece, where nothing is pending, and the blanks behind it.
    fn take_next(&mut self, piece: &[u8]) -> Result<usize, Stop>
        requires reading { IsReading self.old.parser }
        requires some { 1 ≤ length piece.now }
        requires few { self.old.place + length piece.now < 2 ^ 64 }
        requires pending { self.old.pending ≡ pending.Nothing }
        ensures takes { TakesSome self.old piece.now self.new result }
    {
        let count = self.take_one(piece)?;
        let blanks = self.pass_blanks(&piece[count..]);
        Ok(count + blanks)
    }

    // The word, the blanks or the sign at the head of a piece, where nothing is pending.
    fn take_one(&mut self, piece: &[u8]) -> Result<usize, Stop>
        requires reading { IsReading self.old.parser }
        requires some { 1 ≤ length piece.now }
        requires few { self.old.place + length piece.now < 2 ^ 64 }
        requires pending { self.old.pending ≡ pending.Nothing }
        ensures takes { TakesSome self.old piece.now self.new result }
    {
        let byte = piece[0];
        if is_letter(byte) {
            self.take_word(piece)
        } else if is_space(byte) {
            self.take_blanks(piece)
        } else {
            self.take_sign(piece)
        }
    }

    // The blanks at the head of a piece, if nothing is pending.
    fn pass_blanks(&mut self, piece: &[u8]) -> usize
        requires reading { IsReading self.old.parser }
        requires few { self.old.place + length piece.now < 2 ^ 64 }
        ensures { Passed self.old piece.now self.new result }
    {
        match self.pending {
            Pending::Nothing => {
                let count = blank_len(piece);
                self.place += count as u64;
                count
            }
            _ => 0,
        }
    }

    // A word at the head of a piece. Where the piece ends it may go on.
    fn take_word(&mut self, piece: &[u8]) -> Result<usize, Stop>
        requires reading { IsReading self.old.parser }
        requires some { 1 ≤ length piece.now }
        requires few { self.old.place + length piece.now < 2 ^ 64 }
        requires pending { self.old.pending ≡ pending.Nothing }
        requires letter { tokens.is_letter (get_or piece.now 0 0) ≡ true }
        ensures takes { TakesSome self.old piece.now self.new result }
    {
        let count = word_len(piece);
        if count < piece.len() {
            self.take_whole(piece, count)
        } else {
            self.keep(piece)
        }
    }

    // A word that ends inside the piece, by its length.
    fn take_whole(&mut self, piece: &[u8], count: usize) -> Result<usize, Stop>
        requires reading { IsReading self.old.parser }
        requires some { 1 ≤ length piece.now }
        requires few { self.old.place + length piece.now < 2 ^ 64 }
        requires pending { self.old.pending ≡ pending.Nothing }
        requires letter { tokens.is_letter (get_or piece.now 0 0) ≡ true }
        requires count { count ≡ run tokens.is_word_byte piece.now }
        requires ends { count < length piece.now }
        ensures takes { TakesSome self.old piece.now self.new result }
    {
        match self.parser.word(self.place, &piece[..count]) {
            Ok(()) => {
                self.place += count as u64;
                Ok(count)
            }
            Err(stop) => Err(stop),
        }
    }

    // A piece that is all of one word, which may go on.
    fn keep(&mut self, piece: &[u8]) -> Result<usize, Stop>
        requires reading { IsReading self.old.parser }
        requires some { 1 ≤ length piece.now }
        requires few { self.old.place + length piece.now < 2 ^ 64 }
        requires pending { self.old.pending ≡ pending.Nothing }
        requires letter { tokens.is_letter (get_or piece.now 0 0) ≡ true }
        requires all { run tokens.is_word_byte piece.now ≡ length piece.now }
        ensures takes { TakesSome self.old piece.now self.new result }
    {
        self.word.clear();
        match self.word.extend_from_slice(piece) {
            Ok(()) => {
                self.pending = Pending::InWord(self.place);
                self.place += piece.len() as u64;
                Ok(piece.len())
            }
            Err(_) => Err(Stop::Memory),
        }
    }

    // The sign at the head of a piece, where nothing is pending. Where the piece ends it may go on.
    fn take_sign(&mut self, piece: &[u8]) -> Result<usize, Stop>
        requires reading { IsReading self.old.parser }
        requires some { 1 ≤ length piece.now }
        requires few { self.old.place + length piece.now < 2 ^ 64 }
        requires pending { self.old.pending ≡ pending.Nothing }
        ensures takes { TakesSome self.old piece.now self.new result }
    {
        match sign_of(piece) {
            Some((token, count)) => self.take_token(piece, token, count),
            None => self.begin_first(piece),
        }
    }

    // The sign of so many bytes at the head of a piece, which is this token.
    fn take_token(&mut self, piece: &[u8], token: Token, count: usize) -> Result<usize, Stop>
        requires reading { IsReading self.old.parser }
        requires few { self.old.place + length piece.now < 2 ^ 64 }
        requires pending { self.old.pending ≡ pending.Nothing }
        requires signs { Signs piece.now count token }
        ensures takes { TakesSome self.old piece.now self.new result }
    {
        let _whole = piece.len();
        match self.parser.advance(self.place, token) {
            Ok(()) => {
                self.place += count as u64;
                Ok(count)
            }
            Err(stop) => Err(stop),
        }
    }

    // The first byte of a piece, where nothing is pending.
    fn begin_first(&mut self, piece: &[u8]) -> Result<usize, Stop>
        requires reading { IsReading self.old.parser }
        requires some { 1 ≤ length piece.now }
        requires few { self.old.place + length piece.now < 2 ^ 64 }
        requires pending { self.old.pending ≡ pending.Nothing }
        ensures takes { TakesSome self.old piece.now self.new result }
    {
        match self.begin(piece[0]) {
            Ok(()) => Ok(1),
            Err(stop) => Err(stop),
        }
    }

    // Blanks at the head of a piece.
    fn take_blanks(&mut self, piece: &[u8]) -> Result<usize, Stop>
        requires reading { IsReading self.old.parser }
        requires some { 1 ≤ length piece.now }
        requires few { self.old.place + length piece.now < 2 ^ 64 }
        requires pending { self.old.pending ≡ pending.Nothing }
        requires blank { tokens.is_space (get_or piece.now 0 0) ≡ true }
        ensures takes { TakesSome self.old piece.now self.new result }
    {
        let count = blank_len(piece);
        self.place += count as u64;
        Ok(count)
    }

    // The bytes with which a word goes on, or the byte behind it.
    fn go_on(&mut self, first: u64, piece: &[u8]) -> Result<usize, Stop>
        requires reading { IsReading self.old.parser }
        requires some { 1 ≤ length piece.now }
        requires few { self.old.place + length piece.now < 2 ^ 64 }
        requires pending { self.old.pending ≡ pending.InWord first }
        ensures takes { TakesSome self.old piece.now self.new result }
    {
        let count = word_len(piece);
        if count == 0 {
            return self.take_first(piece);
        }
        match self.word.extend_from_slice(&piece[..count]) {
            Ok(()) => {
                self.place += count as u64;
                Ok(count)
            }
            Err(_) => Err(Stop::Memory),
        }
    }

    // The bytes of a comment up to the next `;`, or that one.
    fn take_comment(&mut self, first: u64, piece: &[u8]) -> Result<usize, Stop>
        requires reading { IsReading self.old.parser }
        requires some { 1 ≤ length piece.now }
        requires few { self.old.place + length piece.now < 2 ^ 64 }
        requires pending { self.old.pending ≡ pending.InComment first }
        ensures takes { TakesSome self.old piece.now self.new result }
    {
        let count = comment_len(piece);
        if count == 0 {
            return self.take_first(piece);
        }
        self.place += count as u64;
        Ok(count)
    }

    /// The next piece.
    pub(crate) fn take_all(&mut self, piece: &[u8]) -> Result<(), Stop>
        requires reading { IsReading self.old.parser }
        requires few { self.old.place + length piece.now < 2 ^ 64 }
        ensures takes { Takes (reading.read_bytes (inside self.old) piece.now) self.new result }
        ensures reading { OnOk result (IsReading self.new.parser) }
        ensures keeps { OnOk result (Keeps self.old.parser.module.table self.new.parser.module.table) }
    {
        let mut rest = piece;
        while !rest.is_empty() {
            let count = self.take_some(rest)?;
            rest = &rest[count..];
        }
        Ok(())
    }

    /// A reading of the text after the signature's own.
    pub(crate) fn new(alloc: Global) -> Result<Text, Memory>
        ensures inside { IfOk result (λ t. inside t ≡ reading.Inside (length prelude) tokens.Nothing [] reading.Between) }
        ensures reading { IfOk result (λ t. IsReading t.parser) }
        ensures first { IfOk result (λ t. IsFirst t.parser) }
    {
        let parser = Parser::new(alloc)?;
        Ok(Text {
            parser,
            pending: Pending::Nothing,
            word: Vec::new(alloc),
            place: PRELUDE.len() as u64,
        })
    }

    /// Puts a table in the place of its own, and that one in its place.
    pub(crate) fn exchange(&mut self, table: &mut LpTable)
        ensures text { self.new ≡ with_table self.old table.old }
        ensures table { table.new ≡ self.old.parser.module.table }
    {
        std::mem::swap(&mut self.parser.module.table, table);
    }

    /// How many bytes the word has that is open.
    pub(crate) fn held(&self) -> usize
        ensures { result ≡ held_of (inside self.now) }
    {
        match self.pending {
            Pending::InWord(_) => self.word.len(),
            _ => 0,
        }
    }
}
