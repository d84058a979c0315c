//! Terms that are read from words, each behind the terms that it is made of.
//!
//! | Word | Term |
//! |---|---|
//! | `p`, another letter | the variable of this letter, a truth value |
//! | `f` | the variable f, a function from truth values to truth values |
//! | `=` | the equation of two truth values |
//! | `~` | the equation of two terms of one type |
//! | `.` | the application of a term to another |
//! | `\p` | the abstraction of a term over the truth value p |
//! | `/z` | the abstraction of a term over the variable z of the term's type |
//! | `:z` | the variable z, of type a |
//! | `%a` | the variable a, of the type that the operator n makes |
//! | `?r` | the variable r, of the type of a term |
//! | `!c` | the constant c, of the type of a term |
//! | `<`, `>` | the constant abs, or rep, a function to the type of the second term, of the first |
//! | `U` | the input constant u of a predicate |
//! | `K` | the input constant k, a relation, of two terms |
//! | `*16` | a truth value equated with itself, and that again, so many times |
//! | `^16` | f so many times over a truth value |
//! | `#8`, `$8` | the equation of so many blocks of 1,024 variables, from the first block on, or from the one of number 8 |
//! | `&0` | the first of the terms that were kept, or another by its number |
use crate::bench::{Bench, UNKNOWN};
use common::Fault;
use hol_term::TermId;

// The number in a word that begins with this letter.
fn number_after(word: &str, letter: char) -> Option<u32> {
    match word.strip_prefix(letter) {
        Some(digits) => digits.parse::<u32>().ok(),
        None => None,
    }
}

impl Bench {
    /// The term of these words.
    pub(crate) fn term(&mut self, words: &str) -> Result<TermId, Fault> {
        self.clear();
        for word in words.split_inclusive(' ') {
            let term = self.made(word.trim())?;
            self.push(term)?;
        }
        self.pop()
    }

    /// Asks for the hypotheses of these words, in their order.
    pub(crate) fn ask(&mut self, hyps: &[&str]) -> Result<(), Fault> {
        self.clear_hyps();
        for hyp in hyps {
            let hyp = self.term(*hyp)?;
            self.push_hyp(hyp)?;
        }
        Ok(())
    }

    // The term that a word makes.
    fn made(&mut self, word: &str) -> Result<TermId, Fault> {
        match word.as_bytes() {
            [b'f'] => self.f(),
            [b'='] | [b'~'] | [b'.'] | [b'<'] | [b'>'] | [b'K'] => self.of_two(word),
            [b'U'] => self.of_u(),
            [letter] => self.truth(*letter),
            [code, letter] => self.with_letter(word, *code, *letter),
            _ => self.with_number(word),
        }
    }

    // u of the last term.
    fn of_u(&mut self) -> Result<TermId, Fault> {
        let predicate = self.pop()?;
        self.u_of(predicate)
    }

    // The term that a word makes of the last two.
    fn of_two(&mut self, word: &str) -> Result<TermId, Fault> {
        let second = self.pop()?;
        let first = self.pop()?;
        match word.as_bytes() {
            [b'='] => self.equation(first, second),
            [b'~'] => self.equal(first, second),
            [b'.'] => self.app(first, second),
            [b'<'] => self.mapped(b"abs", first, second),
            [b'>'] => self.mapped(b"rep", first, second),
            [b'K'] => self.k_of(first, second),
            _ => Err(UNKNOWN),
        }
    }

    // The term that a word of two letters makes.
    fn with_letter(&mut self, word: &str, code: u8, letter: u8) -> Result<TermId, Fault> {
        match code {
            b':' => self.of_type_a(letter),
            b'%' => self.of_operator(letter, b"n"),
            b'\\' | b'/' | b'?' | b'!' => self.of_one(code, letter),
            _ => self.with_number(word),
        }
    }

    // The term that it makes of the last one.
    fn of_one(&mut self, code: u8, letter: u8) -> Result<TermId, Fault> {
        let term = self.pop()?;
        if code == b'\\' {
            self.abs(letter, term)
        } else {
            self.alike(code, letter, term)
        }
    }

    // The term that a word with a number makes.
    fn with_number(&mut self, word: &str) -> Result<TermId, Fault> {
        if let Some(index) = number_after(word, '&') {
            return self.kept(index);
        }
        if let Some(count) = number_after(word, '#') {
            return self.blocks(0, count);
        }
        if let Some(count) = number_after(word, '$') {
            return self.blocks(8, count);
        }
        let term = self.pop()?;
        if let Some(count) = number_after(word, '*') {
            return self.doubled(count, term);
        }
        match number_after(word, '^') {
            Some(count) => self.iterated(count, term),
            None => Err(UNKNOWN),
        }
    }
}
