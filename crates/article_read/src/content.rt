//! What one line says.

ghost use Rattle.std.specs.Prelude.{◌≡◌, Err, IfOk, None, Some, map, reverse};
ghost use Rattle.article_spec.specs.Words.{word_of};
ghost use Rattle.article_spec.specs.Contents.{is_blank, drop_blanks, as_name, command, item_content, content};
ghost use Rattle.article_spec.specs.declared.commands.Item.TheVariants as item;
ghost use Rattle.hol_name.specs.declared.name.NameFault.TheVariants as fault;
ghost use Rattle.article_read.specs.Judged.{Judges, looked_up};

use crate::number::{Numeral, read_number};
use article_spec::{Item, Word};
use common::Kind;
use hol_name::{Name, NameFault};
use std::alloc::Global;

/// What a line says, where there is memory to say it.
#[derive(Drop)]
pub enum Judgement {
    Skipped,
    Command(Item),
    Faulty(Kind),
    Memory,
}

/// What a line says.
pub fn read_content(alloc: Global, line: &[u8]) -> Judgement
    ensures { Judges result (content line.now) }
{
    match without_back(without_front(line)) {
        [] | [b'#', ..] => Judgement::Skipped,
        text => read_item(alloc, text),
    }
}

/// What a text without blanks at its ends says that is neither empty nor a comment.
fn read_item(alloc: Global, text: &[u8]) -> Judgement
    ensures { Judges result (item_content text.now) }
{
    match read_number(text) {
        Numeral::Number(number) => return Judgement::Command(Item::Number(number)),
        Numeral::OutOfRange => return Judgement::Faulty(Kind::NumberRange),
        Numeral::Other => {}
    }
    match read_name(alloc, text) {
        Ok(name) => return Judgement::Command(Item::Name(name)),
        Err(NameFault::Memory) => return Judgement::Memory,
        Err(NameFault::BadLine) => {}
    }
    match read_word(text) {
        Some(word) => Judgement::Command(Item::Word(word)),
        None => Judgement::Faulty(Kind::BadLine),
    }
}

/// The name that a text writes. Only a text that begins with a quote is gone through.
fn read_name(alloc: Global, text: &[u8]) -> Result<Name, NameFault>
    ensures name { IfOk result (λ name. as_name text.now ≡ Some (command (item.Name name))) }
    ensures bad_line { result ≡ Err fault.BadLine → as_name text.now ≡ None }
{
    match text {
        [b'"', ..] => Name::parse(alloc, text),
        _ => Err(NameFault::BadLine),
    }
}

/// The words of the stack machine, as they are written: those before others that articles have more often.
const WORDS: [(&[u8], Word); 34] = [
    (b"ref", Word::Ref),
    (b"cons", Word::Cons),
    (b"nil", Word::Nil),
    (b"def", Word::Def),
    (b"remove", Word::Remove),
    (b"subst", Word::Subst),
    (b"appTerm", Word::AppTerm),
    (b"eqMp", Word::EqMp),
    (b"refl", Word::Refl),
    (b"proveHyp", Word::ProveHyp),
    (b"appThm", Word::AppThm),
    (b"trans", Word::Trans),
    (b"assume", Word::Assume),
    (b"betaConv", Word::BetaConv),
    (b"absTerm", Word::AbsTerm),
    (b"absThm", Word::AbsThm),
    (b"deductAntisym", Word::DeductAntisym),
    (b"sym", Word::Sym),
    (b"var", Word::Var),
    (b"varTerm", Word::VarTerm),
    (b"opType", Word::OpType),
    (b"constTerm", Word::ConstTerm),
    (b"pop", Word::Pop),
    (b"defineConst", Word::DefineConst),
    (b"varType", Word::VarType),
    (b"typeOp", Word::TypeOp),
    (b"const", Word::Const),
    (b"axiom", Word::Axiom),
    (b"thm", Word::Thm),
    (b"defineTypeOp", Word::DefineTypeOp),
    (b"defineConstList", Word::DefineConstList),
    (b"hdTl", Word::HdTl),
    (b"pragma", Word::Pragma),
    (b"version", Word::Version),
];

/// The word that a text writes.
fn read_word(text: &[u8]) -> Option<Word>
    ensures { result ≡ word_of text.now }
{
    look_up(&WORDS, text)
}

/// The word that stands with this text in a table.
fn look_up(mut table: &[(&[u8], Word)], text: &[u8]) -> Option<Word>
    ensures { result ≡ looked_up text.now (map (λ entry. (entry.0.now, entry.1)) table.entry.now) }
{
    while let [(written, word), rest @ ..] = table {
        if text == *written {
            return Some(*word);
        }
        table = rest;
    }
    None
}

fn is_blank_byte(byte: u8) -> bool
    ensures { result ≡ is_blank byte }
{
    byte == b' ' || byte == b'\t' || byte == b'\r'
}

/// The line without the blanks at its front.
fn without_front(mut line: &[u8]) -> &[u8]
    ensures { result.now ≡ drop_blanks line.entry.now }
{
    while let [first, rest @ ..] = line {
        if !is_blank_byte(*first) {
            return line;
        }
        line = rest;
    }
    line
}

/// The line without the blanks at its end.
fn without_back(mut line: &[u8]) -> &[u8]
    ensures { result.now ≡ reverse (drop_blanks (reverse line.entry.now)) }
{
    while let [rest @ .., last] = line {
        if !is_blank_byte(*last) {
            return line;
        }
        line = rest;
    }
    line
}
