//! What the words ask for.
ghost use Rattle.std.specs.Prelude.{◌≡◌, IfOk, map, option_map, string_bytes, drop};
ghost use Rattle.std.specs.List.{list_all};
ghost use Rattle.bridge_spec.specs.Calls.{form_in, names_in};
ghost use Rattle.bridge_spec.specs.Forms.{budget_in};
ghost use Rattle.clap.specs.Words.{found_of, rows_of, subcommand_rows_of};
ghost use Rattle.bridge_words.specs.Asked.{asked};
ghost use Rattle.bridge_words.specs.Matches.{read, read_named, read_check, read_decode, read_trial, files_in, flag_in};
ghost use Rattle.bridge_words.specs.Refused.{refused};
ghost use Rattle.bridge_words.specs.Readable.{is_readable, are_readable};

use crate::command::command;
use crate::number::number_up_to;
use clap::ArgMatches;
use clap::error::ErrorKind;
use common::Memory;
use std::alloc::{AllocError, Global};

/// What the words ask for.
#[derive(Drop)]
pub enum Form<'a> {
    /// The module of the run of the articles in these files, checked before it is written. With shared abbreviations or without,
    /// and checked fast, that is without rechecks of sorts, or not.
    Verify(bool, bool, Vec<String>),
    /// The module of the run of the articles in these files, with shared abbreviations or without.
    Translate(bool, Vec<String>),
    /// A check of the module in the file, fast or not, with this budget for each declaration.
    Check(bool, &'a str, u64),
    /// What the articles in these files assume and export.
    Show(Vec<String>),
    /// What the exports of the module in the file say.
    Decode(&'a str),
    /// A trial with the generated article of so many blocks.
    Trial(u64),
    /// One article of what the articles in these files export.
    Article(Vec<String>),
}

/// The budget of a declaration where the words give none.
const DEFAULT_BUDGET: u64 = 100000000;

/// The greatest budget.
const GREATEST_BUDGET: u64 = 18446744073709551615;

/// The most blocks of a trial.
const GREATEST_TRIAL: u64 = 100000;

/// The form of the words, of which the first is the program's name.
pub fn form_of<'a>(alloc: Global, words: &'a [String]) -> Result<Option<Form<'a>>, Memory>
    ensures { IfOk result (λ form. option_map asked form ≡ form_in words.now) }
{
    if !are_readable(words) {
        return Ok(None);
    }
    match command(alloc)?.try_get_matches_from(words) {
        Ok(matches) => form_asked(alloc, &matches),
        Err(error) => no_form(error.kind()),
    }
}

/// What is answered where the words have no matches.
fn no_form<'a>(kind: ErrorKind) -> Result<Option<Form<'a>>, Memory>
    ensures { result ≡ refused kind }
{
    match kind {
        ErrorKind::OutOfMemory => Err(Memory),
        _ => Ok(None),
    }
}

/// Whether the words after the first can be handed to `clap`.
fn are_readable(words: &[String]) -> bool
    ensures { result ≡ are_readable (drop 1 (names_in words.now)) }
{
    match words {
        [] => true,
        [_, rest @ ..] => is_each_readable(rest),
    }
}

/// Whether each of some words can be handed to `clap`.
fn is_each_readable(words: &[String]) -> bool
    ensures { result ≡ list_all (λ word. is_readable (string_bytes word)) words.now }
{
    words.iter().all(|word| is_readable(word.as_str()))
}

/// Whether a word can be handed to `clap`: it isn't empty, and where it begins with a dash it begins with two and goes on.
fn is_readable(word: &str) -> bool
    ensures { result ≡ is_readable word.now }
{
    match word.as_bytes() {
        [] => false,
        [first] | [first, _] => *first != b'-',
        [first, second, ..] => *first != b'-' || *second == b'-',
    }
}

/// The form that a subcommand and its matches ask for.
fn form_asked<'a>(alloc: Global, matches: &ArgMatches<'a>) -> Result<Option<Form<'a>>, Memory>
    ensures { IfOk result (λ form. option_map asked form ≡ read (subcommand_rows_of matches.now)) }
{
    match matches.subcommand() {
        Some((name, found)) => form_named(alloc, name, found),
        None => Ok(None),
    }
}

/// The form that a subcommand of this name and its matches ask for.
fn form_named<'a>(
    alloc: Global,
    name: &str,
    found: &ArgMatches<'a>,
) -> Result<Option<Form<'a>>, Memory>
    ensures { IfOk result (λ form. option_map asked form ≡ read_named name.now (rows_of (found_of found.now))) }
{
    match name {
        "verify" => Ok(Some(Form::Verify(
            flag_in(found, "share"),
            flag_in(found, "fast"),
            files_in(alloc, found)?,
        ))),
        "translate" => Ok(Some(Form::Translate(flag_in(found, "share"), files_in(alloc, found)?))),
        "check" => Ok(check_in(found)),
        "show" => Ok(Some(Form::Show(files_in(alloc, found)?))),
        "decode" => Ok(decode_in(found)),
        "trial" => Ok(trial_in(found)),
        "article" => Ok(Some(Form::Article(files_in(alloc, found)?))),
        _ => Ok(None),
    }
}

/// The files that the words name.
fn files_in(alloc: Global, found: &ArgMatches<'_>) -> Result<Vec<String>, AllocError>
    ensures { IfOk result (λ files. names_in files.items ≡ files_in (rows_of (found_of found.now))) }
{
    match found.get_strs("file") {
        Some(words) => copied(alloc, words),
        None => Ok(Vec::new(alloc)),
    }
}

/// The words, as texts of their own.
fn copied(alloc: Global, words: &[&str]) -> Result<Vec<String>, AllocError>
    ensures { IfOk result (λ files. names_in files.items ≡ map (λ word. word.now) words.now) }
{
    let mut files = Vec::new(alloc);
    for word in words {
        files.push(String::from_str(alloc, word)?)?;
    }
    Ok(files)
}

/// The check that the words ask for.
fn check_in<'a>(found: &ArgMatches<'a>) -> Option<Form<'a>>
    ensures { option_map asked result ≡ read_check (rows_of (found_of found.now)) }
{
    match found.get_str("file") {
        Some(file) => match budget_in(found.get_str("budget")) {
            Some(budget) => Some(Form::Check(flag_in(found, "fast"), file, budget)),
            None => None,
        },
        None => None,
    }
}

/// Whether the flag of this name is among the words.
fn flag_in(found: &ArgMatches<'_>, name: &str) -> bool
    ensures { result ≡ flag_in name.now (rows_of (found_of found.now)) }
{
    match found.get_str(name) {
        Some(word) => word == "true",
        None => false,
    }
}

/// The file of which the exports are asked for.
fn decode_in<'a>(found: &ArgMatches<'a>) -> Option<Form<'a>>
    ensures { option_map asked result ≡ read_decode (rows_of (found_of found.now)) }
{
    match found.get_str("file") {
        Some(file) => Some(Form::Decode(file)),
        None => None,
    }
}

/// The budget that a word says, or where there is none the usual one.
fn budget_in(word: Option<&str>) -> Option<u64>
    ensures { result ≡ budget_in (option_map (λ word. word.now) word.entry) }
{
    match word {
        Some(word) => number_up_to(GREATEST_BUDGET, word.as_bytes()),
        None => Some(DEFAULT_BUDGET),
    }
}

/// The trial that the words ask for.
fn trial_in<'a>(found: &ArgMatches<'a>) -> Option<Form<'a>>
    ensures { option_map asked result ≡ read_trial (rows_of (found_of found.now)) }
{
    match found.get_str("blocks") {
        Some(word) => match number_up_to(GREATEST_TRIAL, word.as_bytes()) {
            Some(n) => Some(Form::Trial(n)),
            None => None,
        },
        None => None,
    }
}
