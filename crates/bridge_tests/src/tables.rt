//! Tables of answers, and the files of tests that are made of them.
use bridge_cases::all_hold;
use itoa::Buffer;
use std::alloc::{AllocError, Global};

/// Inputs that differ by a number, and what has to come of each.
pub(crate) struct Table<'a> {
    /// The beginning of the file of tests, to the first case: what is usual in it, and the name of its one test.
    pub(crate) head: &'a str,
    /// What the number of a row says.
    pub(crate) given: Given<'a>,
    /// What comes to standard output before the text of a row, where the input is accepted: parts, each with a comma behind it.
    pub(crate) front: &'a str,
    /// A line for each run of inputs with one answer: the first and the last number, the status, and then what standard error says,
    /// in which `#` stands for the number; or, where the input is accepted, the name of the text that comes, with that of the note.
    pub(crate) rows: &'a str,
}

/// What is given to the program at a number. An article is given by its commands, each of which ends with a blank.
#[derive(Clone, Copy)]
pub(crate) enum Given<'a> {
    /// So many bytes of an article, as the file of that name.
    Cut(&'a str, &'a str),
    /// So many bytes of a text.
    CutText(&'a str),
    /// An article in which these commands stand for that line.
    Replaced(&'a str, &'a str),
    /// An article in which that line stands twice.
    Doubled(&'a str),
    /// A shelf that fails at that call.
    Failing,
}

/// Whether the program answers as a table says.
pub(crate) fn holds(rt: &HostRuntime, table: &Table<'_>) -> bool {
    match file(rt.alloc(), table) {
        Ok(file) => {
            let hold = all_hold(rt, file.as_str());
            drop(file);
            hold
        }
        Err(_) => false,
    }
}

// The file of tests.
fn file(alloc: Global, table: &Table<'_>) -> Result<String, AllocError> {
    let mut file = String::from_str(alloc, table.head)?;
    add_rows(&mut file, table)?;
    Ok(file)
}

// Adds the cases of each row.
fn add_rows(file: &mut String, table: &Table<'_>) -> Result<(), AllocError> {
    for row in table.rows.trim().lines() {
        add_row(file, table, row)?;
    }
    Ok(())
}

// Adds the cases of a row. A line that is none is put in as it stands, so that the file is no TOML.
fn add_row(file: &mut String, table: &Table<'_>, row: &str) -> Result<(), AllocError> {
    match parts(row) {
        Some((first, last, answer)) => add_cases(file, table, first, last, answer),
        None => file.push_str(row),
    }
}

// The first and the last number of a row, and its answer.
fn parts(row: &str) -> Option<(usize, usize, &str)> {
    let (first, rest) = row.split_once(' ')?;
    let (last, answer) = rest.split_once(' ')?;
    Some((number(first)?, number(last)?, answer))
}

// The number that a word is.
fn number(word: &str) -> Option<usize> {
    word.parse::<usize>().ok()
}

// Adds a case for each of these numbers.
fn add_cases(
    file: &mut String,
    table: &Table<'_>,
    first: usize,
    last: usize,
    answer: &str,
) -> Result<(), AllocError> {
    for number in first..=last {
        file.push_str("[[test.case]]\n")?;
        add_answer(file, table.front, answer, number)?;
        add_given(file, table.given, number)?;
    }
    Ok(())
}

// Adds what has to come.
fn add_answer(
    file: &mut String,
    front: &str,
    answer: &str,
    number: usize,
) -> Result<(), AllocError> {
    match answer.strip_prefix("0 ") {
        Some(name) => add_accepted(file, front, name),
        None => add_refused(file, answer, number),
    }
}

// Adds that the input is accepted, and the texts of that name.
fn add_accepted(file: &mut String, front: &str, name: &str) -> Result<(), AllocError> {
    file.push_str("out = [")?;
    file.push_str(front)?;
    file.push_str("\"$")?;
    file.push_str(name)?;
    file.push_str("\"]\nnote = \"$")?;
    file.push_str(name)?;
    file.push_str("_note\"\n")
}

// Adds a status, and what standard error says.
fn add_refused(file: &mut String, answer: &str, number: usize) -> Result<(), AllocError> {
    file.push_str("number = ")?;
    match answer.split_once(' ') {
        Some((status, said)) => {
            file.push_str(status)?;
            file.push_str("\nnote = \"")?;
            add_said(file, said, number)?;
            file.push_str("\\n\"\n")
        }
        None => Ok(()),
    }
}

// Adds a text, with the number for each `#`.
fn add_said(file: &mut String, said: &str, number: usize) -> Result<(), AllocError> {
    for letter in said.chars() {
        if letter == '#' {
            add_number(file, number)?;
        } else {
            file.push(letter)?;
        }
    }
    Ok(())
}

// Adds a number.
fn add_number(file: &mut String, number: usize) -> Result<(), AllocError> {
    let mut digits = Buffer::new();
    file.push_str(digits.format(number))
}

// Adds what is given.
fn add_given(file: &mut String, given: Given<'_>, number: usize) -> Result<(), AllocError> {
    match given {
        Given::Cut(name, commands) => add_cut(file, name, commands, number),
        Given::CutText(text) => add_cut_text(file, text, number),
        Given::Replaced(commands, others) => add_replaced(file, commands, number, others),
        Given::Doubled(commands) => add_doubled(file, commands, number),
        Given::Failing => add_failing(file, number),
    }
}

// Adds the first bytes of an article, as the file of that name.
fn add_cut(file: &mut String, name: &str, commands: &str, length: usize) -> Result<(), AllocError> {
    file.push_str("text.")?;
    file.push_str(name)?;
    file.push_str(" = '''\n")?;
    add_commands(file, front_of(commands, length))?;
    file.push_str("'''\n")
}

// Adds the first bytes of a text.
fn add_cut_text(file: &mut String, text: &str, length: usize) -> Result<(), AllocError> {
    file.push_str("text.a = '''\n")?;
    file.push_str(front_of(text, length))?;
    file.push_str("'''\n")
}

// So many bytes of a text, or where it has fewer, what keeps the file from being TOML.
fn front_of(text: &str, length: usize) -> &str {
    text.get(..length).unwrap_or("'''")
}

// Adds an article with these commands for a line.
fn add_replaced(
    file: &mut String,
    commands: &str,
    line: usize,
    others: &str,
) -> Result<(), AllocError> {
    file.push_str("text.a = '''\n")?;
    for (index, command) in commands.split_inclusive(' ').enumerate() {
        add_commands(
            file,
            if index.saturating_add(1) == line {
                others
            } else {
                command
            },
        )?;
    }
    file.push_str("'''\n")
}

// Adds an article with a line twice.
fn add_doubled(file: &mut String, commands: &str, line: usize) -> Result<(), AllocError> {
    file.push_str("text.a = '''\n")?;
    for (index, command) in commands.split_inclusive(' ').enumerate() {
        add_commands(file, command)?;
        add_commands(
            file,
            if index.saturating_add(1) == line {
                command
            } else {
                ""
            },
        )?;
    }
    file.push_str("'''\n")
}

// Adds commands, each on a line of its own.
fn add_commands(file: &mut String, commands: &str) -> Result<(), AllocError> {
    for letter in commands.chars() {
        file.push(if letter == ' ' { '\n' } else { letter })?;
    }
    Ok(())
}

// Adds that the shelf fails at that call.
fn add_failing(file: &mut String, call: usize) -> Result<(), AllocError> {
    file.push_str("shelf_fails = [")?;
    add_number(file, call)?;
    file.push_str("]\n")
}
