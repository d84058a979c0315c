//! Tests of the program's calls, `bridge`, `verify`, `translate`, `trial`, `article`, `check`, `decode` and `show`, over shelves and sinks in
//! memory.
//!
//! They stand apart from `bridge_run` and the crates of its parts, since a crate with tests is proved twice, and together, since reading
//! what they stand on costs more than all that they have to be proved.
//!
//! They are files of tests, which `bridge_cases` runs: a further case is a few lines of such a file.
//!
//! - `forms`, `checks`, `decodes`, `translations`, `faults`, `wrong`: the answers of each form, and faults of the outside.
//! - `shows`, `shown_definitions`, `shown_limits`, `shown_refusals`: the lines of an accepted article under `show`, with definitions too,
//!   the line and the kind of a refused one, and the limits.
//! - `inference`, `stating`, `translated_definitions`, `runs`, `trials`, `translation_refusals`, `translation_faults`: the whole modules and
//!   the counts of articles of a few commands, of several articles in a run, and the line and the kind of a refused one.
//! - `written_articles`, `retold`: the articles that are written of runs.
//! - `articles`: `verify` of an article that is cut behind each of its bytes, or that has one line left out, doubled or replaced;
//!   `two_articles`: of two articles, of which one is cut so.
//! - `cut_modules`: `check` and `decode` of a module that is cut behind each of its bytes; `changed_modules`: of one that was changed.
//! - `devices`: the shelf, standard output or standard error fails at each call that a run makes of it.
//! - What is cut or changed stands in `inputs`. In the tables of what has to come, a run of inputs with one answer is one row; `tables`
//!   makes files of tests of them.
//!
//! What has to come of cut articles and modules and of changed lines was answered by an independent implementation of the article
//! format and of the texts. What has to come of changed modules and of devices that fail was worked out by hand.
#![tactic(auto)]

#[cfg(test)]
mod articles;
#[cfg(test)]
mod changed_modules;
#[cfg(test)]
mod checks;
#[cfg(test)]
mod cut_modules;
#[cfg(test)]
mod decodes;
#[cfg(test)]
mod devices;
#[cfg(test)]
mod faults;
#[cfg(test)]
mod forms;
#[cfg(test)]
mod inference;
#[cfg(test)]
mod inputs;
#[cfg(test)]
mod retold;
#[cfg(test)]
mod runs;
#[cfg(test)]
mod shown_definitions;
#[cfg(test)]
mod shown_limits;
#[cfg(test)]
mod shown_refusals;
#[cfg(test)]
mod shows;
#[cfg(test)]
mod stating;
#[cfg(test)]
mod tables;
#[cfg(test)]
mod translated_definitions;
#[cfg(test)]
mod translation_faults;
#[cfg(test)]
mod translation_refusals;
#[cfg(test)]
mod translations;
#[cfg(test)]
mod trials;
#[cfg(test)]
mod two_articles;
#[cfg(test)]
mod written_articles;
#[cfg(test)]
mod wrong;
