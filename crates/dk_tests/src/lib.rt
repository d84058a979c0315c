//! Tests over modules as texts: which texts are read, and each fault by its name and place; answers and prices of checks and
//! conversions, types in a context, verdicts, head steps, weights and bounds; the sequents for which types stand; and what is written of
//! a module.
//!
//! They are files of tests, which `dk_cases` runs: a further case is a few lines of such a file. What a text reads as, and what each
//! answer means, is proved of every text in `dk_read`, `lp_conv`, `lp_kernel`, `lp_weight`, `decode_back` and `dk_write`; the tests show that with
//! ample memory each answer is given, and none is want of memory in its place.
//!
//! What no text says is tested in `lp_tests`.
#![tactic(auto)]

#[cfg(test)]
mod conversions;
#[cfg(test)]
mod depths;
#[cfg(test)]
mod exports;
#[cfg(test)]
mod feeding;
#[cfg(test)]
mod head_steps;
#[cfg(test)]
mod hostile;
#[cfg(test)]
mod limits;
#[cfg(test)]
mod misleading;
#[cfg(test)]
mod parts;
#[cfg(test)]
mod prices;
#[cfg(test)]
mod readings;
#[cfg(test)]
mod refusals;
#[cfg(test)]
mod short_names;
#[cfg(test)]
mod types;
#[cfg(test)]
mod verdicts;
#[cfg(test)]
mod weights;
#[cfg(test)]
mod writing;
