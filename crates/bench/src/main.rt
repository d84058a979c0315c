//! Times calls of the libraries, for the scripts of bench/: `bench CRATE CALL COUNT ..`, three words for each thing that is timed,
//! one after another. What each makes, and the words that choose it, its module says:
//!
//! | CRATE | CALL | COUNT | Module |
//! |---|---|---|---|
//! | `lp_term` | `node`, `lift` or `put` | how many nodes | `trees` |
//! | `hol_term` | `make` or `inst` | how many terms | `terms` |
//! | `dk_write` | how many definitions | how many times | `writing` |
//! | `dk_read` | `read` | a file | `modules` |
//! | `lp_kernel` | `steps` | a file | `modules` |
#![tactic(auto)]

mod checking;
mod modules;
mod terms;
mod trees;
mod writing;

use std::{env, io};

// Runs a call of this crate so many times.
fn timed(rt: &HostRuntime, name: &str, call: &str, count: u32) -> io::Result<()> {
    match name {
        "lp_term" => trees::timed(rt, call, count),
        "hol_term" => terms::timed(rt, call, count),
        "dk_write" => writing::timed(rt, call, count),
        _ => rt.println("CRATE is none that is timed"),
    }
}

// Runs a call on what COUNT says.
fn timed_of(rt: &HostRuntime, name: &str, call: &str, count: &str) -> io::Result<()> {
    match name {
        "dk_read" => modules::timed(rt, count, false),
        "lp_kernel" => modules::timed(rt, count, true),
        _ => match count.parse::<u32>() {
            Ok(count) => timed(rt, name, call, count),
            Err(_) => rt.println("COUNT is a number below 2^32"),
        },
    }
}

// The same of words.
fn timed_by(rt: &HostRuntime, words: &[String]) -> io::Result<()> {
    match words {
        [name, call, count] => timed_of(rt, name, call, count),
        _ => rt.println("use: bench CRATE CALL COUNT .."),
    }
}

// Takes the words three by three.
fn timed_each(rt: &HostRuntime, words: &[String]) -> io::Result<()> {
    for words in words.chunks(3) {
        timed_by(rt, words)?;
    }
    Ok(())
}

fn main(rt: HostRuntime) -> io::Result<()> {
    let words: Vec<String> = env::args(&rt)?.collect(rt.alloc())?;
    match words.split_first() {
        Some((_program, words)) => timed_each(&rt, words),
        None => Ok(()),
    }
}
