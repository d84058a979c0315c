//! The program called once for each of its own words, which is a whole command line with a blank between words. `bridge_run::run` gets the
//! words, the files and the standard streams; the number of the status follows on a line of standard output. It ends with the last number.
#![tactic(auto)]

use bridge_base::{FileShelf, StdSink};
use bridge_run::run;
use std::alloc::{AllocError, Global};
use std::env::Args;
use std::process::ExitCode;
use std::{env, io};

// The words of a command line, as the system gives them.
fn words_of(alloc: Global, line: &str) -> Result<Args, AllocError> {
    let mut words = Vec::new(alloc);
    for word in line.split(' ') {
        words.push(String::from_str(alloc, word)?)?;
    }
    Ok(words.into_iter())
}

// The number of the status of a call.
fn number_of(rt: &HostRuntime, words: Args) -> u8 {
    let mut shelf = FileShelf::new(rt);
    let mut out = StdSink::stdout(rt);
    let mut note = StdSink::stderr(rt);
    run(rt.alloc(), Ok(words), &mut shelf, &mut out, &mut note)
}

// Calls the program, and writes the number of its status.
fn call(rt: &HostRuntime, line: &str) -> io::Result<u8> {
    let words = words_of(rt.alloc(), line)?;
    let number = number_of(rt, words);
    println!(rt; "{number}")?;
    Ok(number)
}

fn main(rt: HostRuntime) -> io::Result<ExitCode> {
    let mut number = 0u8;
    for line in env::args(&rt)?.skip(1) {
        number = call(&rt, &line)?;
    }
    Ok(ExitCode::from(number))
}
