//! The program: its words, the standard streams, and the status at its end.
#![tactic(auto)]

use bk_io::{MemSource, Open, StdSink, StdSource};
use bk_top::backend;
use std::alloc::{AllocError, Global};
use std::env;
use std::io::ErrorKind;
use std::process::ExitCode;
use std::thread::Threads;

/// The status where a word is no UTF-8.
const NO_WORDS: u8 = 2;

/// The status where there is no memory.
const NO_MEMORY: u8 = 6;

/// The words after the program's name.
fn words(rt: &HostRuntime) -> Result<Vec<String>, u8> {
    let args = match env::args(rt) {
        Ok(args) => args,
        Err(error) if error.kind() == ErrorKind::OutOfMemory => return Err(NO_MEMORY),
        Err(_) => return Err(NO_WORDS),
    };
    let mut words = Vec::new(rt.alloc());
    for word in args.skip(1) {
        if words.push(word).is_err() {
            return Err(NO_MEMORY);
        }
    }
    Ok(words)
}

/// The rules of the fourth word, which the words of `compile` may have: none without it.
fn rules(alloc: Global, words: &[String]) -> Result<MemSource, AllocError> {
    let mut bytes = Vec::new(alloc);
    if let Some(word) = words.get(3) {
        bytes.extend_from_slice(word.as_bytes())?;
    }
    Ok(MemSource::new(bytes, Vec::new(alloc)))
}

/// Runs the command of the words over the standard streams, and answers its status. The runtime makes the threads too.
fn run<R: Threads + Sync>(rt: &HostRuntime, threads: &R) -> u8 {
    let words = match words(rt) {
        Ok(words) => words,
        Err(status) => return status,
    };
    let Ok(mut rules) = rules(rt.alloc(), &words) else {
        return NO_MEMORY;
    };
    let mut input = StdSource::new(rt.stdin());
    let mut out = StdSink::new(rt.stdout());
    let mut err = StdSink::new(rt.stderr());
    backend(
        threads,
        rt.alloc(),
        &words,
        &mut input,
        &mut rules,
        &mut out,
        &mut err,
        &Open,
    )
}

fn main(rt: HostRuntime) -> ExitCode {
    ExitCode::from(run(&rt, &rt))
}
