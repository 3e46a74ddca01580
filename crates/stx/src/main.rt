//! Applies a sheet to the document on standard input: `stx SHEET [NAME=VALUE]... < document`. `README.md` has the options.
#![tactic(auto)]

use std::env::Env;
use std::io::ErrorKind;
use std::process::ExitCode;
use std::{env, io};
use stx_engine::transform;
use stx_host::RealHost;

/// The status where the words can't be had from the system.
const NO_WORDS: u8 = 11;

/// The status where memory was wanting for them.
const OUT_OF_MEMORY: u8 = 7;

fn main(rt: HostRuntime) -> ExitCode {
    let status = match words(&rt) {
        Ok(words) => {
            let alloc = rt.alloc();
            let (input, out, note) = (rt.stdin(), rt.stdout(), rt.stderr());
            let mut host = RealHost::new(alloc, rt, input, out, note);
            transform(alloc, words.as_slice(), &mut host)
        }
        Err(error) if error.kind() == ErrorKind::OutOfMemory => OUT_OF_MEMORY,
        Err(_) => NO_WORDS,
    };
    ExitCode::from(status)
}

// The words after the program's name.
fn words(rt: &(impl Env + AllocGlobal)) -> io::Result<Vec<String>> {
    let words: Vec<String> = env::args(rt)?.skip(1).collect(rt.alloc())?;
    Ok(words)
}
