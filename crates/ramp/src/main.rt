//! The program: its words, and the standard streams.
#![tactic(auto)]

use line_runs::ProgramFault;
use std::env;
use std::io::ErrorKind;
use std::process::ExitCode;
use workload::run_words;

fn main(rt: HostRuntime) -> ExitCode {
    let mut errors = rt.stderr();
    let status = match words(&rt) {
        Ok(words) => run_words(
            &rt,
            rt.alloc(),
            &words,
            &mut rt.stdin(),
            &mut rt.stdout(),
            &mut errors,
        ),
        Err(fault) => fault.report(&mut errors),
    };
    ExitCode::from(status)
}

// The program's words, its own name first. One that is not UTF-8 is none that the program knows.
fn words(rt: &HostRuntime) -> Result<Vec<String>, ProgramFault> {
    match env::args(rt) {
        Ok(words) => Ok(words.collect(rt.alloc())?),
        Err(error) if error.kind() == ErrorKind::OutOfMemory => Err(ProgramFault::OutOfMemory),
        Err(_) => Err(ProgramFault::Options),
    }
}
