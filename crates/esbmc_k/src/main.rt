//! The program: hands the system's words, files and output to `run_alone`, and ends with its status.
#![tactic(auto)]

use esbmc_cli::run_alone;
use kv_port::{StdFiles, StdSink};
use std::env;
use std::io::{self, ErrorKind};
use std::process::ExitCode;
use std::rt::Env;

/// The words after the program's name. None are taken where one isn't UTF-8: such a line names no file.
fn words<R: Env + AllocGlobal>(rt: &R) -> io::Result<Vec<String>> {
    match env::args(rt) {
        Ok(args) => Ok(args.skip(1).collect(rt.alloc())?),
        Err(error) if error.kind() == ErrorKind::InvalidData => Ok(Vec::new(rt.alloc())),
        Err(error) => Err(error),
    }
}

/// Ends with the status of `run_alone`. Where the system hands over no words nothing is written, and the status
/// is 8 where memory ran out and else 13.
fn main(rt: HostRuntime) -> ExitCode {
    let words = match words(&rt) {
        Ok(words) => words,
        Err(error) if error.kind() == ErrorKind::OutOfMemory => return ExitCode::from(8),
        Err(_) => return ExitCode::from(13),
    };
    let mut files = StdFiles::new(&rt);
    let mut out = StdSink::new(&rt);
    let outcome = run_alone(rt.alloc(), &words, &mut files, &mut out);
    ExitCode::from(outcome.status)
}
