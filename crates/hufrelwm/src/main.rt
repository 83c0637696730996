//! Shows what names mean in a crate of Rust sources: what does not resolve, the map of its modules,
//! what a path means, and modules and globs as a graph.
#![tactic(auto)]

mod host;
mod load;
mod run;
#[cfg(test)]
mod tests;
mod words;

use host::System;
use run::run_args;
use std::env;
use std::io::{self, BufWriter, Write};
use std::process::ExitCode;

/// The arguments of the process, its own name first.
fn args(rt: &HostRuntime) -> io::Result<Vec<String>> {
    let mut args = Vec::new(rt.alloc());
    for arg in env::args(rt)? {
        args.push(arg)?;
    }
    Ok(args)
}

/// Runs the program over the arguments of the process, and answers the status.
fn run_process(rt: &HostRuntime) -> io::Result<u8> {
    let host = System::new(rt);
    let args = args(rt)?;
    let mut out = BufWriter::new(rt.alloc(), io::writer(rt))?;
    let mut err = rt.stderr();
    let status = run_args(rt.alloc(), args.as_slice(), &host, &mut out, &mut err)?;
    out.flush()?;
    Ok(status)
}

/// The status where the process is refused memory, which is said, or a write.
fn refused(rt: &HostRuntime, error: io::Error) -> u8 {
    if error.kind() == io::ErrorKind::OutOfMemory {
        let _ = writeln!(rt.stderr(), "out of memory");
    }
    2
}

fn main(rt: HostRuntime) -> ExitCode {
    let status = match run_process(&rt) {
        Ok(status) => status,
        Err(error) => refused(&rt, error),
    };
    ExitCode::from(status)
}
