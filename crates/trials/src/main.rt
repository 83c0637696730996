//! Trials of the collector: random crates are collected and looked at, and each request for memory is
//! refused.
#![tactic(auto)]

use def_workspace::Fault;
use random_crates::{Request, try_rows};
use refused_memory::try_all;
use std::env;
use std::io::{self, Write};
use std::process::ExitCode;

const USAGE: &str = "usage: trials random SEED COUNT [counts]
       trials refused FILE..
       trials both SEED COUNT";

/// What words ask for.
#[derive(Clone, Copy)]
enum Trial<'a> {
    Random(Request),
    /// The names of the files whose rows are tried too.
    Refused(&'a [String]),
    /// Random crates, and the requests of what needs no file.
    Both(Request),
}

/// The rows that words ask for.
fn request(seed: &String, count: &String, tells_all: bool) -> Option<Request> {
    Some(Request {
        seed: seed.as_str().parse::<u64>().ok()?,
        count: count.as_str().parse::<u64>().ok()?,
        tells_all,
    })
}

/// What words ask for, of which the first is the name of the program.
fn asked_by(words: &[String]) -> Option<Trial<'_>> {
    let (_, words) = words.split_first()?;
    let (kind, words) = words.split_first()?;
    match (kind.as_str(), words) {
        ("random", [seed, count]) => Some(Trial::Random(request(seed, count, false)?)),
        ("random", [seed, count, word]) if word.as_str() == "counts" => {
            Some(Trial::Random(request(seed, count, true)?))
        }
        ("refused", files) => Some(Trial::Refused(files)),
        ("both", [seed, count]) => Some(Trial::Both(request(seed, count, false)?)),
        _ => None,
    }
}

/// Makes a trial, and answers whether all is right.
fn run<W: Write>(rt: &HostRuntime, trial: Trial<'_>, out: &mut W) -> Result<bool, Fault> {
    match trial {
        Trial::Random(asked) => try_rows(rt.alloc(), asked, out),
        Trial::Refused(files) => try_all(rt, files, out),
        Trial::Both(asked) => {
            let is_right = try_rows(rt.alloc(), asked, out)?;
            Ok(try_all(rt, &[], out)? && is_right)
        }
    }
}

/// Does what words ask for, and answers the status: 1 where something is wrong, or rare among random
/// crates, and where memory or a write is refused; 2 for words that ask for nothing.
fn status<W: Write>(rt: &HostRuntime, words: &[String], out: &mut W) -> u8 {
    let Some(trial) = asked_by(words) else {
        let _ = writeln!(rt.stderr(), "{USAGE}");
        return 2;
    };
    match run(rt, trial, out) {
        Ok(true) => 0,
        Ok(false) => 1,
        Err(_) => {
            let _ = writeln!(
                rt.stderr(),
                "out of memory, or a text cannot be read or written"
            );
            1
        }
    }
}

/// The arguments of the process, its own name first.
fn args(rt: &HostRuntime) -> io::Result<Vec<String>> {
    let mut args = Vec::new(rt.alloc());
    for arg in env::args(rt)? {
        args.push(arg)?;
    }
    Ok(args)
}

fn main(rt: HostRuntime) -> io::Result<ExitCode> {
    let words = args(&rt)?;
    let mut out = io::writer(&rt);
    Ok(ExitCode::from(status(&rt, words.as_slice(), &mut out)))
}
