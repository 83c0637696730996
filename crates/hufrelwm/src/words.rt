//! The words of the command line.

use clap::{Arg, ArgAction, ArgMatches, Command, Error};
use std::alloc::{AllocError, Global};

/// The editions that may be named.
static EDITIONS: [&str; 4] = ["2015", "2018", "2021", "2024"];

/// The kinds of crates that may be named.
static KINDS: [&str; 3] = ["lib", "bin", "proc-macro"];

/// What is to be done.
#[derive(Clone, Copy)]
pub(crate) enum Order<'a> {
    Check { has_map: bool },
    Map,
    Ask { module: &'a str, path: &'a str },
    Dot,
}

/// What the words ask for.
#[derive(Drop)]
pub(crate) struct Words<'a> {
    pub(crate) order: Order<'a>,
    pub(crate) at: &'a str,
    pub(crate) is_json: bool,
    pub(crate) is_quiet: bool,
    pub(crate) has_times: bool,
    pub(crate) is_test: bool,
    pub(crate) cfgs: Vec<&'a str>,
    pub(crate) features: Vec<&'a str>,
    pub(crate) has_default_features: bool,
    pub(crate) edition: Option<&'a str>,
    pub(crate) kind: Option<&'a str>,
    pub(crate) externs: Vec<(&'a str, &'a str)>,
    pub(crate) crates: Option<&'a str>,
}

/// A word that is asked for by its place.
fn positional<'a>(alloc: Global, id: &'a str, help: &'a str) -> Arg<'a> {
    Arg::new(alloc, id).required(true).help(help)
}

/// An option without a value.
fn flag<'a>(alloc: Global, name: &'a str, help: &'a str) -> Arg<'a> {
    Arg::new(alloc, name)
        .long(name)
        .action(ArgAction::SetTrue)
        .help(help)
}

/// An option with a value.
fn option<'a>(alloc: Global, name: &'a str, value: &'a str, help: &'a str) -> Arg<'a> {
    Arg::new(alloc, name)
        .long(name)
        .value_name(value)
        .action(ArgAction::Set)
        .help(help)
}

/// An option with a value that may be given several times.
fn options<'a>(alloc: Global, name: &'a str, value: &'a str, help: &'a str) -> Arg<'a> {
    Arg::new(alloc, name)
        .long(name)
        .value_name(value)
        .action(ArgAction::Append)
        .help(help)
}

/// Adds the options that say what is set for a crate.
fn with_settings<'a>(alloc: Global, command: Command<'a>) -> Result<Command<'a>, AllocError> {
    let help = "Features that are on, with commas between";
    let features = options(alloc, "features", "NAMES", help).value_delimiter(',');
    let help = "Leave the default features off";
    let no_default = flag(alloc, "no-default-features", help);
    let help = "The edition, in place of the manifest's";
    let edition = option(alloc, "edition", "YEAR", help).value_parser(EDITIONS.as_slice());
    let help = "Read the library or the program of a package";
    let kind = option(alloc, "crate-type", "KIND", help).value_parser(KINDS.as_slice());
    let help = "Read what stands under cfg(test) too";
    command
        .arg(options(alloc, "cfg", "WORD", "Set a cfg: NAME or KEY=\"VALUE\""))?
        .arg(features)?
        .arg(no_default)?
        .arg(edition)?
        .arg(kind)?
        .arg(flag(alloc, "test", help))
}

/// Adds the options that say where crates lie and how it is written.
fn with_options<'a>(alloc: Global, command: Command<'a>) -> Result<Command<'a>, AllocError> {
    let command = with_settings(alloc, command)?;
    let help = "Where the crate of a name lies";
    let externs = options(alloc, "extern", "NAME=PATH", help);
    let help = "A folder in which dependencies lie side by side";
    let crates = option(alloc, "crates", "DIR", help);
    let help = "Say on standard error how long it took";
    command
        .arg(externs)?
        .arg(crates)?
        .arg(flag(alloc, "json", "Write JSON"))?
        .arg(flag(alloc, "quiet", "Write reports alone, a line each"))?
        .arg(flag(alloc, "times", help))
}

/// A command over a crate.
fn over_crate<'a>(alloc: Global, name: &'a str, about: &'a str) -> Result<Command<'a>, AllocError> {
    let place = positional(alloc, "DIR", "The folder of a crate, or its root file");
    let command = Command::new(alloc, name).about(about).arg(place)?;
    with_options(alloc, command)
}

/// What may be written on the command line.
pub(crate) fn program<'a>(alloc: Global) -> Result<Command<'a>, AllocError> {
    let check = over_crate(alloc, "check", "Say what does not resolve in a crate")?;
    let check = check.arg(flag(alloc, "map", "Write the map too"))?;
    let map = over_crate(
        alloc,
        "map",
        "Write the modules of a crate, and what each binds",
    )?;
    let ask = over_crate(alloc, "ask", "Say what a path means in a module")?;
    let ask = ask
        .arg(positional(alloc, "MODULE", "The module, as crate::a"))?
        .arg(positional(alloc, "PATH", "The path, as it is written there"))?;
    let dot = over_crate(
        alloc,
        "dot",
        "Write modules and globs as a graph for Graphviz",
    )?;
    Command::new(alloc, "hufrelwm")
        .version("0.1.0")
        .about("Shows what names mean in a crate of Rust sources")
        .subcommand_required(true)
        .subcommand(check)?
        .subcommand(map)?
        .subcommand(ask)?
        .subcommand(dot)
}

/// The values of an option.
fn values<'a>(
    alloc: Global,
    matches: &ArgMatches<'a>,
    id: &str,
) -> Result<Vec<&'a str>, AllocError> {
    let mut values = Vec::new(alloc);
    if let Some(given) = matches.get_strs(id) {
        for value in given {
            values.push(*value)?;
        }
    }
    Ok(values)
}

/// What the words of a command ask for.
fn read_options<'a>(
    alloc: Global,
    order: Order<'a>,
    matches: &ArgMatches<'a>,
) -> Result<Words<'a>, AllocError> {
    let mut externs = Vec::new(alloc);
    for word in values(alloc, matches, "extern")?.iter() {
        let word: &'a str = *word;
        externs.push(word.split_once('=').unwrap_or((word, word)))?;
    }
    Ok(Words {
        order,
        at: matches.get_str("DIR").unwrap_or("."),
        is_json: matches.get_flag("json"),
        is_quiet: matches.get_flag("quiet"),
        has_times: matches.get_flag("times"),
        is_test: matches.get_flag("test"),
        cfgs: values(alloc, matches, "cfg")?,
        features: values(alloc, matches, "features")?,
        has_default_features: !matches.get_flag("no-default-features"),
        edition: matches.get_str("edition"),
        kind: matches.get_str("crate-type"),
        externs,
        crates: matches.get_str("crates"),
    })
}

/// Reads the words of a command line, the program's own name first.
pub(crate) fn read_words<'a>(alloc: Global, words: &'a [&'a str]) -> Result<Words<'a>, Error> {
    let matches = program(alloc)?.try_get_matches_from(words)?;
    let Some((name, matches)) = matches.subcommand() else {
        return Err(Error::from(AllocError));
    };
    let order = match name {
        "map" => Order::Map,
        "dot" => Order::Dot,
        "ask" => Order::Ask {
            module: matches.get_str("MODULE").unwrap_or("crate"),
            path: matches.get_str("PATH").unwrap_or(""),
        },
        _ => Order::Check {
            has_map: matches.get_flag("map"),
        },
    };
    Ok(read_options(alloc, order, matches)?)
}
