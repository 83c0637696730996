//! The commands of the program.

ghost use Rattle.std.specs.Prelude.{◌≡◌, ◌<◌, ◌∷◌, [], true, false, map, OnOk, OnErr};
ghost use Rattle.def_workspace.specs.Command.{is_answerable, is_list, is_show};

use crate::collecting::collect;
use crate::fault::Fault;
use crate::lines::print;
use crate::workspace::Workspace;
use def_scripted::{Part, find, read_row, vectors};
use std::alloc::{AllocError, Global};
use std::{fmt, io};

/// Prints the names of the vectors.
fn list<W: io::Write>(out: &mut W) -> Result<(), Fault> {
    for name in vectors() {
        writeln!(out, "{name}")?;
    }
    Ok(())
}

/// Collects the crates of a workspace that is written as rows are, and prints the map of the last.
fn show<W: io::Write>(alloc: Global, text: &str, out: &mut W) -> Result<(), Fault> {
    let row = read_row(alloc, Part { text, line: 1 })?;
    let mut workspace = Workspace::new(alloc, &row)?;
    match collect(&mut workspace, &row)? {
        Some(collected) => print(alloc, &workspace.session, &collected, out),
        None => Ok(()),
    }
}

/// Says that memory was refused, and answers the status.
fn out_of_memory<E: io::Write>(err: &mut E) -> u8
    ensures { result ≡ 1 }
{
    let _ = writeln!(err, "out of memory");
    1
}

/// Says that the text of a file cannot be read, and answers the status.
fn unreadable<E: io::Write>(err: &mut E, what: &str, number: usize) -> u8
    ensures { result ≡ 1 }
{
    let _ = writeln!(err, "a text cannot be read from {what} {number} on");
    1
}

/// The status of a command that ended, with a text on `err` unless a write was refused.
fn status<E: io::Write>(ended: Result<(), Fault>, err: &mut E) -> u8
    ensures done { OnOk ended (result ≡ 0) }
    ensures fault { OnErr ended (result ≡ 1) }
    ensures range { result < 2 }
    ensures silent { result ≡ 0 → err.new ≡ err.old }
{
    match ended {
        Ok(()) => 0,
        Err(Fault::Memory) => out_of_memory(err),
        Err(Fault::Output) => 1,
        Err(Fault::Text { tree: _, byte }) => unreadable(err, "byte", byte),
        Err(Fault::Row(line)) => unreadable(err, "line", line),
    }
}

/// A word as one line: what ends a line is written as in a literal, as every control character.
#[derive(Clone, Copy)]
struct OneLine<'t> {
    word: &'t str,
}

impl<'t> fmt::Display for OneLine<'t> {
    fn fmt<W: fmt::Write>(&self, f: &mut fmt::Formatter<W>) -> fmt::Result {
        for letter in self.word.chars() {
            match letter {
                '\0'..='\u{1f}' | '\u{7f}'..='\u{9f}' | '\u{2028}' | '\u{2029}' => {
                    write!(f, "{}", letter.escape_default())?
                }
                _ => f.write_char(letter)?,
            }
        }
        Ok(())
    }
}

/// Says that there is no vector of this name, and answers the status.
fn unknown<E: io::Write>(err: &mut E, name: &str) -> u8
    ensures { result ≡ 2 }
{
    let name = OneLine { word: name };
    let _ = writeln!(err, "unknown vector: {name}");
    2
}

/// Says how the program is called, and answers the status. The program itself runs `rows`.
fn usage<E: io::Write>(err: &mut E) -> u8
    ensures { result ≡ 2 }
{
    let _ = writeln!(
        err,
        "usage: defmap list | defmap show NAME | defmap rows FILE.."
    );
    2
}

/// Whether the word asks for the names.
fn is_list(word: &str) -> bool
    ensures { result ≡ is_list word.now }
{
    word == "list"
}

/// Whether the word asks for a vector.
fn is_show(word: &str) -> bool
    ensures { result ≡ is_show word.now }
{
    word == "show"
}

/// Runs the program over one word.
fn run_word<O: io::Write, E: io::Write>(word: &str, out: &mut O, err: &mut E) -> u8
    ensures wrong { is_answerable (word.now ∷ []) ≡ false → result ≡ 2 }
    ensures asked { is_answerable (word.now ∷ []) ≡ true → result < 2 }
    ensures silent { result ≡ 0 → err.new ≡ err.old }
{
    if is_list(word) {
        status(list(out), err)
    } else {
        usage(err)
    }
}

/// Runs the program over a word and a name.
fn run_words<O: io::Write, E: io::Write>(
    alloc: Global,
    word: &str,
    name: &str,
    out: &mut O,
    err: &mut E,
) -> u8
    ensures wrong { is_answerable (word.now ∷ name.now ∷ []) ≡ false → result ≡ 2 }
    ensures asked { is_answerable (word.now ∷ name.now ∷ []) ≡ true → result < 2 }
    ensures silent { result ≡ 0 → err.new ≡ err.old }
{
    if !is_show(word) {
        return usage(err);
    }
    match find(name) {
        Some(text) => status(show(alloc, text, out), err),
        None => unknown(err, name),
    }
}

/// Runs the program over its words, without its own name, and answers its exit status: 0; 1 where
/// memory is refused, or a write to `out`, or a vector's text cannot be read; 2 for words that ask
/// for nothing that there is. A text on `err` says which, except for a refused write. A write to
/// `err` that fails changes nothing.
pub fn run<O: io::Write, E: io::Write>(
    alloc: Global,
    words: &[&str],
    out: &mut O,
    err: &mut E,
) -> u8
    ensures wrong { is_answerable (map (λ word. word.now) words.now) ≡ false → result ≡ 2 }
    ensures asked { is_answerable (map (λ word. word.now) words.now) ≡ true → result < 2 }
    ensures silent { result ≡ 0 → err.new ≡ err.old }
{
    match words {
        [] => usage(err),
        [word] => run_word(word, out, err),
        [word, name] => run_words(alloc, word, name, out, err),
        [_, _, _, ..] => usage(err),
    }
}

/// The words of a command line, without the program's own name.
fn words(alloc: Global, args: &[String]) -> Result<Vec<&str>, AllocError> {
    let mut words = Vec::new(alloc);
    for word in args.iter().skip(1) {
        words.push(word.as_str())?;
    }
    Ok(words)
}

/// Runs the program over the arguments of the process, its own name first, and answers its exit
/// status. Where one is no text, they ask for nothing.
pub fn run_args<O: io::Write, E: io::Write>(
    alloc: Global,
    args: io::Result<Vec<String>>,
    out: &mut O,
    err: &mut E,
) -> u8 {
    match args {
        Ok(args) => match words(alloc, args.as_slice()) {
            Ok(words) => run(alloc, words.as_slice(), out, err),
            Err(AllocError) => out_of_memory(err),
        },
        Err(error) => match error.kind() {
            io::ErrorKind::OutOfMemory => out_of_memory(err),
            _ => run(alloc, &[], out, err),
        },
    }
}
