//! Runs of the commands that print maps and their names: what they write and say, their status, and
//! what a write that is refused changes of them.

use def_workspace::{ProgramText, run_args};
use std::alloc::Global;
use std::io::{self, Write};

/// A writer that takes so many bytes, and then fails.
#[derive(Drop)]
struct Narrow {
    room: usize,
}

impl io::Write for Narrow {
    fn write(&mut self, buf: &[u8]) -> io::Result<usize> {
        if self.room < buf.len() {
            return Err(io::Error::from(io::ErrorKind::StorageFull));
        }
        self.room -= buf.len();
        Ok(buf.len())
    }

    fn flush(&mut self) -> io::Result<()> {
        Ok(())
    }
}

/// The arguments of a run, the program's own name first. In a word of a row `\n` stands for the end of
/// a line.
fn args(alloc: Global, program: &ProgramText<'_>) -> io::Result<Vec<String>> {
    if program.is_no_text {
        return Err(io::Error::from(io::ErrorKind::InvalidData));
    }
    let mut args = Vec::new(alloc);
    args.push(String::from_str(alloc, "defmap")?)?;
    for word in &program.words {
        args.push(word.replace(alloc, "\\n", "\n")?)?;
    }
    Ok(args)
}

/// Runs a command as the program does, and answers the status.
fn status_of<O: io::Write, E: io::Write>(
    alloc: Global,
    program: &ProgramText<'_>,
    out: &mut O,
    err: &mut E,
) -> u8 {
    run_args(alloc, args(alloc, program), out, err)
}

/// Whether a run with so much room for its text, which is too little, ends with status 1, and says
/// nothing.
fn is_refused(alloc: Global, program: &ProgramText<'_>, room: usize) -> bool {
    let mut said: Vec<u8> = Vec::new(alloc);
    status_of(alloc, program, &mut Narrow { room }, &mut said) == 1 && said.is_empty()
}

/// Whether a run ends so with each lesser room for its text, of which there are so many bytes, and
/// ends with its own status where it has this room and can say nothing.
fn is_refused_alone(alloc: Global, program: &ProgramText<'_>, length: usize, status: u8) -> bool {
    for room in 0..length {
        if !is_refused(alloc, program, room) {
            return false;
        }
    }
    let mut out = Narrow { room: length };
    status_of(alloc, program, &mut out, &mut Narrow { room: 0 }) == status
}

/// Writes what a run writes, its status, and what it says, and a line where a refused write changes
/// more than it should.
pub fn write_run(alloc: Global, program: &ProgramText<'_>, lines: &mut Vec<u8>) -> io::Result<()> {
    let mut said: Vec<u8> = Vec::new(alloc);
    let status = status_of(alloc, program, lines, &mut said);
    let length = lines.len();
    writeln!(lines, "status {status}")?;
    lines.write_all(said.as_slice())?;
    if !is_refused_alone(alloc, program, length, status) {
        writeln!(lines, "a refused write is not told")?;
    }
    Ok(())
}
