//! The program, over the words of its command line, a reader and two writers.

ghost use Rattle.dataurl.specs.Program.{Executes};

use crate::command::command_of;
use crate::fault::{Fault, report, usage};
use crate::run::run;
use std::alloc::Global;
use std::io::{Read, Write};

/// Runs the command of the words after the program's name, and returns the exit status: 0 if it succeeded, 1 if the
/// input is not valid, 2 if the words are not exactly one word that names a command, and 3 if allocation, a read or a
/// write failed, or the words could not be read. Nothing is read or written unless a command is run, except that one
/// line is written to `errors` if the status is not 0.
pub fn execute<R: Read, W: Write, E: Write>(
    alloc: Global,
    words: Result<Vec<String>, Fault>,
    reader: &mut R,
    writer: &mut W,
    errors: &mut E,
) -> u8
    ensures { Executes (R.remaining reader.old) (R.remaining reader.new) (W.contents writer.old)
        (W.contents writer.new) words result }
{
    let words = match words {
        Ok(words) => words,
        Err(fault) => return report(&fault, errors),
    };
    let Some(command) = command_of(&words) else {
        return usage(errors);
    };
    match run(alloc, command, reader, writer) {
        Ok(()) => 0,
        Err(fault) => report(&fault, errors),
    }
}
