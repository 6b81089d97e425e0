//! `dataurl COMMAND` reads a data: URL, a MIME type or base64 from standard input and writes the result of the command
//! to standard output. The commands are `body`, `mime`, `fragment`, `type` and `base64`.
#![tactic(auto)]

mod command;
mod fault;
mod gather;
mod input;
mod output;
mod program;
mod run;
mod stream;
#[cfg(test)]
mod tests;

use fault::Fault;
use program::execute;
use std::env;
use std::process::ExitCode;

/// Returns the words after the program's name, or `Read` if they cannot be read, even if allocation failed.
fn arguments(rt: &HostRuntime) -> Result<Vec<String>, Fault> {
    let Ok(mut all) = env::args(rt) else {
        return Err(Fault::Read);
    };
    all.next();
    let mut words = Vec::new(rt.alloc());
    for word in all {
        let Ok(()) = words.push(word) else {
            return Err(Fault::Read);
        };
    }
    Ok(words)
}

fn main(rt: HostRuntime) -> ExitCode {
    ExitCode::from(execute(
        rt.alloc(),
        arguments(&rt),
        &mut rt.stdin(),
        &mut rt.stdout(),
        &mut rt.stderr(),
    ))
}
