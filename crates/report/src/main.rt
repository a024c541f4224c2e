//! The program `pauseless`: runs a script on a heap.
#![tactic(auto)]

ghost use Rattle.std.specs.Prelude.{IfErr};
ghost use Rattle.cli.specs.Running.{IsStatus};

use cli::{AskFault, Asked, ask, not_opened, serve};
use std::process::ExitCode;
use std::rt::Files;
use std::{env, fs, io};

/// Returns the words of the command line, without the program's name.
fn words(rt: &HostRuntime) -> Result<Vec<String>, AskFault> {
    let mut words = Vec::new(rt.alloc());
    let all = env::args(rt).map_err(|error| AskFault::of_words(&error))?;
    for word in all.skip(1) {
        words.push(word)?;
    }
    Ok(words)
}

/// Returns what the words request and the open file, or the exit status of an error.
fn opened<E: io::Write>(rt: &HostRuntime, errors: &mut E) -> Result<(Asked, fs::File), u8>
    ensures { IfErr result IsStatus }
{
    let asked = match asked(rt) {
        Ok(asked) => asked,
        Err(fault) => return Err(fault.tell(errors)),
    };
    match fs::open(rt, asked.file()) {
        Ok(file) => Ok((asked, file)),
        Err(error) => Err(not_opened(&asked, &error, errors)),
    }
}

/// Returns what the words of the command line request.
fn asked(rt: &HostRuntime) -> Result<Asked, AskFault> {
    let words = words(rt)?;
    ask(rt.alloc(), &words)
}

fn main(rt: HostRuntime) -> ExitCode {
    let mut errors = rt.stderr();
    let (asked, mut file) = match opened(&rt, &mut errors) {
        Ok(found) => found,
        Err(status) => return ExitCode::from(status),
    };
    // A buffer can't be made only if out of memory.
    let Ok(mut output) = io::BufWriter::new(rt.alloc(), io::writer(&rt)) else {
        return ExitCode::from(AskFault::Memory.tell(&mut errors));
    };
    ExitCode::from(serve(&rt, rt.alloc(), &asked, &mut file, &mut output, &mut errors))
}
