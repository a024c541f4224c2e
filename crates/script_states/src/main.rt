//! Writes the states of a heap on which a script runs, for a film or a plot of it.
//!
//! | Words | Output |
//! |---|---|
//! | `FILE` | the state before the first command and after each step, with the commands, the steps and their answers |
//! | `FILE EVERY` | a line of counts before the first command, after every EVERY commands, and after the last |
//!
//! docs/FILM.md describes the lines. A faulty script, or one with commands for threads of the system, is an error.
#![tactic(auto)]

mod actors;
mod commands;
mod counts;
mod filmed;
mod filming;
mod lines;
mod pages;
mod steps;

use crate::filming::{count, film};
use anyhow::{Result, bail};
use script::{RunFault, Script, new_book, parse};
use std::alloc::Global;
use std::io::Write as _;
use std::{env, fs, io};

/// What the words of the command line request.
#[derive(Drop)]
struct Asked {
    /// The script's file.
    file: String,
    /// Counts are written after this many commands each; complete states if it is `None`.
    every: Option<u64>,
}

/// Returns what the words after the program's name request.
fn ask(rt: &HostRuntime) -> Result<Asked> {
    let mut words = Vec::new(rt.alloc());
    for word in env::args(rt)?.skip(1) {
        words.push(word)?;
    }
    let Some(file) = words.first() else {
        bail!("usage: script_states FILE [EVERY]");
    };
    let every = match words.get(1) {
        None => None,
        Some(word) => Some(word.parse::<u64>()?.max(1)),
    };
    Ok(Asked {
        file: String::from_str(rt.alloc(), file.as_str())?,
        every,
    })
}

/// Returns the script of a file. Fails if it has a fault, or commands that only a run by threads does.
fn script_of(rt: &HostRuntime, file: &str) -> Result<Script> {
    let bytes = fs::read(rt, file)?;
    let script = parse(rt.alloc(), &bytes)?;
    if let Some(fault) = script.spots().cycle {
        return Err(RunFault::Line(fault).into());
    }
    Ok(script)
}

/// Runs a script on a new recorded heap, and writes what was requested.
fn run<W: io::Write>(alloc: Global, script: &Script, every: Option<u64>, w: &mut W) -> Result<()> {
    let book = new_book(alloc, script)?;
    match every {
        None => film(alloc, book, script.commands(), w),
        Some(every) => count(alloc, book, script.commands(), every, w),
    }
}

fn main(rt: HostRuntime) -> Result<()> {
    let asked = ask(&rt)?;
    let script = script_of(&rt, asked.file.as_str())?;
    let mut output = io::BufWriter::new(rt.alloc(), io::writer(&rt))?;
    run(rt.alloc(), &script, asked.every, &mut output)?;
    Ok(output.flush()?)
}
