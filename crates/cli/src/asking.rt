//! The meaning of the command line's words.

ghost use Rattle.std.specs.Prelude.{◌≡◌, ◌≢◌, ◌∷◌, [], true, Some, None, Err, IfOk, IfErr, map, codes, string_bytes};
ghost use Rattle.std.specs.IoError.{error_kind};
ghost use Rattle.std.specs.declared.io.ErrorKind.TheVariants.{OutOfMemory};
ghost use Rattle.clap.specs.Words.{app_of, fault_of, found_of, matches_of, rows_of};
ghost use Rattle.cli.specs.Asking.{are_plain, asked_by, mode_named};
ghost use Rattle.cli.specs.Program.{program, texts_in};
ghost use Rattle.cli.specs.declared.asking.AskFault.TheVariants.{Memory, Usage};

use clap::error::ErrorKind;
use clap::{Arg, ArgAction, ArgMatches, Command};
use std::alloc::{AllocError, AllocFailed, Global};
use std::io;
use thiserror::Error;

/// How a script is run.
#[derive(Clone, Copy, Debug, PartialEq, Eq)]
pub enum Mode {
    /// The commands are done in order.
    Run,
    /// The same, and the heap is verified after each step.
    Check,
    /// Each actor does its commands in a thread of its own.
    Threads,
}

impl Mode {
    /// The mode of this name, if there is one: `run`, `check` or `threads`.
    fn named(name: &str) -> Option<Mode>
        ensures { result ≡ mode_named name.now }
    {
        match name {
            "run" => Some(Mode::Run),
            "check" => Some(Mode::Check),
            "threads" => Some(Mode::Threads),
            _ => None,
        }
    }
}

/// A mode, and the name of the script's file.
#[derive(Debug, Drop)]
pub struct Asked {
    mode: Mode,
    file: String,
}

/// Why nothing can be run.
#[derive(Clone, Copy, Debug, PartialEq, Eq, Error)]
pub enum AskFault {
    /// The words aren't a mode and a file.
    #[error("usage: pauseless run|threads|check FILE")]
    Usage,
    /// Out of memory.
    #[error("pauseless: out of memory")]
    Memory,
}

impl From<AllocError> for AskFault {
    ghost from_gives = { λ _ fault. fault ≡ Memory };

    fn from(_error: AllocError) -> AskFault {
        AskFault::Memory
    }
}

impl<T: Drop> From<AllocFailed<T>> for AskFault {
    ghost from_gives = { λ _ fault. fault ≡ Memory };

    fn from(_error: AllocFailed<T>) -> AskFault {
        AskFault::Memory
    }
}

impl AskFault {
    /// Returns the error if the words of the command line can't be read: `Memory` if out of memory, else `Usage`, for
    /// a word that isn't UTF-8, as no file with such a name can be opened.
    pub fn of_words(error: &io::Error) -> AskFault
        ensures memory { result ≡ Memory → error_kind error.now ≡ OutOfMemory }
        ensures usage { result ≡ Usage → error_kind error.now ≢ OutOfMemory }
    {
        if matches!(error.kind(), io::ErrorKind::OutOfMemory) {
            return AskFault::Memory;
        }
        AskFault::Usage
    }

    /// Writes its line to `errors`, and returns the exit status: 2 for words that are no mode and file, 3 if out of
    /// memory. If the line can't be written, the status is the same.
    pub fn tell<E: io::Write>(self, errors: &mut E) -> u8
        ensures usage { self ≡ Usage → result ≡ 2 }
        ensures memory { self ≡ Memory → result ≡ 3 }
    {
        let _ = writeln!(errors, "{self}");
        match self {
            AskFault::Usage => 2,
            AskFault::Memory => 3,
        }
    }
}

impl Asked {
    /// Returns how the script is run.
    pub fn mode(&self) -> Mode
        ensures { result ≡ self.now.mode }
    {
        self.mode
    }

    /// Returns the name of the script's file.
    pub fn file(&self) -> &str
        ensures { result.now ≡ string_bytes self.now.file }
    {
        self.file.as_str()
    }
}

/// Returns the command that parses the words: two required arguments, and no flag.
fn command<'a>(alloc: Global) -> Result<Command<'a>, AllocError>
    ensures { IfOk result (λ command. app_of command ≡ program) }
{
    let mode = Arg::new(alloc, "mode")
        .required(true)
        .action(ArgAction::Set);
    let file = Arg::new(alloc, "file")
        .required(true)
        .action(ArgAction::Set);
    let bare = Command::new(alloc, "pauseless")
        .disable_help_flag(true)
        .disable_version_flag(true);
    bare.arg(mode)?.arg(file)
}

/// Returns the program's name and the words.
fn named<'w>(alloc: Global, words: &'w [String]) -> Result<Vec<&'w str>, AskFault>
    ensures texts { IfOk result (λ found. texts_in found.items ≡ codes "pauseless" ∷ map string_bytes words.now) }
    ensures memory { IfErr result (λ fault. fault ≡ Memory) }
{
    let mut texts = Vec::new(alloc);
    texts.push("pauseless")?;
    for word in words {
        texts.push(word.as_str())?;
    }
    Ok(texts)
}

/// Returns the matches of the texts, by the program's command.
fn found<'a>(alloc: Global, texts: &'a [&'a str]) -> Result<ArgMatches<'a>, AskFault>
    ensures rows { IfOk result (λ matches. rows_of (found_of matches) ≡ matches_of program (texts_in texts.now)) }
    ensures taken { IfOk result (λ _. fault_of program (texts_in texts.now) ≡ []) }
    ensures refused { result ≡ Err Usage → fault_of program (texts_in texts.now) ≢ [] }
{
    match command(alloc)?.try_get_matches_from(texts) {
        Ok(matches) => Ok(matches),
        Err(error) => match error.kind() {
            ErrorKind::OutOfMemory => Err(AskFault::Memory),
            _ => Err(AskFault::Usage),
        },
    }
}

/// Returns what the words request, without the program's name: a mode, `run`, `check` or `threads`, and the name of a
/// file. Fails with `Usage` for all other words, and with `Memory` if out of memory.
///
/// No clause covers words that begin with `-`: they are parsed by the rules of flags, of which the program has none.
#[tactic(auto, using(crate::proofs::Parsing::both_there, crate::proofs::Parsing::refused_answer, crate::proofs::Parsing::mode_asked, crate::proofs::Parsing::no_mode_asked))]
pub fn ask(alloc: Global, words: &[String]) -> Result<Asked, AskFault>
    // The result is what the words request.
    ensures asked { are_plain (map string_bytes words.now) ≡ true
        → IfOk result (λ asked. asked_by (map string_bytes words.now) ≡ Some (asked.mode, string_bytes asked.file)) }
    // `Usage` is returned only if they request nothing.
    ensures usage { are_plain (map string_bytes words.now) ≡ true
        → result ≡ Err Usage → asked_by (map string_bytes words.now) ≡ None }
{
    let texts = named(alloc, words)?;
    let matches = found(alloc, &texts)?;
    let (Some(mode), Some(file)) = (matches.get_str("mode"), matches.get_str("file")) else {
        return Err(AskFault::Usage);
    };
    let Some(mode) = Mode::named(mode) else {
        return Err(AskFault::Usage);
    };
    Ok(Asked {
        mode,
        file: String::from_str(alloc, file)?,
    })
}
