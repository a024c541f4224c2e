//! Reading a script line by line.

ghost use Rattle.std.specs.Prelude.{◌≡◌, ◌<◌, ◌==◌, ◌++◌, length, Ok, IfSome, IfNone, OnOk, position, nat_lt, ◌+◌, ◌*◌};
ghost use Rattle.std.specs.List.{repeat};
ghost use Rattle.parser.specs.Reading.{nothing, is_idle, is_full, with_command, first_word, heap_line, layout_line};
ghost use Rattle.parser.specs.Reading.{command_line, times_line, end_line, part_line, later_line, line_in, in_line};
ghost use Rattle.parser.specs.Reading.{finished, last_line, script_in, script_of, Gives, Follows, IsFlawAtStart};
ghost use Rattle.parser.specs.Reading.{CutsLine, HasNoNewline};

use crate::commands::{actor_at, order_at};
use crate::fault::{FaultKind, Flaw, LineFault, ParseFault, Stop};
use crate::heading::{Sizes, heap_in, layout_in};
use crate::limits::MOST_LAYOUTS;
use crate::order::Command;
use crate::words::{end_at, number_at, word_at};
use layout::Layout;
use model::Config;
use std::alloc::{AllocError, Global};
use std::marker::Model;

/// The greatest number of commands of a script, counting a block's for each of its turns. Each takes 48 bytes.
pub const MOST_COMMANDS: usize = 200_000;

/// The greatest number of turns of a block.
pub const MOST_TURNS: u64 = 100_000;

/// What was read so far.
#[derive(Drop)]
pub struct Reading {
    alloc: Global,
    sizes: Option<Sizes>,
    layouts: Vec<Layout>,
    /// Whether a command or a block has begun.
    begun: bool,
    /// The commands outside the open block.
    commands: Vec<Command>,
    /// The turns of the open block, if there is one.
    turns: Option<u64>,
    /// The commands of the open block.
    body: Vec<Command>,
}

impl Model for Reading {
    ghost use Rattle.parser.specs.Reading.{ReadSoFar};
    ghost use Rattle.parser.specs.Views.{read_so_far};

    ghost Value = { ReadSoFar };

    ghost view = { read_so_far };
}

fn is_idle(line: &[u8]) -> bool
    ensures { result ≡ is_idle line.now }
{
    match line {
        [] => true,
        [first, ..] => *first == b'#',
    }
}

#[tactic(auto, unfolding(crate::specs::Reading::first_word))]
pub fn first_word(line: &[u8]) -> (&[u8], usize)
    ensures { (result.0.now, result.1) ≡ first_word line.now }
{
    match word_at(line, 0) {
        None => (b"", 0),
        Some(found) => found,
    }
}

fn flaw(kind: FaultKind) -> Stop
    ensures { IsFlawAtStart result kind }
{
    Stop::Flaw(Flaw { column: 1, kind })
}

impl Reading {
    /// Returns the state before the first line.
    fn new(alloc: Global) -> Reading
        ensures { result ≡ nothing }
    {
        Reading {
            alloc,
            sizes: None,
            layouts: Vec::new(alloc),
            begun: false,
            commands: Vec::new(alloc),
            turns: None,
            body: Vec::new(alloc),
        }
    }

    #[tactic(auto, unfolding(crate::specs::Reading::heap_line))]
    fn heap_line(&mut self, line: &[u8]) -> Result<(), Stop>
        ensures { Follows result self.new (heap_line self.old line.now) }
    {
        let (word, at) = first_word(line);
        if word == b"heap".as_slice() {
            let sizes = heap_in(line, at)?;
            self.sizes = Some(sizes);
            Ok(())
        } else {
            Err(flaw(FaultKind::HeapLineExpected))
        }
    }

    #[tactic(auto, unfolding(crate::specs::Reading::layout_line))]
    fn layout_line(&mut self, sizes: &Sizes, line: &[u8], at: usize) -> Result<(), Stop>
        requires { at ≡ (first_word line.now).1 }
        ensures { Follows result self.new (layout_line self.old sizes.now line.now) }
    {
        let layout = layout_in(sizes, line, at)?;
        self.layouts.push(layout)?;
        Ok(())
    }

    fn is_full(&self) -> bool
        ensures { result ≡ is_full self.now.turns self.now.commands }
    {
        self.turns.is_none() && self.commands.len() >= MOST_COMMANDS
    }

    fn add(&mut self, command: Command) -> Result<(), Stop>
        ensures { Follows result self.new (Ok (with_command self.old self.old.turns command)) }
    {
        if self.turns.is_some() {
            self.body.push(command)?;
        } else {
            self.begun = true;
            self.commands.push(command)?;
        }
        Ok(())
    }

    #[tactic(auto, unfolding(crate::specs::Reading::command_line))]
    fn command_line(
        &mut self,
        sizes: &Sizes,
        line: &[u8],
        word: &[u8],
        at: usize,
    ) -> Result<(), Stop>
        requires { (word.now, at) ≡ first_word line.now }
        ensures { Follows result self.new (command_line self.old sizes.now line.now) }
    {
        let (actor, at) = actor_at(sizes, line, word, at)?;
        if self.is_full() {
            return Err(flaw(FaultKind::TooManyCommands));
        }
        let order = order_at(self.alloc, sizes, line, actor, at)?;
        self.add(Command { actor, order })
    }

    /// Reads the line that begins a block.
    #[tactic(auto, unfolding(crate::specs::Reading::times_line))]
    fn times_line(&mut self, line: &[u8], at: usize) -> Result<(), Stop>
        requires { at ≡ (first_word line.now).1 }
        ensures { Follows result self.new (times_line self.old line.now) }
    {
        if self.turns.is_some() {
            return Err(flaw(FaultKind::UnknownWord));
        }
        let (turns, at) = number_at(line, at, 1, MOST_TURNS)?;
        end_at(line, at)?;
        self.begun = true;
        self.turns = Some(turns);
        self.body.clear();
        Ok(())
    }

    /// Reads the line that ends a block: its commands are repeated for each of its turns.
    #[tactic(auto, unfolding(crate::specs::Reading::end_line))]
    fn end_line(&mut self, line: &[u8], at: usize) -> Result<(), Stop>
        requires { at ≡ (first_word line.now).1 }
        ensures { Follows result self.new (end_line self.old line.now) }
    {
        let Some(turns) = self.turns else {
            return Err(flaw(FaultKind::EndWithoutTimes));
        };
        if passes_limit(self.commands.len(), turns, self.body.len()) {
            return Err(flaw(FaultKind::TooManyCommands));
        }
        end_at(line, at)?;
        add_turns(&mut self.commands, turns, &self.body)?;
        self.turns = None;
        self.body.clear();
        Ok(())
    }

    #[tactic(auto, unfolding(crate::specs::Reading::part_line))]
    fn part_line(&mut self, sizes: &Sizes, line: &[u8], word: &[u8], at: usize) -> Result<(), Stop>
        requires { (word.now, at) ≡ first_word line.now }
        ensures { Follows result self.new (part_line self.old sizes.now line.now) }
    {
        if word == b"times".as_slice() {
            self.times_line(line, at)
        } else if word == b"end".as_slice() {
            self.end_line(line, at)
        } else {
            self.command_line(sizes, line, word, at)
        }
    }

    #[tactic(auto, unfolding(crate::specs::Reading::later_line))]
    fn later_line(&mut self, sizes: &Sizes, line: &[u8]) -> Result<(), Stop>
        ensures { Follows result self.new (later_line self.old sizes.now line.now) }
    {
        let (word, at) = first_word(line);
        if word == b"layout".as_slice() && !self.begun && self.layouts.len() < MOST_LAYOUTS {
            self.layout_line(sizes, line, at)
        } else if self.layouts.len() == 0 {
            Err(flaw(FaultKind::LayoutLineExpected))
        } else {
            self.part_line(sizes, line, word, at)
        }
    }

    /// Reads the next line, without its newline. After an error no more lines may be read.
    #[tactic(auto, unfolding(crate::specs::Reading::line_in))]
    fn line(&mut self, line: &[u8]) -> Result<(), Stop>
        ensures { Follows result self.new (line_in self.old line.now) }
    {
        if is_idle(line) {
            return Ok(());
        }
        match self.sizes {
            None => self.heap_line(line),
            Some(sizes) => self.later_line(&sizes, line),
        }
    }

    /// Returns what was read, at the end of the lines. `number` is that of the line after them.
    #[tactic(auto, unfolding(crate::specs::Reading::finished))]
    fn finished(self, number: usize) -> Result<(Config, Vec<Command>), ParseFault>
        ensures { Gives (λ x. script_of x.0 x.1.items) result (finished number self) }
    {
        let Reading {
            sizes,
            layouts,
            commands,
            turns,
            ..
        } = self;
        let kind = match sizes {
            None => FaultKind::HeapLineExpected,
            Some(sizes) => {
                if layouts.len() == 0 {
                    FaultKind::LayoutLineExpected
                } else if turns.is_some() {
                    FaultKind::TimesWithoutEnd
                } else {
                    return Ok((sizes.config(layouts), commands));
                }
            }
        };
        Err(ParseFault::Line(LineFault {
            line: number,
            column: 1,
            kind,
        }))
    }

    /// Returns what was read, if the bytes after the last newline are `rest`.
    #[tactic(auto, unfolding(crate::specs::Reading::last_line))]
    fn last_line(mut self, number: usize, rest: &[u8]) -> Result<(Config, Vec<Command>), ParseFault>
        ensures { Gives (λ x. script_of x.0 x.1.items) result (last_line number self rest.now) }
    {
        if rest.len() == 0 {
            return self.finished(number);
        }
        match self.line(rest) {
            Err(Stop::Memory) => Err(ParseFault::Memory),
            Err(Stop::Flaw(flaw)) => Err(ParseFault::Line(LineFault {
                line: number,
                column: flaw.column,
                kind: flaw.kind,
            })),
            Ok(()) => Err(ParseFault::Line(LineFault {
                line: number,
                column: rest.len() + 1,
                kind: FaultKind::NewlineExpected,
            })),
        }
    }
}

/// Returns whether commands, with a block's for each of its turns, are more than a script may have.
fn passes_limit(commands: usize, turns: u64, body: usize) -> bool
    ensures { result ≡ nat_lt MOST_COMMANDS (commands + turns * body) }
{
    commands as u128 + turns as u128 * body as u128 > MOST_COMMANDS as u128
}

/// Appends the commands of a block for each of its turns. An empty block takes no time. Fails only if out of memory.
fn add_turns(commands: &mut Vec<Command>, turns: u64, body: &[Command]) -> Result<(), AllocError>
    ensures { OnOk result (commands.new.items ≡ commands.old.items ++ repeat turns body.now) }
{
    if body.is_empty() {
        return Ok(());
    }
    for _ in 0..turns {
        add_body(commands, body)?;
    }
    Ok(())
}

/// Appends the commands of a block. Fails only if out of memory.
fn add_body(commands: &mut Vec<Command>, body: &[Command]) -> Result<(), AllocError>
    ensures { OnOk result (commands.new.items ≡ commands.old.items ++ body.now) }
{
    for command in body {
        commands.push(command.share()?)?;
    }
    Ok(())
}

fn first_newline(rest: &[u8]) -> Option<usize>
    ensures place { result ≡ position (λ b. b == 10) rest.now }
    ensures bound { IfSome result (λ i. i < length rest.now) }
{
    rest.iter().position(|b| *b == b'\n')
}

/// Returns the first line, and the bytes after its newline.
pub fn cut_line(rest: &[u8]) -> Option<(&[u8], &[u8])>
    ensures some { IfSome result (λ x. CutsLine rest.now x.0.now x.1.now) }
    ensures none { IfNone result (HasNoNewline rest.now) }
{
    match first_newline(rest) {
        None => None,
        Some(end) => {
            let (line, _) = rest.split_at(end);
            let (_, after) = rest.split_at(end + 1);
            Some((line, after))
        }
    }
}

fn read_line(reading: &mut Reading, number: usize, line: &[u8]) -> Result<(), ParseFault>
    ensures { Gives (λ _. reading.new) result (in_line number (line_in reading.old line.now)) }
{
    match reading.line(line) {
        Err(Stop::Memory) => Err(ParseFault::Memory),
        Err(Stop::Flaw(flaw)) => Err(ParseFault::Line(LineFault {
            line: number,
            column: flaw.column,
            kind: flaw.kind,
        })),
        Ok(()) => Ok(()),
    }
}

/// Returns the configuration and the commands of a script, or its first fault.
#[tactic(auto, using(crate::proofs::Lines::step_ok, crate::proofs::Lines::step_err, crate::proofs::Lines::lines_last), unfolding(crate::specs::Reading::script_in))]
pub fn read(alloc: Global, bytes: &[u8]) -> Result<(Config, Vec<Command>), ParseFault>
    ensures { Gives (λ x. script_of x.0 x.1.items) result (script_in bytes.now) }
{
    let mut reading = Reading::new(alloc);
    let mut rest = bytes;
    let mut number = 1;
    while let Some((line, after)) = cut_line(rest) {
        read_line(&mut reading, number, line)?;
        rest = after;
        number += 1;
    }
    reading.last_line(number, rest)
}
