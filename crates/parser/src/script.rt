//! A complete script.

ghost use Rattle.std.specs.Prelude.{◌≡◌, ◌↔◌, ℕ, List, IfOk, IfSome};
ghost use Rattle.std.specs.Option.{is_some};
ghost use Rattle.std.specs.List.{All};
ghost use Rattle.model.specs.Configs.{IsConfig};
ghost use Rattle.parser.specs.Limits.{IsScriptConfig};
ghost use Rattle.parser.specs.declared.fault.LineFault.{LineFault};
ghost use Rattle.parser.specs.declared.spots.Sought.TheVariants as sought;
ghost use Rattle.parser.specs.Reading.{ScriptValue, script_of, script_in};
ghost use Rattle.parser.specs.Spelling.{IsCommand, IsScript, Spells};
ghost use Rattle.parser.specs.Orders.{needs_schedule, needs_threads};
ghost use Rattle.parser.specs.Scripts.{IsReadOf, IsTooLong, script_alone};
ghost use Rattle.parser.specs.Spots.{IsFirstSpot, spots_in};
ghost use Rattle.parser.specs.Faults.{FaultsShareLine, TellsFirst};

use crate::fault::ParseFault;
use crate::order::Command;
use crate::reading::read;
use crate::spots::{Spots, find_spots};
use model::Config;
use std::alloc::Global;
use std::marker::Model;

/// The greatest number of bytes of a script.
pub const MOST_BYTES: usize = 4_194_304;

/// A script: the configuration of its heap, and its commands in order. All its numbers are in their ranges, and its
/// actors and registers exist.
#[derive(Drop)]
pub struct Script {
    config: Config,
    commands: Vec<Command>,
    /// The places of its first commands that not every kind of run does.
    spots: Spots,
}

impl Model for Script {
    ghost use Rattle.parser.specs.Scripts.{ParsedScript, IsParsed};
    ghost use Rattle.parser.specs.Views.{script_value};

    ghost Value = { ParsedScript };

    ghost view = { script_value };

    ghost invariant = { λ s. IsParsed (script_value s) };
}

impl Script {
    /// Returns the configuration of its heap.
    pub fn config(&self) -> &Config
        ensures value { result.now ≡ self.now.config }
        ensures valid { IsConfig result.now }
        ensures limits { IsScriptConfig result.now }
    {
        &self.config
    }

    /// Returns its commands in order.
    pub fn commands(&self) -> &[Command]
        ensures value { result.now ≡ self.now.commands }
        ensures valid { All (IsCommand self.now.config) result.now }
    {
        &self.commands
    }

    /// Returns the places of its first commands that not every kind of run does.
    pub fn spots(&self) -> Spots
        ensures value { result ≡ self.now.spots }
        ensures cycle { is_some result.cycle ≡ needs_threads self.now.commands }
        ensures other { is_some result.other ≡ needs_schedule self.now.commands }
    {
        self.spots
    }

    /// Returns the configuration and the commands.
    pub fn into_parts(self) -> (Config, Vec<Command>)
        ensures config { result.0 ≡ self.config }
        ensures commands { result.1.items ≡ self.commands }
        ensures valid { IsScript (script_of result.0 result.1.items) }
    {
        let Script {
            config,
            commands,
            spots: _,
        } = self;
        (config, commands)
    }
}

/// Returns the script that the bytes spell. Fails with `TooLong` if there are more than `MOST_BYTES`, with the first
/// fault, or with `Memory`.
#[tactic(auto, using(crate::proofs::Promises::read_spelled))]
pub fn parse(alloc: Global, bytes: &[u8]) -> Result<Script, ParseFault>
    // It is the script that reading defines, or its first fault.
    ensures read { IsReadOf result (script_in bytes.now) }
    ensures too_long { (result ≡ Err ParseFault.TooLong) ↔ IsTooLong bytes.now }

    // The script is within all limits, and the bytes spell it.
    ensures valid { IfOk result (λ s. IsScript (script_alone s)) }
    ensures spelled { IfOk result (λ s. Spells bytes.now (script_alone s)) }

    // The places of its first commands that not every kind of run does, by the lines: at the verb's word of such a
    // command, and no line before is one.
    ensures spots { IfOk result (λ s. s.spots ≡ spots_in bytes.now) }
    ensures cycle { IfOk result (λ s. IfSome s.spots.cycle (IsFirstSpot sought.Cycle s.config bytes.now)) }
    ensures other { IfOk result (λ s. IfSome s.spots.other (IsFirstSpot sought.Other s.config bytes.now)) }

    // A script within all limits that the bytes spell is returned, unless there are too many bytes or it is out of
    // memory.
    ensures only { (s : ScriptValue) → IsScript s → Spells bytes.now s → IsReadOf result (Ok s) }

    // A fault is the first one: the lines before it have none, and the bytes up to the end of its word begin no
    // script.
    ensures first { TellsFirst bytes.now result }
{
    if bytes.len() > MOST_BYTES {
        return Err(ParseFault::TooLong);
    }
    let (config, commands) = read(alloc, bytes)?;
    Ok(Script {
        config,
        commands,
        spots: find_spots(bytes),
    })
}

/// No bytes spell two scripts within the limits. It does nothing: its contract is the law.
pub fn one_reading()
    ensures { (bytes : List ℕ) (s t : ScriptValue) → IsScript s → IsScript t → Spells bytes s → Spells bytes t → s ≡ t }
{}

/// All first faults of a text are in one line, if no block has too many commands. It does nothing: its contract is
/// the law.
pub fn one_first_line()
    ensures { (bytes : List ℕ) (one other : LineFault) → FaultsShareLine bytes one other }
{}
