//! Running a script in each mode.

ghost use Rattle.std.specs.Prelude.{◌≡◌, ◌≢◌, ◌≤◌, [], true, false, Ok, IfErr, IfOk, IfSome, IsOk, OnOk};
ghost use Rattle.std.specs.Io.KnownBytes.{Keeps};
ghost use Rattle.std.specs.Io.Buffered.{writer_buffer, writer_contents};
ghost use Rattle.parser.specs.Orders.{needs_schedule};
ghost use Rattle.sharing.specs.Seats.{AreSettled};
ghost use Rattle.cli.specs.Running.{HasFault, IsStatus, Prints, fault_status};
ghost use Rattle.cli.specs.declared.asking.Mode.TheVariants as modes;
ghost use Rattle.cli.specs.Serving.{HasRaceFault, IsRaced, TellsFault, TellsSettled, TellsStray};

use crate::asking::{Asked, Mode};
use crate::running::{ServeFault, check, flushed, read_script, run};
use model::Actor;
use script::{ParseFault, RunFault, Script};
use script_threads::{OpenGate, ThreadsFault, by_threads, tell_stray, tell_threads};
use sharing::Settled;
use std::alloc::Global;
use std::io;
use std::io::BufWriter;
use std::sync::Wait;
use std::thread::Threads;

/// Writes what is left in the buffer, if all was written to it.
fn all_told<W: io::Write + Drop>(
    written: io::Result<()>,
    output: &mut BufWriter<W>,
) -> Result<(), ServeFault>
    ensures keeps { OnOk result
        (Keeps (writer_contents W.contents output.old) (writer_contents W.contents output.new)) }
    ensures written { OnOk result (IsOk written) }
    ensures empty { OnOk result (writer_buffer output.new ≡ []) }
    ensures faults { IfErr result (λ fault. fault_status fault ≡ 3) }
{
    match written {
        Ok(()) => flushed(output),
        Err(_) => Err(ServeFault::Run(RunFault::Write)),
    }
}

/// Writes the lines of a settled run. The status is 0.
fn told_settled<W: io::Write + Drop>(
    settled: &Settled,
    output: &mut BufWriter<W>,
) -> Result<u8, ServeFault>
    requires { AreSettled settled.now.book.history settled.now.seats.items }
    ensures told { OnOk result
        (TellsSettled (writer_contents W.contents output.old) (writer_contents W.contents output.new)) }
    ensures flushed { OnOk result (writer_buffer output.new ≡ []) }
    ensures status { IfOk result (λ status. status ≡ 0) }
    ensures faults { IfErr result (λ fault. fault_status fault ≡ 3) }
{
    settled.book.law();
    let written = tell_threads(settled, output);
    all_told(written, output)?;
    Ok(0)
}

/// Writes the line of a run with a stray actor. The status is 1.
fn told_stray<W: io::Write + Drop>(
    actor: Actor,
    output: &mut BufWriter<W>,
) -> Result<u8, ServeFault>
    ensures told { OnOk result
        (TellsStray (writer_contents W.contents output.old) (writer_contents W.contents output.new)) }
    ensures flushed { OnOk result (writer_buffer output.new ≡ []) }
    ensures status { IfOk result (λ status. status ≡ 1) }
    ensures faults { IfErr result (λ fault. fault_status fault ≡ 3) }
{
    let written = tell_stray(actor, output);
    all_told(written, output)?;
    Ok(1)
}

/// Runs a script by threads, and writes its lines.
fn race_script<S: Threads + Wait + Sync, W: io::Write + Drop>(
    rt: &S,
    alloc: Global,
    script: &Script,
    output: &mut BufWriter<W>,
) -> Result<u8, ServeFault>
    ensures raced { needs_schedule script.now.commands ≡ true → TellsFault script.now.spots.other result }
    ensures settled { result ≡ Ok 0
        → TellsSettled (writer_contents W.contents output.old) (writer_contents W.contents output.new) }
    ensures stray { result ≡ Ok 1
        → TellsStray (writer_contents W.contents output.old) (writer_contents W.contents output.new) }
    ensures flushed { OnOk result (writer_buffer output.new ≡ []) }
    ensures range { IfOk result (λ status. status ≤ 1) }
    ensures faults { IfErr result (λ fault. fault_status fault ≡ 2 → needs_schedule script.now.commands ≡ true) }
    ensures kept { IfErr result (λ fault. fault_status fault ≡ 2 → output.new ≡ output.old) }
{
    match by_threads(rt, alloc, script, &OpenGate) {
        Ok(settled) => {
            let told = told_settled(&settled, output);
            // (by a call: at the end of a scope values are freed in the steps of this function, which are proved)
            drop(settled);
            told
        }
        Err(ThreadsFault::Stray(actor)) => told_stray(actor, output),
        Err(ThreadsFault::Line(fault)) => Err(ServeFault::Parse(ParseFault::Line(fault))),
        Err(ThreadsFault::Memory) => Err(ServeFault::Run(RunFault::Memory)),
    }
}

/// Reads a script, runs it by threads, and writes its lines.
fn race<S: Threads + Wait + Sync, R: io::Read, W: io::Write + Drop>(
    rt: &S,
    alloc: Global,
    reader: &mut R,
    output: &mut BufWriter<W>,
) -> Result<u8, ServeFault>
    ensures script { OnOk result (IfSome (R.remaining reader.old) IsRaced) }
    ensures settled { result ≡ Ok 0
        → TellsSettled (writer_contents W.contents output.old) (writer_contents W.contents output.new) }
    ensures stray { result ≡ Ok 1
        → TellsStray (writer_contents W.contents output.old) (writer_contents W.contents output.new) }
    ensures flushed { OnOk result (writer_buffer output.new ≡ []) }
    ensures range { IfOk result (λ status. status ≤ 1) }
    ensures faults { IfErr result (λ fault. fault_status fault ≡ 2 → IfSome (R.remaining reader.old) HasRaceFault) }
    ensures kept { IfErr result (λ fault. fault_status fault ≡ 2 → output.new ≡ output.old) }
{
    let script = read_script(alloc, reader)?;
    race_script(rt, alloc, &script, output)
}

/// Reads a script and runs it as requested. Writes to `output` and `errors` as to standard output and standard error,
/// and returns the exit status.
///
/// 0: the run is complete; by threads, the seats and the history are settled, and a line for each thread is written.
/// 1: by threads, they aren't settled, and the line of a stray actor is written; in mode `check`, a verification
/// found a fault in the heap, which none does. After 0 and 1 the buffer of the output is empty. 2: the script has a
/// fault, or a command that this mode doesn't do, and `output` is unchanged. 3: out of memory, or the file can't be
/// read, the output can't be written, or a thread can't be started. An error is one line of `errors`.
pub fn serve<S: Threads + Wait + Sync, R: io::Read, W: io::Write + Drop, E: io::Write>(
    rt: &S,
    alloc: Global,
    asked: &Asked,
    reader: &mut R,
    output: &mut BufWriter<W>,
    errors: &mut E,
) -> u8
    ensures range { result ≤ 3 }
    ensures flushed { result ≤ 1 → writer_buffer output.new ≡ [] }
    ensures kept { result ≡ 2 → output.new ≡ output.old }

    // On one thread.
    ensures done { asked.now.mode ≡ modes.Run → result ≡ 0
        → IfSome (R.remaining reader.old) (Prints W.contents output.old output.new) }
    ensures faults { asked.now.mode ≢ modes.Threads → result ≡ 2 → IfSome (R.remaining reader.old) HasFault }
    ensures status { asked.now.mode ≢ modes.Threads → IsStatus result }

    // By threads.
    ensures script { asked.now.mode ≡ modes.Threads → result ≤ 1 → IfSome (R.remaining reader.old) IsRaced }
    ensures settled { asked.now.mode ≡ modes.Threads → result ≡ 0
        → TellsSettled (writer_contents W.contents output.old) (writer_contents W.contents output.new) }
    ensures stray { asked.now.mode ≡ modes.Threads → result ≡ 1
        → TellsStray (writer_contents W.contents output.old) (writer_contents W.contents output.new) }
    ensures race_faults { asked.now.mode ≡ modes.Threads → result ≡ 2
        → IfSome (R.remaining reader.old) HasRaceFault }
{
    match asked.mode() {
        Mode::Run => match run(alloc, reader, output) {
            Ok(()) => 0,
            Err(fault) => fault.tell(asked, errors),
        },
        Mode::Check => match check(alloc, reader, output) {
            Ok(status) => status,
            Err(fault) => fault.tell(asked, errors),
        },
        Mode::Threads => match race(rt, alloc, reader, output) {
            Ok(status) => status,
            Err(fault) => fault.tell(asked, errors),
        },
    }
}
