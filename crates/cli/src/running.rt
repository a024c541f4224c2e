//! Reading a script, and running or checking it on one thread.

ghost use Rattle.std.specs.Prelude.{◌≡◌, ◌+◌, [], true, IfErr, IfSome, OnOk, IfOk};
ghost use Rattle.parser.specs.Orders.{needs_threads};
ghost use Rattle.parser.specs.Scripts.{script_alone};
ghost use Rattle.parser.specs.declared.script.TheConstants.{MOST_BYTES};
ghost use Rattle.std.specs.Io.Buffered.{writer_buffer, writer_contents};
ghost use Rattle.std.specs.Io.KnownBytes.{Appends, Keeps};
ghost use Rattle.script.specs.Output.{output_text};
ghost use Rattle.cli.specs.Running.{HasFault, HoldsScript, IsNoScript, Prints, ReadsUpTo, fault_status};

use crate::asking::Asked;
use script::{Checked, MOST_BYTES, ParseFault, RunFault, Script, by_check, by_schedule, parse};
use std::alloc::Global;
use std::io;
use std::io::{BufWriter, Read as _, Write as _};

/// Why a script wasn't run to its end.
#[derive(Clone, Copy, Debug, PartialEq, Eq)]
pub enum ServeFault {
    /// The file can't be read.
    Read,
    /// The bytes are no script.
    Parse(ParseFault),
    /// The run ended early.
    Run(RunFault),
}

/// Writes the line of a file that can't be opened to `errors`, and returns the exit status, which is 3. If out of
/// memory, the line reports that.
pub fn not_opened<E: io::Write>(asked: &Asked, error: &io::Error, errors: &mut E) -> u8
    ensures { result ≡ 3 }
{
    if matches!(error.kind(), io::ErrorKind::OutOfMemory) {
        let _ = writeln!(errors, "pauseless: out of memory");
        return 3;
    }
    cannot_read(asked, errors)
}

/// Writes the line of a file that can't be read, and returns the exit status.
fn cannot_read<E: io::Write>(asked: &Asked, errors: &mut E) -> u8
    ensures { result ≡ 3 }
{
    let file = asked.file();
    let _ = writeln!(errors, "pauseless: cannot read {file}");
    3
}

/// Returns how many bytes are read at most: one more than `MOST_BYTES`.
fn most_read() -> u64
    ensures { result ≡ MOST_BYTES + 1 }
{
    MOST_BYTES as u64 + 1
}

/// Returns the bytes of a script: at most one more than `MOST_BYTES`.
fn read_bytes<R: io::Read>(alloc: Global, reader: &mut R) -> Result<Vec<u8>, ServeFault>
    ensures bytes { IfOk result (λ bytes. ReadsUpTo (R.remaining reader.old) bytes.items) }
    ensures faults { IfErr result (λ fault. fault_status fault ≡ 3) }
{
    let mut bytes = Vec::new(alloc);
    let limit = most_read();
    let lent = &mut *reader;
    match lent.take(limit).read_to_end(&mut bytes) {
        Ok(_) => Ok(bytes),
        Err(error) => Err(match error.kind() {
            io::ErrorKind::OutOfMemory => ServeFault::Run(RunFault::Memory),
            _ => ServeFault::Read,
        }),
    }
}

/// Returns the script that bytes spell.
fn script_in(alloc: Global, bytes: &[u8]) -> Result<Script, ServeFault>
    ensures read { IfOk result (λ script. HoldsScript script bytes.now) }
    ensures faults { IfErr result (λ fault. fault_status fault ≡ 2 → IsNoScript bytes.now) }
{
    if bytes.len() > MOST_BYTES {
        return Err(ServeFault::Parse(ParseFault::TooLong));
    }
    match parse(alloc, bytes) {
        Ok(script) => Ok(script),
        Err(fault) => Err(ServeFault::Parse(fault)),
    }
}

/// Reads a script. `ServeFault::tell` reports its error.
pub(crate) fn read_script<R: io::Read>(alloc: Global, reader: &mut R) -> Result<Script, ServeFault>
    ensures read { IfOk result (λ script. IfSome (R.remaining reader.old) (HoldsScript script)) }
    ensures faults { IfErr result (λ fault. fault_status fault ≡ 2 → IfSome (R.remaining reader.old) IsNoScript) }
{
    let bytes = read_bytes(alloc, reader)?;
    script_in(alloc, &bytes)
}

/// Runs the script that the bytes spell.
fn run_bytes<W: io::Write + Drop>(
    alloc: Global,
    bytes: &[u8],
    output: &mut BufWriter<W>,
) -> Result<(), ServeFault>
    ensures prints { OnOk result (Prints W.contents output.old output.new bytes.now) }
    ensures flushed { OnOk result (writer_buffer output.new ≡ []) }
    ensures faults { IfErr result (λ fault. fault_status fault ≡ 2 → HasFault bytes.now) }
    ensures kept { IfErr result (λ fault. fault_status fault ≡ 2 → output.new ≡ output.old) }
{
    let script = script_in(alloc, bytes)?;
    run_script(alloc, &script, output)
}

fn run_script<W: io::Write + Drop>(
    alloc: Global,
    script: &Script,
    output: &mut BufWriter<W>,
) -> Result<(), ServeFault>
    ensures prints { OnOk result
        (Appends (writer_contents W.contents output.old) (writer_contents W.contents output.new)
        (output_text (script_alone script.now))) }
    ensures flushed { OnOk result (writer_buffer output.new ≡ []) }
    ensures faults { IfErr result (λ fault. fault_status fault ≡ 2 → needs_threads script.now.commands ≡ true) }
    ensures kept { IfErr result (λ fault. fault_status fault ≡ 2 → output.new ≡ output.old) }
{
    match by_schedule(alloc, script, output) {
        Ok(()) => flushed(output),
        Err(fault) => Err(ServeFault::Run(fault)),
    }
}

/// Writes what is left in the buffer.
pub(crate) fn flushed<W: io::Write + Drop>(output: &mut BufWriter<W>) -> Result<(), ServeFault>
    ensures keeps { OnOk result
        (Keeps (writer_contents W.contents output.old) (writer_contents W.contents output.new)) }
    ensures empty { OnOk result (writer_buffer output.new ≡ []) }
    ensures faults { IfErr result (λ fault. fault_status fault ≡ 3) }
{
    match output.flush() {
        Ok(()) => Ok(()),
        Err(_) => Err(ServeFault::Run(RunFault::Write)),
    }
}

impl ServeFault {
    /// Writes its line to standard error, and returns the exit status.
    pub fn tell<E: io::Write>(self, asked: &Asked, errors: &mut E) -> u8
        ensures { result ≡ fault_status self }
    {
        match self {
            ServeFault::Read => return cannot_read(asked, errors),
            ServeFault::Parse(fault) => {
                let _ = writeln!(errors, "pauseless: {fault}");
            }
            ServeFault::Run(fault) => {
                let _ = writeln!(errors, "pauseless: {fault}");
            }
        }
        match self {
            ServeFault::Parse(ParseFault::Line(_) | ParseFault::TooLong)
            | ServeFault::Run(RunFault::Line(_)) => 2,
            _ => 3,
        }
    }
}

/// Reads a script and runs it.
pub(crate) fn run<R: io::Read, W: io::Write + Drop>(
    alloc: Global,
    reader: &mut R,
    output: &mut BufWriter<W>,
) -> Result<(), ServeFault>
    ensures prints { OnOk result (IfSome (R.remaining reader.old) (Prints W.contents output.old output.new)) }
    ensures flushed { OnOk result (writer_buffer output.new ≡ []) }
    ensures faults { IfErr result (λ fault. fault_status fault ≡ 2 → IfSome (R.remaining reader.old) HasFault) }
    ensures kept { IfErr result (λ fault. fault_status fault ≡ 2 → output.new ≡ output.old) }
{
    let bytes = read_bytes(alloc, reader)?;
    run_bytes(alloc, &bytes, output)
}

/// Runs a script, and verifies its heap after each step.
fn check_script<W: io::Write + Drop>(
    alloc: Global,
    script: &Script,
    output: &mut BufWriter<W>,
) -> Result<u8, ServeFault>
    ensures sound { IfOk result (λ status. status ≡ 0) }
    ensures flushed { OnOk result (writer_buffer output.new ≡ []) }
    ensures faults { IfErr result (λ fault. fault_status fault ≡ 2 → needs_threads script.now.commands ≡ true) }
    ensures kept { IfErr result (λ fault. fault_status fault ≡ 2 → output.new ≡ output.old) }
{
    match by_check(alloc, script, output) {
        Ok(checked) => {
            flushed(output)?;
            Ok(match checked {
                Checked::Sound(_) => 0,
                Checked::Faulty(_) => 1,
            })
        }
        Err(fault) => Err(ServeFault::Run(fault)),
    }
}

/// Runs the script that the bytes spell, and verifies its heap after each step.
fn check_bytes<W: io::Write + Drop>(
    alloc: Global,
    bytes: &[u8],
    output: &mut BufWriter<W>,
) -> Result<u8, ServeFault>
    ensures sound { IfOk result (λ status. status ≡ 0) }
    ensures flushed { OnOk result (writer_buffer output.new ≡ []) }
    ensures faults { IfErr result (λ fault. fault_status fault ≡ 2 → HasFault bytes.now) }
    ensures kept { IfErr result (λ fault. fault_status fault ≡ 2 → output.new ≡ output.old) }
{
    let script = script_in(alloc, bytes)?;
    check_script(alloc, &script, output)
}

/// Reads a script, runs it, and verifies its heap after each step. Returns the exit status: 0 if the heap is sound, 1
/// if a verification found a fault, which none does.
pub(crate) fn check<R: io::Read, W: io::Write + Drop>(
    alloc: Global,
    reader: &mut R,
    output: &mut BufWriter<W>,
) -> Result<u8, ServeFault>
    ensures sound { IfOk result (λ status. status ≡ 0) }
    ensures flushed { OnOk result (writer_buffer output.new ≡ []) }
    ensures faults { IfErr result (λ fault. fault_status fault ≡ 2 → IfSome (R.remaining reader.old) HasFault) }
    ensures kept { IfErr result (λ fault. fault_status fault ≡ 2 → output.new ≡ output.old) }
{
    let bytes = read_bytes(alloc, reader)?;
    check_bytes(alloc, &bytes, output)
}
