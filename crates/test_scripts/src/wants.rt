//! Scripts that are read, run and checked when out of memory. These tests are run with each of their allocations
//! failing in turn: the same call is done when it is repeated. A test then fails as out of memory, or as the writer
//! does if that is a list in memory; else it succeeds.

use crate::same::same;
use parser::{ParseFault, Script, parse};
use script::{RunFault, by_check, by_schedule};
use std::alloc::Global;
use std::process::Abort;
use std::test::Fail;

const SCRIPT: &str =
    "heap words 16 frames 2 pages 3 threads 1 workers 1 registers 2 globals 1\nlayout 1 1\ntimes 2\n\
    t0 take 16\nt0 new r0 0\nt0 storeg 0 r0\nend\nt0 getg r1 0\nt0 give\nw0 mark\nt0 cross\nw0 drain\n\
    w0 endmark\nw0 protect 1\n";

const OUTPUT: &str =
    "1 t0 lent 1.0\n2 t0 birth 0\n3 t0 ok\n4 t0 refused HasBuffer\n5 t0 birth 1\n6 t0 ok\n\
    7 t0 loaded, clear, ok\n8 t0 ok\n9 w0 ok\n10 t0 ok\n11 w0 drained 4\n12 w0 ended live 1 retired 0\n\
    13 w0 protected objects 1 targets 1\nphase protect-crossing nmt 1 births 2 frames 2/2\n\
    page 1 from frame 0 top 16 objects 2 live 1 copied 0/1\npage 2 open frame 1 top 16 objects 0 live 0\n\
    thread 0 running buffer - r0 1.3/1 r1 1.3/1\nglobal 0 1.3/1\ncycle 1 live 1 retired 0\n\
    barrier 0 loads 1 gc 0 nmt 0 healed 0 changed 0\n";

/// The last line of a check.
const VERIFIED: &str = "verified 18\n";

/// Returns what running a script writes.
fn run(alloc: Global, script: &Script) -> Result<Vec<u8>, RunFault> {
    let mut written = Vec::new(alloc);
    by_schedule(alloc, script, &mut written)?;
    Ok(written)
}

/// Returns what checking a script writes.
fn checked(alloc: Global, script: &Script) -> Result<Vec<u8>, RunFault> {
    let mut written = Vec::new(alloc);
    let _ = by_check(alloc, script, &mut written)?;
    Ok(written)
}

/// The complete output was written.
fn is_output(rt: &impl Abort, written: &[u8]) {
    same(rt, written, OUTPUT.as_bytes());
}

/// The complete output of a check was written.
fn is_checked(rt: &impl Abort, written: &[u8]) {
    let size = OUTPUT.len();
    same(rt, written.get(..size), Some(OUTPUT.as_bytes()));
    same(rt, written.get(size..), Some(VERIFIED.as_bytes()));
}

/// Reads a script, and again if that was out of memory, which the second value tells.
fn read(alloc: Global) -> Result<(Script, bool), ParseFault> {
    if let Ok(script) = parse(alloc, SCRIPT.as_bytes()) {
        return Ok((script, false));
    }
    Ok((parse(alloc, SCRIPT.as_bytes())?, true))
}

/// Runs a script, and again if that was out of memory.
fn runs(rt: &impl Abort, alloc: Global, script: &Script) -> Result<(), RunFault> {
    match run(alloc, script) {
        Ok(written) => is_output(rt, &written),
        Err(fault) => {
            is_output(rt, &run(alloc, script)?);
            return Err(fault);
        }
    }
    Ok(())
}

/// Checks a script, and again if that was out of memory.
fn checks(rt: &impl Abort, alloc: Global, script: &Script) -> Result<(), RunFault> {
    match checked(alloc, script) {
        Ok(written) => is_checked(rt, &written),
        Err(fault) => {
            is_checked(rt, &checked(alloc, script)?);
            return Err(fault);
        }
    }
    Ok(())
}

#[test]
fn read_and_run(rt: HostRuntime) -> Result<(), Fail> {
    let (script, lacked) = read(rt.alloc())?;
    runs(&rt, rt.alloc(), &script)?;
    if lacked {
        Err(Fail::from(ParseFault::Memory))
    } else {
        Ok(())
    }
}

#[test]
fn read_and_checked(rt: HostRuntime) -> Result<(), Fail> {
    let (script, lacked) = read(rt.alloc())?;
    checks(&rt, rt.alloc(), &script)?;
    if lacked {
        Err(Fail::from(ParseFault::Memory))
    } else {
        Ok(())
    }
}
