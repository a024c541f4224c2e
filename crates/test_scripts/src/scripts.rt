//! Reading scripts. The program itself tests their faults, by `tests/faults.txt`.
//!
//! `rt try --test --fail-alloc N` lets the Nth allocation of a test fail: `parse` then returns that it is out of
//! memory.

use crate::same::{done, same};
use layout::Layout;
use model::Config;
use parser::{Command, Order, ParseFault, Script, parse};
use std::alloc::{AllocError, Global};
use std::process::Abort;
use std::test::Fail;
use test_support_samples::sizes;

const HEAD: &str =
    "heap words 16 frames 1 pages 1 threads 1 workers 1 registers 2 globals 0\nlayout 0 2\n";

fn parse_parts(alloc: Global, front: &str, rest: &str) -> Result<Script, ParseFault> {
    let mut text = String::from_str(alloc, front)?;
    text.push_str(rest)?;
    parse(alloc, text.as_bytes())
}

/// Returns the first step of an order, and what follows it, as a text.
fn step_text(alloc: Global, order: &Order) -> Result<String, AllocError> {
    let step = order.step(alloc)?;
    let then = order.then();
    format!(in alloc; "{step:?} {then:?}")
}

/// Returns whether the orders' steps have these texts.
fn has_steps(alloc: Global, script: &Script, texts: &[&str]) -> Result<bool, AllocError> {
    let mut is_so = script.commands().len() == texts.len();
    for (command, text) in script.commands().iter().zip(texts.iter()) {
        is_so = is_so && step_text(alloc, &command.order)?.as_str() == *text;
    }
    Ok(is_so)
}

/// A script of these lines has orders whose steps have these texts.
fn reads(rt: &impl Abort, alloc: Global, lines: &str, texts: &[&str]) -> Result<(), Fail> {
    let script = parse_parts(alloc, HEAD, lines)?;
    same(rt, has_steps(alloc, &script, texts)?, true);
    Ok(())
}

#[test]
fn blocks_written_out(rt: HostRuntime) -> Result<(), Fail> {
    let rest = "t0 give\ntimes 2\nt0 trap\n\n# a comment\nt0 heal\nend\ntimes 9\nend\n\
        times 1\nt0 finish\nend\nt0 cross\n";
    let texts = [
        "GiveBack Nothing",
        "Trap Nothing",
        "Heal Nothing",
        "Trap Nothing",
        "Heal Nothing",
        "Finish Nothing",
        "Cross Nothing",
    ];
    reads(&rt, rt.alloc(), rest, &texts)
}

#[test]
fn steps_of_orders(rt: HostRuntime) -> Result<(), Fail> {
    let rest = "t0 load r0 r1 2\nt0 loadg r1 3\nt0 store r1 2 r0\nt0 storeg 3 r1\n\
        t0 scrub r1\nt0 park\nt0 unpark\nt0 get r0 r1 2\nt0 getg r1 3\n";
    let texts = [
        "Load { target: 0, object: 1, field: 2 } Nothing",
        "LoadGlobal { target: 1, global: 3 } Nothing",
        "Store { object: 1, field: 2, source: 0 } Nothing",
        "StoreGlobal { global: 3, source: 1 } Nothing",
        "Scrub(1) Nothing",
        "Park Nothing",
        "Unpark Nothing",
        "Load { target: 0, object: 1, field: 2 } LoadsEnd",
        "LoadGlobal { target: 1, global: 3 } LoadsEnd",
    ];
    reads(&rt, rt.alloc(), rest, &texts)
}

#[test]
fn steps_of_workers(rt: HostRuntime) -> Result<(), Fail> {
    let rest = "w0 mark\nw0 pick 1.15\nw0 pick 4294967295.0\nw0 scan\nw0 scang 7\nw0 crossfor t0\n\
        w0 endmark\nw0 drain\n";
    let texts = [
        "StartMark Nothing",
        "Pick { page: 1, offset: 15 } Nothing",
        "Pick { page: 4294967295, offset: 0 } Nothing",
        "ScanField Nothing",
        "ScanGlobal(7) Nothing",
        "CrossFor(0) Nothing",
        "EndMark Nothing",
        "ScanField Drains",
    ];
    reads(&rt, rt.alloc(), rest, &texts)
}

#[test]
fn steps_that_relocate(rt: HostRuntime) -> Result<(), Fail> {
    let rest =
        "w0 protect 7\ntimes 2\nw0 protect 3 1 4294967295\nend\nw0 protect 0 2 2\nw0 copy 3 1\nw0 release 3\n";
    let texts = [
        "Protect(PageList { pages: [7] }) Nothing",
        "Protect(PageList { pages: [3, 1, 4294967295] }) Nothing",
        "Protect(PageList { pages: [3, 1, 4294967295] }) Nothing",
        "Protect(PageList { pages: [0, 2, 2] }) Nothing",
        "Copy { page: 3, entry: 1 } Nothing",
        "Release(3) Nothing",
    ];
    reads(&rt, rt.alloc(), rest, &texts)
}

#[test]
fn the_size_of_a_command(rt: HostRuntime) {
    same(&rt, std::mem::size_of::<Command>(), 48);
}

/// The configuration has the numbers of the heap line.
fn has_numbers(rt: &impl Abort, config: &Config) {
    same(rt, sizes(config), [16, 1, 1, 1, 1, 2, 0]);
    same(rt, (config.births, config.history), (1 << 32, 1_000_000));
}

fn has_layouts(rt: &impl Abort, config: &Config, layouts: &[Layout]) {
    same(rt, config.layouts.as_slice(), layouts);
}

#[test]
fn a_configuration(rt: HostRuntime) {
    let lines = "# layouts\nlayout 3 4\nt0 give\n";
    let script = done(&rt, parse_parts(rt.alloc(), HEAD, lines));
    let (config, commands) = script.into_parts();
    same(&rt, commands.len(), 1);
    has_numbers(&rt, &config);
    let layouts = [Layout { refs: 0, nums: 2 }, Layout { refs: 3, nums: 4 }];
    has_layouts(&rt, &config, &layouts);
}

#[test]
fn orders_of_data(rt: HostRuntime) -> Result<(), Fail> {
    let rest = "\n# all commands\nt0 take 16\nt0 new r1 0\n\nt0 datum r1 3\n\
        t0 set r1 0 18446744073709551615\nt0 same r0 r1\nt0 null r0\nt0 mov r0 r1\n#\nt0 clear r1\nt0 give\n";
    let texts = [
        "Take(16) Nothing",
        "New { target: 1, layout: 0 } Nothing",
        "Datum { object: 1, index: 3 } Nothing",
        "SetDatum { object: 1, index: 0, value: 18446744073709551615 } Nothing",
        "Same { left: 0, right: 1 } Nothing",
        "IsNull(0) Nothing",
        "CopyReg { target: 0, source: 1 } Nothing",
        "ClearReg(1) Nothing",
        "GiveBack Nothing",
    ];
    reads(&rt, rt.alloc(), rest, &texts)
}
