//! Configurations, and lists of pages.

use crate::same::{done, same};
use layout::{Layout, Layouts};
use model::{Config, ConfigFault, PageList};
use std::alloc::{AllocError, Global};
use std::process::Abort;
use std::test::Fail;
use test_support_samples::sizes;

fn small(alloc: Global) -> Result<Config, AllocError> {
    let layouts = vec![in alloc; Layout { refs: 1, nums: 14 }]?;
    Ok(Config {
        words: 16,
        frames: 3,
        pages: 8,
        threads: 2,
        workers: 1,
        registers: 4,
        globals: 0,
        layouts: Layouts::new(layouts),
        births: 1 << 56,
        history: 1_000_000,
    })
}

fn has_fault(rt: &impl Abort, config: &Config, fault: Option<ConfigFault>) {
    same(rt, config.fault(), fault);
}

/// Spoils one number after another, each of which is tested before those spoiled so far.
fn spoil(rt: &impl Abort, config: &mut Config, layouts: Layouts) {
    has_fault(rt, config, None);
    config.history = 1_000_001;
    has_fault(rt, config, Some(ConfigFault::History));
    config.layouts = layouts;
    has_fault(rt, config, Some(ConfigFault::Layouts));
    config.pages = 2;
    has_fault(rt, config, Some(ConfigFault::Pages));
    config.words = 24;
    has_fault(rt, config, Some(ConfigFault::Words));
}

#[test]
fn the_first_fault_is_told(rt: HostRuntime) {
    let large = done(&rt, vec![in rt.alloc(); Layout { refs: 1, nums: 15 }]);
    let mut config = done(&rt, small(rt.alloc()));
    spoil(&rt, &mut config, Layouts::new(large));
}

/// The greatest configuration that a heap can be made with, except for the layouts and the history.
fn greatest(layouts: Layouts) -> Config {
    Config {
        words: 32_768,
        frames: 1_048_575,
        pages: 1_048_575,
        threads: 1024,
        workers: 16,
        registers: 65_535,
        globals: 65_535,
        layouts,
        births: 1 << 56,
        history: 1_000_000,
    }
}

/// Increments each of these fields past its limit, from the last to the first.
fn exceed(rt: &impl Abort, config: &mut Config) {
    config.births = (1 << 56) + 1;
    has_fault(rt, config, Some(ConfigFault::Births));
    config.globals = 65_536;
    has_fault(rt, config, Some(ConfigFault::Globals));
    config.registers = 65_536;
    has_fault(rt, config, Some(ConfigFault::Registers));
    config.threads = 1025;
    has_fault(rt, config, Some(ConfigFault::Threads));
    config.pages = 1_048_576;
    has_fault(rt, config, Some(ConfigFault::Pages));
    config.frames = 1_048_576;
    has_fault(rt, config, Some(ConfigFault::Frames));
}

#[test]
fn the_greatest_numbers(rt: HostRuntime) {
    let layouts = done(&rt, vec![in rt.alloc(); Layout { refs: 1, nums: 1 }; 256]);
    let mut config = greatest(Layouts::new(layouts));
    has_fault(&rt, &config, None);
    exceed(&rt, &mut config);
    let layouts = done(&rt, vec![in rt.alloc(); Layout { refs: 1, nums: 1 }; 257]);
    let config = greatest(Layouts::new(layouts));
    has_fault(&rt, &config, Some(ConfigFault::Layouts));
}

#[test]
fn the_text_of_a_fault(rt: HostRuntime) {
    let text = done(&rt, format!(in rt.alloc(); "{}", ConfigFault::Words));
    same(&rt, text.as_str(), "words out of range");
}

/// The limits of births and entries are the greatest.
fn has_highest_limits(rt: &impl Abort, config: &Config) {
    same(rt, (config.births, config.history), (1 << 56, 1_000_000));
}

#[test]
fn the_usual_values(rt: HostRuntime) {
    let layouts = done(&rt, vec![in rt.alloc(); Layout { refs: 1, nums: 14 }]);
    let config = Config::new(16, 3, Layouts::new(layouts));
    same(&rt, sizes(&config), [16, 3, 6, 1, 1, 16, 64]);
    same(&rt, config.layouts.len(), 1);
    has_highest_limits(&rt, &config);
    has_fault(&rt, &config, None);
}

fn is_copy(rt: &impl Abort, copy: &Config, config: &Config) {
    same(rt, sizes(copy), [16, 3, 8, 2, 1, 4, 0]);
    same(rt, copy.layouts.as_slice(), config.layouts.as_slice());
    has_highest_limits(rt, copy);
}

#[test]
fn a_copy_has_the_same_values(rt: HostRuntime) -> Result<(), Fail> {
    let config = small(rt.alloc())?;
    let copy = config.copy(rt.alloc())?;
    is_copy(&rt, &copy, &config);
    Ok(())
}

#[test]
fn pages_stay_in_order(rt: HostRuntime) {
    let pages = PageList::new(done(&rt, vec![in rt.alloc(); 3, 1]));
    same(&rt, pages.as_slice(), [3, 1].as_slice());
    same(&rt, pages.into_vec().as_slice(), [3, 1].as_slice());
}
