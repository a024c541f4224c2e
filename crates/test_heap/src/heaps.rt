//! Heaps that can't be made.

use crate::same::{same, same_at};
use heap::{Config, ConfigFault, Heap, NewFault};
use layout::{Layout, Layouts};
use std::alloc::{AllocError, Global};
use std::process::Abort;
use std::test::Fail;
use test_support_samples::small;

/// All faults, in the order in which they are tested.
const FAULTS: [ConfigFault; 10] = [
    ConfigFault::Words,
    ConfigFault::Frames,
    ConfigFault::Pages,
    ConfigFault::Threads,
    ConfigFault::Workers,
    ConfigFault::Registers,
    ConfigFault::Globals,
    ConfigFault::Layouts,
    ConfigFault::Births,
    ConfigFault::History,
];

/// Puts a field out of its range.
fn spoil(alloc: Global, config: &mut Config, fault: ConfigFault) -> Result<(), AllocError> {
    match fault {
        ConfigFault::Words => config.words = 24,
        ConfigFault::Frames => config.frames = 0,
        ConfigFault::Pages => config.pages = 0,
        ConfigFault::Threads => config.threads = 1025,
        ConfigFault::Workers => config.workers = 0,
        ConfigFault::Registers => config.registers = 65_536,
        ConfigFault::Globals => config.globals = 65_536,
        ConfigFault::Layouts => {
            config.layouts = Layouts::new(vec![in alloc; Layout { refs: 0, nums: 16 }]?);
        }
        ConfigFault::Births => config.births = (1 << 56) + 1,
        ConfigFault::History => config.history = 0,
    }
    Ok(())
}

fn told(alloc: Global, config: Config) -> Option<ConfigFault> {
    match Heap::new(alloc, config).err() {
        Some(NewFault::Config(fault)) => Some(fault),
        _ => None,
    }
}

/// The fault is returned, before one of the history.
fn is_told(rt: &impl Abort, alloc: Global, fault: ConfigFault) -> Result<(), AllocError> {
    let mut config = small(alloc)?;
    spoil(alloc, &mut config, fault)?;
    same(rt, told(alloc, config), Some(fault));
    let mut config = small(alloc)?;
    spoil(alloc, &mut config, ConfigFault::History)?;
    spoil(alloc, &mut config, fault)?;
    same_at(rt, "before the history", told(alloc, config), Some(fault));
    Ok(())
}

#[test]
fn the_first_fault_is_told(rt: HostRuntime) -> Result<(), Fail> {
    for fault in FAULTS {
        is_told(&rt, rt.alloc(), fault)?;
    }
    Ok(())
}
