//! The tests.

use crate::sharing::shares;
use known_registers::ManagedHeap;
use layout::{Layout, Layouts};
use managed::Config;
use std::alloc::Global;
use std::test::*;

/// Returns a heap of two threads, in pages of 64 words.
fn heap_of(alloc: Global) -> Result<ManagedHeap, Fail> {
    let layouts = Layouts::new(vec![in alloc; Layout { refs: 1, nums: 1 }]?);
    let mut config = Config::new(64, 32, layouts);
    config.threads = 2;
    Ok(ManagedHeap::new(alloc, config)?)
}

#[test]
fn registers_are_found_again(rt: HostRuntime) -> Result<(), Fail> {
    let heap = heap_of(rt.alloc())?;
    let counted = match shares(&rt, rt.alloc(), heap) {
        Ok(counted) => counted,
        Err(refusal) => return Err(Fail::from(refusal)),
    };
    assert_eq!(rt; counted, 3);
    Ok(())
}
