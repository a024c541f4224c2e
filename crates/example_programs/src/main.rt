//! Small programs on the library: a list, a tree, a cache, and a heap that keeps its history. The list and the tree
//! stay live among many nodes that are dropped, each on a heap that is collected when it is full; the cache lives for
//! millions of steps.
#![tactic(auto)]

mod cache;
mod history;
mod list;
mod nodes;
mod tree;

use anyhow::Result;

fn main(rt: HostRuntime) -> Result<()> {
    let alloc = rt.alloc();
    let sum = list::run(alloc)?;
    let found = tree::run(alloc)?;
    println!(rt; "list {sum}, tree {found}")?;
    let hits = cache::run(alloc)?;
    println!(rt; "cache {hits}")?;
    history::run(&rt)
}
