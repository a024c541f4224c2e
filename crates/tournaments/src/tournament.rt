//! Finds the first number of a list that is at least some size.

ghost use Rattle.std.specs.Prelude.{◌≡◌, ◌<◌, ◌≤◌, ◌*◌, ◌^◌, ◌+◌, ◌/◌, length, slice_set, slice_index, replicate, drop};
ghost use Rattle.std.specs.Prelude.{position, nat_le, IfOk};
ghost use Rattle.model.specs.declared.limits.TheConstants.{MOST_PAGES};
ghost use Rattle.tournaments.specs.Tournaments.{IsTree, IsTreeBut, IsFirstFrom};

use std::alloc::{AllocError, Global};
use std::marker::Model;

/// A list of up to 1,048,575 numbers. Finding the first number of at least some size, and replacing a number, take
/// one step for each binary digit of the list's length.
///
/// The numbers are the leaves of a binary tree, in which each other node has the greater of the two numbers below it.
/// The nodes below node `n` are `2 * n` and `2 * n + 1`, and node 1 is the root.
#[derive(Drop)]
pub struct Tournament {
    count: usize,
    depth: u32,
    width: usize,
    nodes: Vec<u32, Global>,
}

impl Model for Tournament {
    ghost use Rattle.std.specs.Prelude.{List, ℕ};

    ghost Value = { List ℕ };

    ghost use Rattle.tournaments.specs.Tournaments.{numbers_of, IsTournament};

    ghost view = { numbers_of };

    ghost invariant = { IsTournament };
}

/// Returns the depth of a tree for a number of leaves, and how many leaves it has space for.
fn size_for(count: u32) -> (u32, usize)
    requires { count ≤ MOST_PAGES }
    ensures width { result.1 ≡ 2 ^ result.0 }
    ensures room { count ≤ result.1 }
    ensures range { result.1 ≤ 2 ^ 21 }
{
    let mut depth = 0;
    let mut width = 1;
    while width < count as usize {
        depth += 1;
        width *= 2;
    }
    (depth, width)
}

/// Sets each node above the leaves to the greater of the two numbers below it.
fn link(nodes: &mut [u32], width: usize)
    requires { length nodes.old ≡ 2 * width }
    ensures tree { IsTree nodes.new width }
    ensures leaves { drop width nodes.new ≡ drop width nodes.old }
    ensures len { length nodes.new ≡ length nodes.old }
{
    let mut node = width;
    while node > 1 {
        node -= 1;
        nodes[node] = nodes[2 * node].max(nodes[2 * node + 1]);
    }
}

/// Sets each node above a leaf to the greater of the two numbers below it. Only the leaf may have changed.
fn settle(nodes: &mut [u32], width: usize, leaf: usize)
    requires sized { length nodes.old ≡ 2 * width }
    requires there { leaf < length nodes.old }
    requires others { IsTreeBut nodes.old width (leaf / 2) }
    ensures tree { IsTree nodes.new width }
    ensures leaves { drop width nodes.new ≡ drop width nodes.old }
    ensures len { length nodes.new ≡ length nodes.old }
{
    let mut node = leaf;
    while node > 1 {
        node /= 2;
        nodes[node] = nodes[2 * node].max(nodes[2 * node + 1]);
    }
}

/// Returns the first leaf of at least `n`. The root must be at least `n`.
fn descend(nodes: &[u32], depth: u32, n: u32) -> usize
    requires sized { length nodes.now ≡ 2 * 2 ^ depth }
    requires tree { IsTree nodes.now (2 ^ depth) }
    requires root { n ≤ slice_index nodes.now 1 }
    ensures { IsFirstFrom nodes.now (2 ^ depth) n result }
{
    let mut node = 1;
    for _level in 0..depth {
        node *= 2;
        if nodes[node] < n {
            node += 1;
        }
    }
    node
}

impl Tournament {
    /// Returns a list of `count` copies of a number: at most 1,048,575. Fails only if out of memory.
    pub fn new(alloc: Global, count: u32, value: u32) -> Result<Tournament, AllocError>
        requires { count ≤ MOST_PAGES }
        ensures { IfOk result (λ t. t ≡ replicate count value) }
    {
        let (depth, width) = size_for(count);
        let count = count as usize;
        let mut nodes = Vec::with_capacity(alloc, 2 * width)?;
        nodes.resize(width, 0)?;
        nodes.resize(width + count, value)?;
        nodes.resize(2 * width, 0)?;
        link(&mut nodes, width);
        Ok(Tournament {
            count,
            depth,
            width,
            nodes,
        })
    }

    /// Replaces the number of an index, which must be below the list's length.
    pub fn set(&mut self, index: usize, value: u32)
        requires { index < length self.old }
        ensures { self.new ≡ slice_set self.old index value }
    {
        let leaf = self.width + index;
        self.nodes[leaf] = value;
        settle(&mut self.nodes, self.width, leaf);
    }

    /// Returns the index of the first number that is at least `n`, which must be above 0.
    pub fn first_at_least(&self, n: u32) -> Option<usize>
        requires { 0 < n }
        ensures { result ≡ position (λ v. nat_le n v) self.now }
    {
        if self.nodes[1] < n {
            return None;
        }
        Some(descend(&self.nodes, self.depth, n) - self.width)
    }
}
