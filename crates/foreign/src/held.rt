//! The heap of a handle, and the records alongside it.

ghost use Rattle.std.specs.Prelude.{◌≡◌, ◌-◌};
ghost use Rattle.collecting.specs.Targets.{larger};

use collecting::{Collect, Counters, Parts, Target};
use managed::ManagedHeap;

/// A heap, how far a collection in parts has come, how many frames the heap may use until it is collected, and its
/// collections' counters.
#[derive(Drop)]
pub struct Held {
    /// The heap.
    pub heap: ManagedHeap,
    /// How far a collection in parts has come.
    pub parts: Parts,
    /// Whether the heap's memory follows its live objects.
    pub follows: bool,
    /// How many frames the heap may use until it is collected, if so.
    pub target: Target,
    /// The counters of its collections.
    pub counters: Counters,
}

impl Held {
    /// Returns at how many free frames the heap is collected if a policy has `free`: at more if it uses as many
    /// frames as its target allows then. The target is set before, if a call since it was set has collected.
    #[inline(never)]
    pub(crate) fn free_by_target(&mut self, free: u32) -> u32
        ensures heap { self.new.heap ≡ self.old.heap }
        ensures parts { self.new.parts ≡ self.old.parts }
        ensures counters { self.new.counters ≡ self.old.counters }
        ensures free { result ≡ larger free (self.old.heap.config.frames - self.new.target.frames) }
    {
        self.heap.follow(&mut self.target);
        self.target.free(free, self.heap.heap().config().frames)
    }

    /// Sets the target after a call that may have collected, and releases memory that it doesn't allow.
    #[inline(never)]
    pub(crate) fn follow(&mut self)
        ensures heap { self.new.heap ≡ self.old.heap }
        ensures parts { self.new.parts ≡ self.old.parts }
        ensures counters { self.new.counters ≡ self.old.counters }
    {
        self.heap.follow(&mut self.target);
    }
}
