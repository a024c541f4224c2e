//! A heap with its policy, its increment and its counters.

ghost use Rattle.std.specs.Prelude.{◌≡◌};
ghost use Rattle.managed.specs.Managing.{Promises};
ghost use Rattle.typed.specs.Owning.{MakesTyped, with_usual};

use collecting::{Counters, Parts, Policy};
use heap::{Config, NewFault};
use managed::ManagedHeap;
use std::alloc::Global;

/// How many objects a part of a collection may scan, until `set_budget` is called.
pub const USUAL_BUDGET: u32 = 400;

/// A heap with the policy by which it is collected, the increment of its collection in parts, and counters of what its
/// collections have done. Its calls are those of `HeapCalls`.
#[derive(Drop)]
pub struct TypedHeap {
    pub(crate) heap: ManagedHeap,
    pub(crate) policy: Policy,
    pub(crate) budget: u32,
    pub(crate) parts: Parts,
    pub(crate) counters: Counters,
}

impl TypedHeap {
    /// Makes the first heap of a configuration, with its usual policy (`Policy::usual`) and a budget of
    /// `USUAL_BUDGET`. Fails as `ManagedHeap::new` does.
    pub fn new(alloc: Global, config: Config) -> Result<TypedHeap, NewFault>
        ensures { MakesTyped config result }
    {
        match ManagedHeap::new(alloc, config) {
            Ok(heap) => Ok(TypedHeap::from_managed(alloc, heap)),
            Err(fault) => Err(fault),
        }
    }

    /// Owns a managed heap, with the usual policy of its configuration and a budget of `USUAL_BUDGET`. A collection
    /// that has begun is continued.
    pub fn from_managed(alloc: Global, heap: ManagedHeap) -> TypedHeap
        ensures { result ≡ with_usual heap }
    {
        let config = heap.heap().config();
        let policy = Policy::usual(config.words, config.frames);
        TypedHeap {
            heap,
            policy,
            budget: USUAL_BUDGET,
            parts: Parts::new(alloc),
            counters: Counters::new(),
        }
    }

    /// Proves the promises of every heap: `ManagedHeap::law` of the heap inside. It changes nothing and can't fail.
    pub fn law(&self)
        ensures { Promises self.now.heap }
    {
        self.heap.law();
    }

    /// Returns the heap inside, for calls that read it.
    #[inline(always)]
    pub fn managed(&self) -> &ManagedHeap
        ensures { result.now ≡ self.now.heap }
    {
        &self.heap
    }

    /// Returns the heap alone.
    pub fn into_managed(self) -> ManagedHeap
        ensures { result ≡ self.heap }
    {
        self.heap
    }
}
