//! Several steps of a thread by one call: loads from one object, and the stores that fill a new object.

ghost use Rattle.std.specs.Prelude.{◌≡◌, ◌≤◌, ◌++◌, IfOk, drop, length};
ghost use Rattle.fast_paths.specs.Found.{FindsObject};
ghost use Rattle.managed.specs.Batches.{EndsFilling, EndsLoads, LayoutHas, fill_steps, fill_test};
ghost use Rattle.managed.specs.Batches.{IsRestOfData, IsRestOfLoads, IsRestOfStores};
ghost use Rattle.managed.specs.Batches.{places_test, set_steps, source_test, sources_test, store_steps};

use crate::managed::ManagedHeap;
use crate::mutating::Mutate;
use fast_paths::FoundObject;
use model::Refusal;

/// One of several loads: a register gets a reference of an object.
#[repr(C)]
#[derive(Clone, Copy, Debug, PartialEq, Eq)]
pub struct FieldLoad {
    /// The register that gets the reference.
    pub target: u32,
    /// The reference's number in the object, from 0.
    pub field: u32,
}

/// At which of several loads a call stopped, and why.
#[derive(Clone, Copy, Debug, PartialEq, Eq)]
pub struct LoadsFault {
    /// How many loads are done, from the first one on.
    pub done: usize,
    /// Why the next load failed.
    pub refusal: Refusal,
}

impl ManagedHeap {
    /// Loads several reference fields of the object that a register names, each as `read` does, in their order. A
    /// load whose `target` is that register comes last: later loads would be from the object that the register names
    /// then.
    ///
    /// Stops at the first load that fails, and returns how many are done, and why this one failed. Fails as `read`
    /// does.
    #[inline(always)]
    pub fn loads(
        &mut self,
        thread: u32,
        object: u32,
        fields: &[FieldLoad],
    ) -> Result<(), LoadsFault>
        ensures { EndsLoads thread object 0 fields.now self.old result self.new }
    {
        let Some(found) = self.find_object(thread, object) else {
            return self.load_from(thread, object, fields, 0);
        };
        let done = self.load_first(found, thread, object, fields);
        if done < fields.len() {
            return self.load_from(thread, object, fields, done);
        }
        Ok(())
    }

    /// Loads these references of an object that was found, up to the first that can't be loaded at once, or to the
    /// one after which the object's register names another object. Returns how many are done.
    #[inline(always)]
    fn load_first(
        &mut self,
        found: FoundObject,
        thread: u32,
        object: u32,
        fields: &[FieldLoad],
    ) -> usize
        requires { FindsObject self.old thread object found }
        ensures { IsRestOfLoads thread object 0 self.old fields.now result self.new }
    {
        for done in 0..fields.len() {
            let load = fields[done];
            if !self.read_found(found, thread, load.target, object, load.field) {
                return done;
            }
            if load.target == object {
                return done + 1;
            }
        }
        fields.len()
    }

    /// Loads references of an object from load `first` on, each by itself.
    #[cold]
    #[inline(never)]
    fn load_from(
        &mut self,
        thread: u32,
        object: u32,
        fields: &[FieldLoad],
        first: usize,
    ) -> Result<(), LoadsFault>
        ensures { EndsLoads thread object first (drop first fields.now) self.old result self.new }
    {
        for done in first..fields.len() {
            let load = fields[done];
            if let Err(refusal) = self.read(thread, load.target, object, load.field) {
                return Err(LoadsFault { done, refusal });
            }
        }
        Ok(())
    }

    /// Tests whether a new object of a layout can be filled: the layout has enough references and data words, and
    /// each source may be stored. The register of the new object may be a source, and then names that object.
    ///
    /// Fails with `BadIndex` if a register or a layout isn't there, or the layout has fewer references or data
    /// words; and with `Stall` or `Stale` if a source may not be used.
    #[inline(always)]
    #[tactic(auto, unfolding(crate::specs::Batches::fill_test))]
    pub fn may_fill(
        &self,
        thread: u32,
        target: u32,
        layout: u32,
        sources: &[u32],
        nums: &[u64],
    ) -> Result<(), Refusal>
        ensures tests { result ≡ fill_test self.now thread target layout sources.now nums.now }
        ensures places { IfOk result (λ _. LayoutHas (length sources.now) (length nums.now)) }
    {
        match self.may_place(layout, sources.len(), nums.len()) {
            Ok(()) => self.may_store_each(thread, target, sources),
            Err(refusal) => Err(refusal),
        }
    }

    /// Tests whether a layout has at least `refs` references and `nums` data words.
    #[inline(always)]
    #[tactic(auto, unfolding(crate::specs::Batches::places_test))]
    fn may_place(&self, layout: u32, refs: usize, nums: usize) -> Result<(), Refusal>
        ensures tests { result ≡ places_test self.now layout refs nums }
        ensures places { IfOk result (λ _. LayoutHas refs nums) }
    {
        let Some(shape) = self.heap.config().layouts.get(layout) else {
            return Err(Refusal::BadIndex);
        };
        if refs > usize::from(shape.refs) {
            return Err(Refusal::BadIndex);
        }
        if nums > usize::from(shape.nums) {
            return Err(Refusal::BadIndex);
        }
        Ok(())
    }

    /// Tests whether each of these registers may be stored in the new object of another register.
    #[inline(always)]
    fn may_store_each(&self, thread: u32, target: u32, sources: &[u32]) -> Result<(), Refusal>
        ensures { result ≡ sources_test self.now thread target sources.now }
    {
        for index in 0..sources.len() {
            if let Err(refusal) = self.may_store(thread, target, sources[index]) {
                return Err(refusal);
            }
        }
        Ok(())
    }

    /// Tests whether a register may be stored in the new object of another register.
    #[inline(always)]
    #[tactic(auto, unfolding(crate::specs::Batches::source_test, model::specs::Outcome::no_register))]
    fn may_store(&self, thread: u32, target: u32, source: u32) -> Result<(), Refusal>
        ensures { result ≡ source_test self.now thread target source }
    {
        if source >= self.heap.config().registers {
            return Err(Refusal::BadIndex);
        }
        if source == target {
            return Ok(());
        }
        match self.heap.usable_or_null(thread, source) {
            Ok(_) => Ok(()),
            Err(refusal) => Err(refusal),
        }
    }

    /// Fills an object: stores the registers `sources` in its first references, and writes `nums` to its first data
    /// words. Stops at the first word that can't be written, and fails as `store` or `set_datum` does; those before
    /// it are written.
    #[inline(always)]
    pub fn fill(
        &mut self,
        thread: u32,
        object: u32,
        sources: &[u32],
        nums: &[u64],
    ) -> Result<(), Refusal>
        requires { LayoutHas (length sources.now) (length nums.now) }
        ensures { EndsFilling thread (fill_steps object sources.now nums.now) self.old result self.new }
    {
        let Some(found) = self.find_object(thread, object) else {
            return self.fill_from(thread, object, sources, nums, 0);
        };
        let stored = self.store_first(found, thread, object, sources);
        if stored < sources.len() {
            return self.fill_from(thread, object, sources, nums, stored);
        }
        let set = self.set_first(found, thread, object, nums);
        if set < nums.len() {
            return self.set_from(thread, object, nums, set);
        }
        Ok(())
    }

    /// Stores these registers in the first references of an object that was found, up to the first that can't be
    /// stored at once. Returns how many are stored.
    #[inline(always)]
    fn store_first(
        &mut self,
        found: FoundObject,
        thread: u32,
        object: u32,
        sources: &[u32],
    ) -> usize
        requires found { FindsObject self.old thread object found }
        requires few { length sources.now ≤ 65535 }
        ensures stores { IsRestOfStores thread object 0 self.old sources.now result self.new }
        ensures found { FindsObject self.new thread object found }
    {
        for index in 0..sources.len() {
            if !self.store_found(found, thread, object, index as u32, sources[index]) {
                return index;
            }
        }
        sources.len()
    }

    /// Writes the first data words of an object that was found, up to the first that can't be written at once.
    /// Returns how many are written.
    #[inline(always)]
    fn set_first(&mut self, found: FoundObject, thread: u32, object: u32, nums: &[u64]) -> usize
        requires found { FindsObject self.old thread object found }
        requires few { length nums.now ≤ 65535 }
        ensures { IsRestOfData thread object 0 self.old nums.now result self.new }
    {
        for index in 0..nums.len() {
            if !self.set_datum_found(found, thread, object, index as u32, nums[index]) {
                return index;
            }
        }
        nums.len()
    }

    /// Fills the rest of an object by single steps; its references before `stored` are written already.
    #[cold]
    #[inline(never)]
    fn fill_from(
        &mut self,
        thread: u32,
        object: u32,
        sources: &[u32],
        nums: &[u64],
        stored: usize,
    ) -> Result<(), Refusal>
        requires { LayoutHas (length sources.now) (length nums.now) }
        ensures { EndsFilling thread
            (store_steps object stored (drop stored sources.now) ++ set_steps object 0 nums.now) self.old result
            self.new }
    {
        match self.store_from(thread, object, sources, stored) {
            Ok(()) => self.set_from(thread, object, nums, 0),
            Err(refusal) => Err(refusal),
        }
    }

    /// Stores these registers in the references of an object, from reference `first` on.
    fn store_from(
        &mut self,
        thread: u32,
        object: u32,
        sources: &[u32],
        first: usize,
    ) -> Result<(), Refusal>
        requires { length sources.now ≤ 65535 }
        ensures { EndsFilling thread (store_steps object first (drop first sources.now)) self.old result self.new }
    {
        for index in first..sources.len() {
            if let Err(refusal) = self.store(thread, object, index as u32, sources[index]) {
                return Err(refusal);
            }
        }
        Ok(())
    }

    /// Writes the data words of an object, from word `first` on.
    #[cold]
    #[inline(never)]
    fn set_from(
        &mut self,
        thread: u32,
        object: u32,
        nums: &[u64],
        first: usize,
    ) -> Result<(), Refusal>
        requires { length nums.now ≤ 65535 }
        ensures { EndsFilling thread (set_steps object first (drop first nums.now)) self.old result self.new }
    {
        for index in first..nums.len() {
            if let Err(refusal) = self.set_datum(thread, object, index as u32, nums[index]) {
                return Err(refusal);
            }
        }
        Ok(())
    }
}
