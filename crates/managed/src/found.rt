//! Steps on an object that was found, so that several of them look it up once; and single steps that are done at
//! once or not at all.

ghost use Rattle.std.specs.Prelude.{◌≡◌, ◌≢◌, IfSome, Ok};
ghost use Rattle.cycle.specs.Mutating.{ThreadStands};
ghost use Rattle.fast_paths.specs.AtOnce.{GivesDatum, GivesSame, NamesHeader};
ghost use Rattle.fast_paths.specs.Found.{FindsObject};
ghost use Rattle.model.specs.declared.steps.Answer.TheVariants as answers;
ghost use Rattle.model.specs.declared.steps.Step.TheVariants as steps;
ghost use Rattle.page.specs.Whole.{AreWhole};
ghost use Rattle.managed.specs.Found.{MayStep};
ghost use Rattle.managed.specs.Goings.{MayLoadWhole};

use crate::managed::ManagedHeap;
use fast_paths::{
    FoundObject, datum_found, find_object, header_found, load_found, same_at_once, set_datum_found,
    store_found,
};

impl ManagedHeap {
    /// Returns the object that a register of a thread names, both numbered from 0, if the thread runs, its barrier
    /// is closed, and it may use the object.
    #[inline(always)]
    pub(crate) fn find_object(&self, thread: u32, register: u32) -> Option<FoundObject>
        ensures { IfSome result (FindsObject self.now thread register) }
    {
        self.sound();
        find_object(self.heap(), thread, register)
    }

    /// Proves that what registers name has its place on a page and in the tables. It does nothing: its contract is
    /// the law.
    fn sound(&self)
        ensures { AreWhole self.now }
    {
        self.law();
        self.heap().law();
        refinement::naming_law();
    }

    /// Does a complete load of a reference of an object that was found, if no test rejects it and no trap is due.
    /// Returns whether it did; if not, nothing is done.
    #[inline(always)]
    pub(crate) fn read_found(
        &mut self,
        found: FoundObject,
        thread: u32,
        target: u32,
        object: u32,
        field: u32,
    ) -> bool
        requires { FindsObject self.old thread object found }
        ensures loads { MayLoadWhole result self.old thread (steps.Load target object field) self.new }
        ensures found { target ≢ object → FindsObject self.new thread object found }
    {
        self.sound();
        self.heap.law();
        refinement::law();
        load_found(&mut self.heap, found, thread, target, object, field)
    }

    /// Stores a register's reference in a field of an object that was found, if no test rejects it. Returns whether
    /// it did; if not, nothing is done.
    #[inline(always)]
    pub(crate) fn store_found(
        &mut self,
        found: FoundObject,
        thread: u32,
        object: u32,
        field: u32,
        source: u32,
    ) -> bool
        requires { FindsObject self.old thread object found }
        ensures does { MayStep result self.old thread (steps.Store object field source) self.new }
        ensures found { FindsObject self.new thread object found }
    {
        self.sound();
        self.heap.law();
        refinement::law();
        store_found(&mut self.heap, found, thread, object, field, source)
    }

    /// Writes a data word of an object that was found, if no test rejects it. Returns whether it did; if not,
    /// nothing is done.
    #[inline(always)]
    pub(crate) fn set_datum_found(
        &mut self,
        found: FoundObject,
        thread: u32,
        object: u32,
        index: u32,
        value: u64,
    ) -> bool
        requires { FindsObject self.old thread object found }
        ensures does { MayStep result self.old thread (steps.SetDatum object index value) self.new }
        ensures found { FindsObject self.new thread object found }
    {
        self.heap.law();
        refinement::law();
        set_datum_found(&mut self.heap, found, thread, object, index, value)
    }

    /// Does a complete load of a reference at once, if no test rejects it and no trap is due. Returns whether it
    /// did; if not, nothing is done, and `read` loads it by its steps.
    #[inline(always)]
    pub fn read_at_once(&mut self, thread: u32, target: u32, object: u32, field: u32) -> bool
        ensures { MayLoadWhole result self.old thread (steps.Load target object field) self.new }
    {
        let Some(found) = self.find_object(thread, object) else {
            return false;
        };
        self.read_found(found, thread, target, object, field)
    }

    /// Stores a reference at once, if no test rejects it. Returns whether it did; if not, nothing is done, and
    /// `store` returns why.
    #[inline(always)]
    pub fn store_at_once(&mut self, thread: u32, object: u32, field: u32, source: u32) -> bool
        ensures { MayStep result self.old thread (steps.Store object field source) self.new }
    {
        let Some(found) = self.find_object(thread, object) else {
            return false;
        };
        self.store_found(found, thread, object, field, source)
    }

    /// Returns a data word of an object, if no test rejects it; if one does, `datum` returns why.
    #[inline(always)]
    pub fn datum_at_once(&self, thread: u32, object: u32, index: u32) -> Option<u64>
        ensures gives { IfSome result (GivesDatum self.now thread object index) }
        ensures stands { IfSome result (λ value. ThreadStands answers.Datum self.now thread (steps.Datum object index)
            (Ok value) self.now) }
    {
        self.heap().law();
        refinement::law();
        let found = self.find_object(thread, object)?;
        let value = datum_found(self.heap(), found, thread, object, index)?;
        Some(value)
    }

    /// Returns whether two registers of a thread name the same object, or both none, if no test rejects it; if one
    /// does, `same` returns why.
    #[inline(always)]
    pub fn same_at_once(&self, thread: u32, left: u32, right: u32) -> Option<bool>
        ensures gives { IfSome result (GivesSame self.now thread left right) }
        ensures stands { IfSome result (λ truth. ThreadStands answers.Truth self.now thread (steps.Same left right)
            (Ok truth) self.now) }
    {
        self.heap().law();
        refinement::law();
        let truth = same_at_once(self.heap(), thread, left, right)?;
        Some(truth)
    }

    /// Returns the header of the object that a register of a thread names, both numbered from 0, if the thread runs,
    /// its barrier is closed, and it may use the object.
    #[inline(always)]
    pub fn header_at_once(&self, thread: u32, register: u32) -> Option<u64>
        ensures { IfSome result (NamesHeader self.now thread register) }
    {
        let found = self.find_object(thread, register)?;
        let header = header_found(self.heap(), found, thread, register)?;
        Some(header)
    }

    /// Writes a data word of an object at once, if no test rejects it. Returns whether it did; if not, nothing is
    /// done, and `set_datum` returns why.
    #[inline(always)]
    pub fn set_datum_at_once(&mut self, thread: u32, object: u32, index: u32, value: u64) -> bool
        ensures { MayStep result self.old thread (steps.SetDatum object index value) self.new }
    {
        let Some(found) = self.find_object(thread, object) else {
            return false;
        };
        self.set_datum_found(found, thread, object, index, value)
    }
}
