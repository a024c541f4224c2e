//! What a worker does before it may scan complete objects.

ghost use Rattle.std.specs.Prelude.{◌≡◌, ◌<◌, ◌≤◌, true, MatchBool, is_some};
ghost use Rattle.std.specs.List.{list_any};
ghost use Rattle.drains.specs.Drains.{IsReady};
ghost use Rattle.model.specs.Bits.{of_page};
ghost use Rattle.model.specs.Cycles.{is_uncopied};
ghost use Rattle.model.specs.Scans.{scan_of};
ghost use Rattle.managed.specs.Goings.{Goes, GoesFar, IsDrain, StandsForSame};
ghost use Rattle.managed.specs.Preparing.{IsFree, IsPrepared, MayWork, PageDone, Prepares, ScansField, ScansNothing};
ghost use Rattle.managed.specs.Preparing.{TellsDone};

use crate::managed::ManagedHeap;
use drains::may_scan;
use model::{Actor, Step};

impl ManagedHeap {
    /// Makes a worker ready to scan complete objects, if a mark runs that all threads have crossed: scans the object
    /// that it has to its end, and copies the pages that have uncopied objects. Otherwise nothing is done, and no
    /// scan of this worker would be accepted.
    pub fn prepare(&mut self, worker: u32)
        ensures goes { Goes (IsDrain worker) self.old self.new }
        ensures stands { StandsForSame self.old self.new }
        ensures prepared { IsPrepared worker self.new }
    {
        self.prepare_steps(worker);
    }

    fn prepare_steps(&mut self, worker: u32)
        ensures goes { Goes (IsDrain worker) self.old self.new }
        ensures prepared { IsPrepared worker self.new }
    {
        if self.may_work(worker) {
            self.finish_fields(worker);
            self.copy_all_left(worker);
        }
    }

    /// Does a part of `prepare`: scans the object that the worker has to its end; if it has none, copies one page
    /// completely. Returns true if something was done; false if nothing of it is left. How much a part does is
    /// tested (`test_collecting::marks`), in no clause.
    pub fn prepare_some(&mut self, worker: u32) -> bool
        ensures { Prepares worker self.old result self.new }
    {
        if !self.may_work(worker) {
            return false;
        }
        if self.has_object(worker) {
            self.finish_object(worker)
        } else {
            self.copy_next(worker)
        }
    }

    /// Returns whether a mark runs that all threads have crossed, and a worker is there.
    fn may_work(&self, worker: u32) -> bool
        ensures { MatchBool result (MayWork worker self.now) (ScansNothing worker self.now) }
    {
        if may_scan(self.heap()) {
            (worker as usize) < self.heap().workers().len()
        } else {
            false
        }
    }

    /// Returns whether a worker is there, and has an object.
    fn has_object(&self, worker: u32) -> bool
        ensures { result ≡ is_some (scan_of self.now worker) }
    {
        match self.heap().workers().get(worker as usize) {
            None => false,
            Some(scan) => scan.is_some(),
        }
    }

    /// Scans the next field of the object that a worker has, or ends that object.
    fn scan_field(&mut self, worker: u32)
        requires work { MayWork worker self.old }
        requires busy { is_some (scan_of self.old worker) ≡ true }
        ensures { ScansField worker self.old self.new }
    {
        self.heap().law();
        let _ = self.step(Actor::Worker(worker), &Step::ScanField);
    }

    /// Scans the object that a worker has to its end. Returns true.
    fn finish_object(&mut self, worker: u32) -> bool
        requires work { MayWork worker self.old }
        requires busy { is_some (scan_of self.old worker) ≡ true }
        ensures { Prepares worker self.old result self.new }
    {
        self.scan_field(worker);
        self.finish_fields(worker);
        true
    }

    /// Scans the object that a worker has to its end, if it has one.
    fn finish_fields(&mut self, worker: u32)
        requires { MayWork worker self.old }
        ensures goes { Goes (IsDrain worker) self.old self.new }
        ensures free { IsFree worker self.new }
    {
        for _done in 0..u64::MAX {
            if !self.has_object(worker) {
                return;
            }
            self.scan_field(worker);
        }
    }

    /// Copies a page completely, by its number from 1, if it has uncopied objects. Returns whether it had.
    fn copy_left(&mut self, worker: u32, page: u32) -> bool
        requires free { IsFree worker self.old }
        requires low { 0 < page }
        requires high { page ≤ self.old.store.count }
        ensures done { PageDone worker self.old page self.new }
        ensures told { TellsDone worker self.old result self.new }
    {
        if self.heap().sides().is_copied(page) {
            return false;
        }
        self.copy_there(worker, page);
        true
    }

    /// Copies a page that has uncopied objects completely.
    fn copy_there(&mut self, worker: u32, page: u32)
        requires free { IsFree worker self.old }
        requires low { 0 < page }
        requires high { page ≤ self.old.store.count }
        requires left { list_any is_uncopied (of_page self.old.sides page) ≡ true }
        ensures done { PageDone worker self.old page self.new }
        ensures goes { GoesFar (IsDrain worker) 1 self.old self.new }
    {
        self.law();
        let _ = self.step(Actor::Worker(worker), &Step::CopyPage(page));
    }

    /// Copies all pages that have uncopied objects.
    fn copy_all_left(&mut self, worker: u32)
        requires { IsFree worker self.old }
        ensures goes { Goes (IsDrain worker) self.old self.new }
        ensures ready { IsReady self.new worker }
    {
        let count = self.heap().memory().page_count();
        for index in 0..count {
            if self.heap().sides().uncopied() == 0 {
                return;
            }
            self.copy_left(worker, index + 1);
        }
        self.heap().law();
    }

    /// Copies the first page that has uncopied objects. Returns whether there was one.
    fn copy_next(&mut self, worker: u32) -> bool
        requires { IsFree worker self.old }
        ensures { Prepares worker self.old result self.new }
    {
        if self.heap().sides().uncopied() == 0 {
            return false;
        }
        let count = self.heap().memory().page_count();
        for index in 0..count {
            if self.copy_left(worker, index + 1) {
                return true;
            }
        }
        self.heap().law();
        false
    }
}
