//! The roots of an image, and the passes over them with which a walk begins.

ghost use Rattle.std.specs.Prelude.{◌≡◌, ◌<◌, ◌≤◌, ◌+◌, [], length, get_or, MatchBool};
ghost use Rattle.verify.specs.Soundness.{root_value};
ghost use Rattle.verify.specs.Faults.{HasFault, at, first_load, first_global, first_field};
ghost use Rattle.verify.specs.Walks.{IsWalk, Keeps};
ghost use Rattle.verify.specs.Searches.{IsPassed, PassedBefore, FoundRoot, FoundReached};
ghost use Rattle.verify.specs.declared.verdict.Fault.TheVariants as faults;

use crate::chart::Chart;
use crate::image::Image;
use crate::spots::Spots;
use crate::verdict::Root;
use crate::walk::Walk;

impl Image {
    /// Returns the value of a root, if there is such a root.
    fn root(&self, root: Root) -> Option<u64>
        ensures { result ≡ root_value self.now root }
    {
        match root {
            Root::Register(t, r) => self.registers.get(t)?.get(r as u64),
            Root::Pending(t) => *self.loads.get(t)?,
            Root::Global(g) => self.globals.get(g).copied(),
        }
    }

    /// Returns how many threads have registers.
    fn thread_count(&self) -> usize
        ensures { result ≡ length self.now.registers }
    {
        self.registers.len()
    }

    /// Returns the number of registers of a thread.
    fn register_count(&self, thread: usize) -> usize
        ensures { result ≡ length (get_or self.now.registers thread []) }
    {
        match self.registers.get(thread) {
            None => 0,
            Some(registers) => registers.words.len(),
        }
    }

    /// Returns how many threads may have loads.
    fn load_count(&self) -> usize
        ensures { result ≡ length self.now.loads }
    {
        self.loads.len()
    }

    /// Returns the number of globals.
    fn global_count(&self) -> usize
        ensures { result ≡ length self.now.globals }
    {
        self.globals.len()
    }
}

impl Walk {
    /// Visits the address to which a root leads, and returns whether the root's value is good.
    fn pass(&mut self, chart: &Chart, root: Root) -> bool
        requires sized { 0 < chart.now.words }
        requires walk { IsWalk chart.now self.old }
        ensures walk { IsWalk chart.now self.new }
        ensures kept { Keeps self.old self.new }
        ensures passed { MatchBool result (IsPassed chart.now self.new root) (HasFault chart.now (faults.Root root)) }
    {
        let Some(value) = chart.image().root(root) else {
            return true;
        };
        match chart.leads(value) {
            None => false,
            Some(None) => true,
            Some(Some(to)) => {
                self.visit(to);
                true
            }
        }
    }

    /// Passes a thread's registers. Returns the first whose value isn't good.
    fn pass_thread(&mut self, chart: &Chart, thread: usize) -> Option<Root>
        requires sized { 0 < chart.now.words }
        requires walk { IsWalk chart.now self.old }
        requires before { PassedBefore chart.now self.old (at 1 thread 0) }
        ensures walk { IsWalk chart.now self.new }
        ensures found { FoundRoot chart.now self.new (at 1 (thread + 1) 0) result }
    {
        for r in 0..chart.image().register_count(thread) {
            let root = Root::Register(thread, r);
            if !self.pass(chart, root) {
                return Some(root);
            }
        }
        None
    }

    /// Passes all registers. Returns the first whose value isn't good.
    fn pass_registers(&mut self, chart: &Chart) -> Option<Root>
        requires sized { 0 < chart.now.words }
        requires walk { IsWalk chart.now self.old }
        ensures walk { IsWalk chart.now self.new }
        ensures found { FoundRoot chart.now self.new first_load result }
    {
        for t in 0..chart.image().thread_count() {
            if let Some(root) = self.pass_thread(chart, t) {
                return Some(root);
            }
        }
        None
    }

    /// Passes all loads. Returns the first whose current reference isn't good.
    fn pass_loads(&mut self, chart: &Chart) -> Option<Root>
        requires sized { 0 < chart.now.words }
        requires walk { IsWalk chart.now self.old }
        requires before { PassedBefore chart.now self.old first_load }
        ensures walk { IsWalk chart.now self.new }
        ensures found { FoundRoot chart.now self.new first_global result }
    {
        for t in 0..chart.image().load_count() {
            let root = Root::Pending(t);
            if !self.pass(chart, root) {
                return Some(root);
            }
        }
        None
    }

    /// Passes all globals. Returns the first whose value isn't good.
    fn pass_globals(&mut self, chart: &Chart) -> Option<Root>
        requires sized { 0 < chart.now.words }
        requires walk { IsWalk chart.now self.old }
        requires before { PassedBefore chart.now self.old first_global }
        ensures walk { IsWalk chart.now self.new }
        ensures found { FoundRoot chart.now self.new first_field result }
    {
        for g in 0..chart.image().global_count() {
            let root = Root::Global(g);
            if !self.pass(chart, root) {
                return Some(root);
            }
        }
        None
    }

    /// Passes all roots. Returns the first whose value isn't good.
    fn pass_roots(&mut self, chart: &Chart) -> Option<Root>
        requires sized { 0 < chart.now.words }
        requires walk { IsWalk chart.now self.old }
        ensures walk { IsWalk chart.now self.new }
        ensures found { FoundRoot chart.now self.new first_field result }
    {
        if let Some(root) = self.pass_registers(chart) {
            return Some(root);
        }
        if let Some(root) = self.pass_loads(chart) {
            return Some(root);
        }
        self.pass_globals(chart)
    }
}

/// Returns which addresses are reached, by a walk that has met nothing yet. Fails with the first root whose value
/// isn't good.
pub(crate) fn find_reached(mut walk: Walk, chart: &Chart) -> Result<Spots, Root>
    requires sized { 0 < chart.now.words }
    requires walk { IsWalk chart.now walk }
    ensures { FoundReached chart.now result }
{
    if let Some(root) = walk.pass_roots(chart) {
        return Err(root);
    }
    walk.finish(chart);
    Ok(walk.into_spots())
}
