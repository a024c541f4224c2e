//! Commands of a script.

ghost use Rattle.std.specs.Prelude.{◌≡◌, ◌∷◌, IfOk, OnErr};
ghost use Rattle.parser.specs.Orders.{step_of, then_of};
ghost use Rattle.parser.specs.Words.{page_in, offset_in};

use crate::number_list::NumberList;
use crate::verbs::Verb;
use model::{Actor, PageList, Step};
use std::alloc::{AllocError, Global};

/// An order: a verb, and its operands in the order of their words. Operands that the verb doesn't have are 0.
/// Registers count from 0 and exist; other numbers that a step can reject are as in the script.
#[derive(Drop)]
pub struct Order {
    /// The verb.
    pub verb: Verb,
    /// The first operand of 32 bits.
    pub first: u32,
    /// The second operand of 32 bits.
    pub second: u32,
    /// The third operand of 32 bits.
    pub third: u32,
    /// The operand of 64 bits, which follows the others. An address is its page times 2^32, plus its offset.
    pub wide: u64,
    /// The numbers after the operands, for a verb that allows them.
    pub more: NumberList,
}

/// One command of a script.
#[derive(Drop)]
pub struct Command {
    /// The actor that does it.
    pub actor: Actor,
    /// Its order.
    pub order: Order,
}

/// What follows an order's step.
#[derive(Clone, Copy, Debug, PartialEq, Eq)]
pub enum Then {
    /// Nothing: the order is one step.
    Nothing,
    /// The other steps of the load that it opens, to its end.
    LoadsEnd,
    /// All steps of a worker that scan, until none is left or one is rejected. The order's step is the first of them
    /// if the worker is scanning an object.
    Drains,
    /// All steps of a cycle, in a run by threads. The order's step is the first of them.
    Cycles,
    /// The steps of a cycle until pages are protected, in a run by threads. The order's step is the first of them.
    Rolls,
}

impl Order {
    /// Returns the order's step; for `get` and `getg` the first one, which opens the load; for `drain` the one with
    /// which it begins if the worker is scanning an object. Fails only if out of memory, and only for `protect`.
    pub fn step(&self, alloc: Global) -> Result<Step, AllocError>
        ensures value { IfOk result (λ step. step ≡ step_of self.now) }
        ensures fault { OnErr result (self.now.verb ≡ Verb.Protect) }
    {
        let (first, second, third) = (self.first, self.second, self.third);
        let step = match self.verb {
            Verb::Take => Step::Take(first),
            Verb::Give => Step::GiveBack,
            Verb::New => Step::New {
                target: first,
                layout: second,
            },
            Verb::Load | Verb::Get => load(first, second, third),
            Verb::LoadGlobal | Verb::GetGlobal => load_global(first, second),
            Verb::Trap => Step::Trap,
            Verb::Heal => Step::Heal,
            Verb::Finish => Step::Finish,
            Verb::Store => store(first, second, third),
            Verb::StoreGlobal => Step::StoreGlobal {
                global: first,
                source: second,
            },
            Verb::Datum => Step::Datum {
                object: first,
                index: second,
            },
            Verb::Set => set_datum(first, second, self.wide),
            Verb::Same => Step::Same {
                left: first,
                right: second,
            },
            Verb::Null => Step::IsNull(first),
            Verb::Move => Step::CopyReg {
                target: first,
                source: second,
            },
            Verb::Clear => Step::ClearReg(first),
            Verb::Cross => Step::Cross,
            Verb::Scrub => Step::Scrub(first),
            Verb::Park => Step::Park,
            Verb::Unpark => Step::Unpark,
            Verb::Mark | Verb::Cycle | Verb::Roll => Step::StartMark,
            Verb::EndMark => Step::EndMark,
            Verb::Pick => pick(self.wide),
            Verb::Scan | Verb::Drain => Step::ScanField,
            Verb::ScanGlobal => Step::ScanGlobal(first),
            Verb::CrossFor => Step::CrossFor(first),
            Verb::Protect => protect(alloc, first, self.more.as_slice())?,
            Verb::Copy => copy(first, second),
            Verb::CopyAll => Step::CopyPage(first),
            Verb::Release => Step::Release(first),
        };
        Ok(step)
    }

    /// Returns the order once more, which takes no memory. Fails only if its numbers are shared too often.
    fn share(&self) -> Result<Order, AllocError>
        ensures { IfOk result (λ order. order ≡ self.now) }
    {
        let more = self.more.share()?;
        Ok(Order {
            verb: self.verb,
            first: self.first,
            second: self.second,
            third: self.third,
            wide: self.wide,
            more,
        })
    }

    /// Returns what follows the step, once it is done.
    pub fn then(&self) -> Then
        ensures { result ≡ then_of self.now }
    {
        match self.verb {
            Verb::Get | Verb::GetGlobal => Then::LoadsEnd,
            Verb::Drain => Then::Drains,
            Verb::Cycle => Then::Cycles,
            Verb::Roll => Then::Rolls,
            _ => Then::Nothing,
        }
    }
}

impl Command {
    /// Returns the command once more, which takes no memory. Fails only if its order's numbers are shared too often.
    pub fn share(&self) -> Result<Command, AllocError>
        ensures { IfOk result (λ command. command ≡ self.now) }
    {
        let order = self.order.share()?;
        Ok(Command {
            actor: self.actor,
            order,
        })
    }
}

fn load(target: u32, object: u32, field: u32) -> Step
    ensures { result ≡ Step.Load target object field }
{
    Step::Load {
        target,
        object,
        field,
    }
}

fn load_global(target: u32, global: u32) -> Step
    ensures { result ≡ Step.LoadGlobal target global }
{
    Step::LoadGlobal { target, global }
}

fn store(object: u32, field: u32, source: u32) -> Step
    ensures { result ≡ Step.Store object field source }
{
    Step::Store {
        object,
        field,
        source,
    }
}

fn set_datum(object: u32, index: u32, value: u64) -> Step
    ensures { result ≡ Step.SetDatum object index value }
{
    Step::SetDatum {
        object,
        index,
        value,
    }
}

/// Returns the step that protects a page and others. Fails only if out of memory.
fn protect(alloc: Global, page: u32, others: &[u32]) -> Result<Step, AllocError>
    ensures { IfOk result (λ step. step ≡ Step.Protect (page ∷ others.now)) }
{
    let mut pages = Vec::new(alloc);
    pages.push(page)?;
    pages.extend_from_slice(others)?;
    Ok(Step::Protect(PageList::new(pages)))
}

fn copy(page: u32, entry: u32) -> Step
    ensures { result ≡ Step.Copy page entry }
{
    Step::Copy { page, entry }
}

/// Returns the step that picks the object at an address of 64 bits.
fn pick(address: u64) -> Step
    ensures { result ≡ Step.Pick (page_in address) (offset_in address) }
{
    Step::Pick {
        page: (address / (1 << 32)) as u32,
        offset: (address % (1 << 32)) as u32,
    }
}
