//! The actor, the verb and the operands of a command.

ghost use Rattle.std.specs.Prelude.{◌≡◌, ◌==◌};
ghost use Rattle.parser.specs.declared.fault.FaultKind.TheVariants.{NoSuchActor};
ghost use Rattle.parser.specs.Words.{named_at, number_at};
ghost use Rattle.parser.specs.Reading.{first_word};
ghost use Rattle.parser.specs.Verbs.{IsSmall, IsWide};
ghost use Rattle.parser.specs.Orders.{register_at, thread_at, operand_at, actor_at, first_byte};
ghost use Rattle.parser.specs.Orders.{does, verb_in, numbers_at, more_at, operands_at, order_at, Finds};

use crate::fault::{FaultKind, Flaw, Stop};
use crate::heading::Sizes;
use crate::number_list::NumberList;
use crate::order::Order;
use crate::verbs::{Kind, Verb, verb_of};
use crate::words::{address_at, end_at, named_at, named_in, number_at, small_at, word_or};
use model::Actor;
use std::alloc::Global;

/// Returns the actor of a line's first word, and the place after it.
#[tactic(auto, unfolding(crate::specs::Orders::actor_at))]
pub fn actor_at(
    sizes: &Sizes,
    line: &[u8],
    word: &[u8],
    after: usize,
) -> Result<(Actor, usize), Flaw>
    requires { (word.now, after) ≡ first_word line.now }
    ensures { result ≡ actor_at sizes.now line.now }
{
    if begins_with_w(line) {
        let (worker, after) = first_named(line, word, after, b'w', sizes.workers)?;
        Ok((Actor::Worker(worker), after))
    } else {
        let (thread, after) = first_named(line, word, after, b't', sizes.threads)?;
        Ok((Actor::Thread(thread), after))
    }
}

/// Returns the number of a line's first word, which must be a letter and a number below `count`, and the place after
/// it.
#[tactic(auto, using(crate::proofs::FirstWords::first_named))]
fn first_named(
    line: &[u8],
    word: &[u8],
    after: usize,
    letter: u8,
    count: u32,
) -> Result<(u32, usize), Flaw>
    requires { (word.now, after) ≡ first_word line.now }
    ensures { result ≡ named_at line.now 0 letter count NoSuchActor }
{
    named_in(word, after, 0, letter, count, FaultKind::NoSuchActor)
}

pub fn begins_with_w(line: &[u8]) -> bool
    ensures { result ≡ (first_byte line.now == 119) }
{
    match line {
        [] => false,
        [first, ..] => *first == b'w',
    }
}

/// Returns whether an actor does a verb.
fn does(actor: Actor, verb: Verb) -> bool
    ensures { result ≡ does actor verb }
{
    match actor {
        Actor::Thread(_) => !verb.is_for_worker(),
        Actor::Worker(_) => verb.is_for_worker(),
    }
}

/// Returns the verb of a word, if the actor does it.
fn verb_in(actor: Actor, word: &[u8]) -> Option<Verb>
    ensures { result ≡ verb_in actor word.now }
{
    match verb_of(word) {
        Some(verb) if does(actor, verb) => Some(verb),
        _ => None,
    }
}

fn thread_at(sizes: &Sizes, line: &[u8], at: usize) -> Result<(u32, usize), Flaw>
    ensures { result ≡ thread_at sizes.now line.now at }
{
    named_at(line, at, b't', sizes.threads, FaultKind::NoSuchActor)
}

#[inline(always)]
#[tactic(auto, unfolding(crate::specs::Orders::register_at))]
fn register_at(sizes: &Sizes, line: &[u8], at: usize) -> Result<(u32, usize), Flaw>
    ensures { result ≡ register_at sizes.now line.now at }
{
    named_at(line, at, b'r', sizes.registers, FaultKind::NoSuchRegister)
}

/// Returns a number from 0 to 100, and the place after it.
fn percent_at(line: &[u8], at: usize) -> Result<(u32, usize), Flaw>
    ensures { result ≡ number_at line.now at 0 100 }
{
    let (value, after) = number_at(line, at, 0, 100)?;
    Ok((value as u32, after))
}

/// Returns an operand of 32 bits, and the place after it.
#[inline(always)]
#[tactic(auto, unfolding(crate::specs::Orders::operand_at))]
fn small_operand_at(sizes: &Sizes, line: &[u8], at: usize, kind: Kind) -> Result<(u32, usize), Flaw>
    requires { IsSmall kind }
    ensures { result ≡ operand_at sizes.now line.now at kind }
{
    match kind {
        Kind::Nothing => Ok((0, at)),
        Kind::Register => register_at(sizes, line, at),
        Kind::Number => small_at(line, at),
        Kind::ThreadName => thread_at(sizes, line, at),
        Kind::Percent => percent_at(line, at),
        Kind::Long | Kind::Address => unreachable!(),
    }
}

/// Returns an operand of 64 bits, and the place after it.
#[inline(always)]
#[tactic(auto, unfolding(crate::specs::Orders::operand_at))]
fn wide_operand_at(sizes: &Sizes, line: &[u8], at: usize, kind: Kind) -> Result<(u64, usize), Flaw>
    requires { IsWide kind }
    ensures { result ≡ operand_at sizes.now line.now at kind }
{
    match kind {
        Kind::Nothing => Ok((0, at)),
        Kind::Long => number_at(line, at, 0, u64::MAX),
        Kind::Address => address_at(line, at, sizes.words),
        Kind::Register | Kind::Number | Kind::ThreadName | Kind::Percent => unreachable!(),
    }
}

/// Returns the numbers of 32 bits from a place to the end of the line, and the place after them.
#[inline(never)]
#[tactic(auto, using(crate::proofs::ManyNumbers::begun, crate::proofs::ManyNumbers::one_more, crate::proofs::ManyNumbers::broken, crate::proofs::ManyNumbers::ended, crate::proofs::ManyNumbers::small_moves))]
fn numbers_at(alloc: Global, line: &[u8], at: usize) -> Result<(NumberList, usize), Stop>
    ensures { Finds result (numbers_at line.now at) }
{
    let mut numbers = Vec::new(alloc);
    let mut place = at;
    while place <= line.len() {
        let (number, after) = small_at(line, place)?;
        numbers.push(number)?;
        place = after;
    }
    Ok((NumberList::new(alloc, numbers)?, place))
}

/// Returns more numbers from a place on, if there may be some, and the place after them.
#[inline(always)]
fn more_at(alloc: Global, line: &[u8], at: usize, more: bool) -> Result<(NumberList, usize), Stop>
    ensures { Finds result (more_at more line.now at) }
{
    if more {
        numbers_at(alloc, line, at)
    } else {
        Ok((NumberList::none(), at))
    }
}

/// Returns the order of a verb, with its operands from a place on, and the place after them.
#[tactic(auto, unfolding(crate::specs::Orders::operands_at))]
fn operands_at(
    alloc: Global,
    sizes: &Sizes,
    line: &[u8],
    at: usize,
    verb: Verb,
) -> Result<(Order, usize), Stop>
    ensures { Finds result (operands_at sizes.now line.now at verb) }
{
    let kinds = verb.kinds();
    let (first, at) = small_operand_at(sizes, line, at, kinds.first)?;
    let (second, at) = small_operand_at(sizes, line, at, kinds.second)?;
    let (third, at) = small_operand_at(sizes, line, at, kinds.third)?;
    let (wide, at) = wide_operand_at(sizes, line, at, kinds.wide)?;
    let (more, at) = more_at(alloc, line, at, kinds.more)?;
    let order = Order {
        verb,
        first,
        second,
        third,
        wide,
        more,
    };
    Ok((order, at))
}

/// Returns the order of an actor from a place to the end of the line.
#[tactic(auto, unfolding(crate::specs::Orders::order_at))]
pub fn order_at(
    alloc: Global,
    sizes: &Sizes,
    line: &[u8],
    actor: Actor,
    at: usize,
) -> Result<Order, Stop>
    ensures { Finds result (order_at sizes.now line.now actor at) }
{
    let (word, after) = word_or(line, at, FaultKind::UnknownWord)?;
    let Some(verb) = verb_in(actor, word) else {
        return Err(Stop::Flaw(Flaw {
            column: at + 1,
            kind: FaultKind::UnknownWord,
        }));
    };
    let (order, end) = operands_at(alloc, sizes, line, after, verb)?;
    end_at(line, end)?;
    Ok(order)
}
