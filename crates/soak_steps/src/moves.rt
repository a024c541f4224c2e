//! The steps of threads.

use crate::numbers::{index, small};
use crate::setups::Habits;
use cycle::Step;
use heap::{Config, Heap};
use test_support_samples::Dice;

/// The state of a thread.
#[derive(Clone, Copy)]
struct Stance {
    is_loading: bool,
    is_parked: bool,
    has_crossed: bool,
    has_buffer: bool,
}

/// Returns the state of a thread of a heap.
fn stance_of(heap: &Heap, thread: u32) -> Stance {
    match heap.threads().get(thread as usize) {
        None => Stance {
            is_loading: false,
            is_parked: false,
            has_crossed: true,
            has_buffer: false,
        },
        Some(thread) => Stance {
            is_loading: thread.barrier().is_some(),
            is_parked: thread.is_parked(),
            has_crossed: thread.has_crossed(),
            has_buffer: thread.buffer().is_some(),
        },
    }
}

/// Returns a step that continues an open load.
fn in_a_load(dice: &mut Dice) -> Step {
    match dice.roll(6) {
        0 | 1 | 2 => Step::Trap,
        3 => Step::Heal,
        _ => Step::Finish,
    }
}

/// Returns the number of a field or of a datum: often the first.
fn place(dice: &mut Dice) -> u32 {
    if dice.hits(2) { 0 } else { index(dice, 6) }
}

/// Returns a step on a field or a datum of an object, or on a global, with random operands.
fn on_memory(dice: &mut Dice, config: &Config) -> Step {
    let (target, object, source) = registers(dice, config);
    let global = index(dice, config.globals);
    let field = place(dice);
    let index = place(dice);
    match dice.roll(12) {
        0 | 1 | 2 => Step::Load {
            target,
            object,
            field,
        },
        3 => Step::LoadGlobal { target, global },
        4 | 5 | 6 | 7 => Step::Store {
            object,
            field,
            source,
        },
        8 | 9 => Step::StoreGlobal { global, source },
        10 => Step::Datum { object, index },
        _ => {
            let value = dice.roll(1 << 31);
            Step::SetDatum {
                object,
                index,
                value,
            }
        }
    }
}

/// Returns three numbers of registers.
fn registers(dice: &mut Dice, config: &Config) -> (u32, u32, u32) {
    let first = index(dice, config.registers);
    let second = index(dice, config.registers);
    let third = index(dice, config.registers);
    (first, second, third)
}

/// Returns a step on registers alone, with random operands.
fn on_registers(dice: &mut Dice, config: &Config) -> Step {
    let (target, left, right) = registers(dice, config);
    match dice.roll(8) {
        0 | 1 => Step::CopyReg {
            target,
            source: left,
        },
        2 => Step::ClearReg(target),
        3 => Step::Same { left, right },
        4 => Step::IsNull(left),
        _ => Step::Scrub(target),
    }
}

/// Returns the size of a buffer: often a complete page; one in sixteen is too large, or 0.
fn size(dice: &mut Dice, config: &Config) -> u32 {
    if dice.hits(2) {
        return config.words;
    }
    index(dice, config.words).saturating_add(1)
}

/// Returns a step that allocates an object, or takes a buffer for it or gives it back, with random operands.
fn births(dice: &mut Dice, config: &Config, has_buffer: bool) -> Step {
    let target = index(dice, config.registers);
    let layout = index(dice, small(config.layouts.as_slice().len()));
    match dice.roll(8) {
        0 | 1 => Step::GiveBack,
        2 => Step::Take(size(dice, config)),
        _ if has_buffer => Step::New { target, layout },
        _ => Step::Take(size(dice, config)),
    }
}

/// Returns a step that the thread may be in no state to do.
fn nonsense(dice: &mut Dice) -> Step {
    match dice.roll(8) {
        0 => Step::Trap,
        1 => Step::Heal,
        2 => Step::Finish,
        3 => Step::Cross,
        4 => Step::Unpark,
        5 => Step::StartMark,
        6 => Step::GiveBack,
        _ => Step::Take(0),
    }
}

/// Returns any step, with random operands.
fn any(dice: &mut Dice, config: &Config, habits: Habits, has_buffer: bool) -> Step {
    if dice.roll(64) == 0 {
        return Step::Park;
    }
    if dice.roll(habits.nonsense.max(1)) == 0 {
        return nonsense(dice);
    }
    match dice.roll(8) {
        0 | 1 | 2 => births(dice, config, has_buffer),
        3 => on_registers(dice, config),
        _ => on_memory(dice, config),
    }
}

/// Returns the next step of a thread: one in a load continues it, an uncrossed one crosses, a parked one soon
/// unparks, and any other does a random step.
pub fn next_move(heap: &Heap, thread: u32, dice: &mut Dice, habits: Habits) -> Step {
    let own = stance_of(heap, thread);
    if own.is_loading {
        return in_a_load(dice);
    }
    if own.is_parked && dice.roll(4) == 0 {
        return Step::Unpark;
    }
    if !own.has_crossed && dice.roll(habits.lateness.max(1)) == 0 {
        return Step::Cross;
    }
    any(dice, heap.config(), habits, own.has_buffer)
}
