//! Which number of a step names nothing.

ghost use Rattle.std.specs.Prelude.{◌≡◌, ◌≢◌, IfSome};
ghost use Rattle.model.specs.Outcome.{no_register};
ghost use Rattle.collecting.specs.declared.numbers.Number.TheVariants as numbers;
ghost use Rattle.collecting.specs.Numbers.{register_or, wrong_number};

use heap::Heap;
use model::Step;
use std::fmt;

/// The kind of thing that a number of a call names.
#[derive(Clone, Copy, Debug, PartialEq, Eq)]
pub enum Number {
    /// A thread, from 0.
    Thread,
    /// A register of a thread, from 0.
    Register,
    /// A global, from 0.
    Global,
    /// A layout, from 0.
    Layout,
    /// A reference of an object, from 0.
    Field,
    /// A data word of an object, from 0.
    Datum,
    /// The words of a buffer: 1 to the words of a page.
    Words,
}

impl fmt::Display for Number {
    fn fmt<W: fmt::Write>(&self, f: &mut fmt::Formatter<W>) -> fmt::Result {
        match *self {
            Number::Thread => f.write_str("there is no such thread"),
            Number::Register => f.write_str("there is no such register"),
            Number::Global => f.write_str("there is no such global"),
            Number::Layout => f.write_str("there is no such layout"),
            Number::Field => f.write_str("the object has no such reference"),
            Number::Datum => f.write_str("the object has no such data word"),
            Number::Words => f.write_str("no page has a buffer of so many words"),
        }
    }
}

/// Returns whether a heap has no register of this number.
#[tactic(auto, unfolding(model::specs::Outcome::no_register))]
fn no_register(heap: &Heap, register: u32) -> bool
    ensures { result ≡ no_register heap.now register }
{
    register >= heap.config().registers
}

/// Returns `Number::Register` if one of two registers isn't there, else the other number.
fn register_or(heap: &Heap, one: u32, two: u32, other: Number) -> Number
    ensures { result ≡ register_or heap.now one two other }
{
    if no_register(heap, one) || no_register(heap, two) {
        Number::Register
    } else {
        other
    }
}

/// Returns which number of a thread's step names nothing, if the step fails with `BadIndex` on this heap: a register
/// if one isn't there, else the step's other number. `None` for a step without a number, or of a worker. A rejected
/// step leaves the heap as it was, so this may be called after it.
pub fn wrong_number(heap: &Heap, step: &Step) -> Option<Number>
    ensures number { result ≡ wrong_number heap.now step.now }
    ensures known { IfSome result (λ n. n ≢ numbers.Thread) }
{
    let wrong = match step {
        Step::Take(_) => Number::Words,
        Step::New { target, .. } => register_or(heap, *target, *target, Number::Layout),
        Step::Load { target, object, .. } => register_or(heap, *target, *object, Number::Field),
        Step::LoadGlobal { target, .. } => register_or(heap, *target, *target, Number::Global),
        Step::Store { object, source, .. } => register_or(heap, *object, *source, Number::Field),
        Step::StoreGlobal { source, .. } => register_or(heap, *source, *source, Number::Global),
        Step::Datum { object, .. } => register_or(heap, *object, *object, Number::Datum),
        Step::SetDatum { object, .. } => register_or(heap, *object, *object, Number::Datum),
        Step::Same { .. } | Step::IsNull(_) | Step::CopyReg { .. } => Number::Register,
        Step::ClearReg(_) | Step::Scrub(_) => Number::Register,
        _ => return None,
    };
    Some(wrong)
}
