//! The codes that calls return to C: 0 if a call was done, else the reason. A code's class is its low eight bits;
//! the higher bits are more specific, as which number names nothing.

ghost use Rattle.std.specs.Prelude.{◌≡◌, ◌≢◌};
ghost use Rattle.collecting.specs.declared.numbers.Number.TheVariants as numbers;
ghost use Rattle.foreign.specs.Codes.{BAD_INDEX, class_of, config_code, fault_code, number_code, policy_code};
ghost use Rattle.foreign.specs.Codes.{refusal_code};

use collecting::{Number, PolicyFault};
use model::{ConfigFault, MOST_LAYOUTS, Refusal};

/// The call was done.
pub(crate) const DONE: u32 = 0;

/// The handle has no heap.
pub(crate) const NO_HEAP: u32 = 1;

/// The handle has a heap already.
pub(crate) const HAS_HEAP: u32 = 2;

/// Out of memory.
pub(crate) const NO_MEMORY: u32 = 29;

/// The verifier found a fault.
pub(crate) const UNSOUND: u32 = 40;

/// A number names nothing, and it isn't known which one.
pub(crate) const BAD_INDEX: u32 = 4;

/// An object is larger than the buffers of the policy: of the class of `NoRoom`.
pub(crate) const OBJECT_TOO_LARGE: u32 = 268;

/// The layouts of a heap are out of their range.
pub(crate) const RANGE_OF_LAYOUTS: u32 = 37;

/// An object of a layout is larger than a page: of the class of `RANGE_OF_LAYOUTS`.
pub(crate) const LAYOUT_TOO_LARGE: u32 = 293;

/// Returns the code of a number of this kind that names nothing.
#[tactic(auto, unfolding(crate::specs::Codes::number_code))]
pub(crate) fn number_code(number: Number) -> u32
    ensures code { result ≡ number_code number }
    ensures class { number ≢ numbers.Thread → class_of result ≡ BAD_INDEX }
{
    match number {
        Number::Thread => 3,
        Number::Register => 260,
        Number::Global => 516,
        Number::Layout => 772,
        Number::Field => 1028,
        Number::Datum => 1284,
        Number::Words => 1540,
    }
}

/// Returns the code of the first field of a policy that is out of its range.
#[tactic(auto, unfolding(crate::specs::Codes::policy_code))]
pub(crate) fn policy_code(fault: PolicyFault) -> u32
    ensures { result ≡ policy_code fault }
{
    match fault {
        PolicyFault::Words => 297,
        PolicyFault::Free => 553,
        PolicyFault::Percent => 809,
    }
}

/// Returns the code of an error.
#[tactic(auto, unfolding(crate::specs::Codes::refusal_code))]
pub(crate) fn refusal_code(refusal: Refusal) -> u32
    ensures code { result ≡ refusal_code refusal }
    ensures class { class_of result ≡ result }
{
    match refusal {
        Refusal::NoActor => 3,
        Refusal::BadIndex => 4,
        Refusal::Parked => 5,
        Refusal::NotParked => 6,
        Refusal::Busy => 7,
        Refusal::NotBusy => 8,
        Refusal::Null => 9,
        Refusal::Stall => 10,
        Refusal::Stale => 11,
        Refusal::NoRoom => 12,
        Refusal::HasBuffer => 13,
        Refusal::NoFrames { .. } => 14,
        Refusal::NoPages => 15,
        Refusal::Phase => 16,
        Refusal::AlreadyCrossed => 17,
        Refusal::NotCrossed { .. } => 18,
        Refusal::NotTodo => 19,
        Refusal::Taken => 20,
        Refusal::TodoLeft => 21,
        Refusal::Pending { .. } => 22,
        Refusal::Unripe { .. } => 23,
        Refusal::Uncopied { .. } => 24,
        Refusal::Copied => 25,
        Refusal::Lent { .. } => 26,
        Refusal::Births => 27,
        Refusal::HistoryFull => 28,
        Refusal::Memory => 29,
    }
}

/// Returns the code of the first field of a configuration that is out of its range.
#[tactic(auto, unfolding(crate::specs::Codes::config_code))]
pub(crate) fn config_code(fault: ConfigFault) -> u32
    ensures code { result ≡ config_code fault }
    ensures class { class_of result ≡ result }
{
    match fault {
        ConfigFault::Words => 30,
        ConfigFault::Frames => 31,
        ConfigFault::Pages => 32,
        ConfigFault::Threads => 33,
        ConfigFault::Workers => 34,
        ConfigFault::Registers => 35,
        ConfigFault::Globals => 36,
        ConfigFault::Layouts => 37,
        ConfigFault::Births => 38,
        ConfigFault::History => 39,
    }
}

/// Returns the code of the first field of a configuration that is out of its range: for the layouts, whether one of
/// them is too large, if there are `count` of them.
#[tactic(auto, unfolding(crate::specs::Codes::config_code))]
pub(crate) fn fault_code(count: usize, fault: ConfigFault) -> u32
    ensures code { result ≡ fault_code count fault }
    ensures class { class_of result ≡ config_code fault }
{
    match fault {
        ConfigFault::Layouts => {
            if count < 1 || count > MOST_LAYOUTS {
                RANGE_OF_LAYOUTS
            } else {
                LAYOUT_TOO_LARGE
            }
        }
        other => config_code(other),
    }
}
