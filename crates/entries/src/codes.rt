//! Codes of steps.

ghost use Rattle.std.specs.Prelude.{◌≡◌, ◌≢◌, [], MatchBool};
ghost use Rattle.entries.specs.Codes.{Code, code_of, coded};

use model::Step;

/// A step as its kind, its numbers and its list.
#[derive(Clone, Copy)]
pub(crate) struct Coded<'a> {
    kind: u8,
    first: u32,
    second: u32,
    third: u64,
    list: &'a [u32],
}

/// Returns the code of a step that has these numbers.
fn numbers<'a>(kind: u8, first: u32, second: u32, third: u64) -> Coded<'a>
    ensures { coded result ≡ record { kind = kind; first = first; second = second; third = third; list = [] } }
{
    Coded {
        kind,
        first,
        second,
        third,
        list: &[],
    }
}

/// Returns the code of a step that has this list.
fn list(kind: u8, list: &[u32]) -> Coded<'_>
    ensures { coded result ≡ record { kind = kind; first = 0; second = 0; third = 0; list = list.now } }
{
    Coded {
        kind,
        first: 0,
        second: 0,
        third: 0,
        list,
    }
}

/// Returns the code of a step.
pub(crate) fn code(step: &Step) -> Coded<'_>
    ensures { coded result ≡ code_of step.now }
{
    match step {
        Step::Take(words) => numbers(0, *words, 0, 0),
        Step::GiveBack => numbers(1, 0, 0, 0),
        Step::New { target, layout } => numbers(2, *target, *layout, 0),
        Step::Load {
            target,
            object,
            field,
        } => numbers(3, *target, *object, u64::from(*field)),
        Step::LoadGlobal { target, global } => numbers(4, *target, *global, 0),
        Step::Trap => numbers(5, 0, 0, 0),
        Step::Heal => numbers(6, 0, 0, 0),
        Step::Finish => numbers(7, 0, 0, 0),
        Step::Store {
            object,
            field,
            source,
        } => numbers(8, *object, *field, u64::from(*source)),
        Step::StoreGlobal { global, source } => numbers(9, *global, *source, 0),
        Step::Datum { object, index } => numbers(10, *object, *index, 0),
        Step::SetDatum {
            object,
            index,
            value,
        } => numbers(11, *object, *index, *value),
        Step::Same { left, right } => numbers(12, *left, *right, 0),
        Step::IsNull(register) => numbers(13, *register, 0, 0),
        Step::CopyReg { target, source } => numbers(14, *target, *source, 0),
        Step::ClearReg(register) => numbers(15, *register, 0, 0),
        Step::Cross => numbers(16, 0, 0, 0),
        Step::Scrub(register) => numbers(17, *register, 0, 0),
        Step::Park => numbers(18, 0, 0, 0),
        Step::Unpark => numbers(19, 0, 0, 0),
        Step::StartMark => numbers(20, 0, 0, 0),
        Step::Pick { page, offset } => numbers(21, *page, *offset, 0),
        Step::ScanField => numbers(22, 0, 0, 0),
        Step::ScanGlobal(global) => numbers(23, *global, 0, 0),
        Step::EndMark => numbers(24, 0, 0, 0),
        Step::Protect(pages) => list(25, pages.as_slice()),
        Step::Copy { page, entry } => numbers(26, *page, *entry, 0),
        Step::Release(page) => numbers(27, *page, 0, 0),
        Step::CrossFor(thread) => numbers(28, *thread, 0, 0),
        Step::CopyPage(page) => numbers(29, *page, 0, 0),
    }
}

impl Coded<'_> {
    /// Returns whether two codes are equal.
    pub(crate) fn is(&self, other: &Coded) -> bool
        ensures { MatchBool result (coded self.now ≡ coded other.now) (coded self.now ≢ coded other.now) }
    {
        self.kind == other.kind
            && self.first == other.first
            && self.second == other.second
            && self.third == other.third
            && self.list == other.list
    }
}
