//! The short forms of entries.

ghost use Rattle.std.specs.Prelude.{◌≡◌, IfSome};
ghost use Rattle.model.specs.declared.steps.Step.TheVariants as steps;
ghost use Rattle.model.specs.declared.steps.Answer.TheVariants as answers;
ghost use Rattle.entries.specs.Events.{step_in, answer_in, place_in, IsShort};

use model::{Answer, Step};

/// A step and its answer, in 24 bytes: a variant has the name of its step, and the step's numbers, then those of the
/// answer. `Whole` has the place of an entry that is stored in full.
#[derive(Clone, Copy)]
pub(crate) enum Event {
    Take(u32, u32, u32),
    GiveBack,
    New(u32, u32, u64),
    Load(u32, u32, u32),
    LoadGlobal(u32, u32),
    TrapMoved,
    TrapMarked,
    TrapClear,
    HealHealed,
    HealChanged,
    Finish,
    Store(u32, u32, u32),
    StoreGlobal(u32, u32),
    Datum(u32, u32, u64),
    SetDatum(u32, u32, u64),
    Same(u32, u32, bool),
    IsNull(u32, bool),
    CopyReg(u32, u32),
    ClearReg(u32),
    Cross,
    ScrubMoved(u32),
    ScrubClean(u32),
    Park,
    Unpark,
    StartMark,
    Pick(u32, u32),
    ScanScanned,
    ScanFinished,
    ScanGlobal(u32),
    EndMark(u64, u64),
    Copy(u32, u32, u32, u32),
    CopyPage(u32, u64),
    Release(u32, u64),
    CrossFor(u32),
    Whole(usize),
}

const _: () = prove!(size_of::<Event>() == 24);

/// Returns the event of a step if its answer is `Done`.
#[inline(always)]
fn done(step: &Step, answer: Answer, event: Event) -> Option<Event>
    requires { IsShort step.now answers.Done event }
    ensures { IfSome result (IsShort step.now answer) }
{
    match answer {
        Answer::Done => Some(event),
        _ => None,
    }
}

/// Returns the event of a step if its answer is `Loaded`.
#[inline(always)]
fn loaded(step: &Step, answer: Answer, event: Event) -> Option<Event>
    requires { IsShort step.now answers.Loaded event }
    ensures { IfSome result (IsShort step.now answer) }
{
    match answer {
        Answer::Loaded => Some(event),
        _ => None,
    }
}

/// Returns the event of a `Trap`, if it has one.
#[inline(always)]
fn trapped(answer: Answer) -> Option<Event>
    ensures { IfSome result (IsShort steps.Trap answer) }
{
    match answer {
        Answer::Moved => Some(Event::TrapMoved),
        Answer::Marked => Some(Event::TrapMarked),
        Answer::Clear => Some(Event::TrapClear),
        _ => None,
    }
}

/// Returns the event of a step whose answer has numbers, or is one of two, if it has an event.
#[inline(always)]
fn telling_event(step: &Step, answer: Answer) -> Option<Event>
    ensures { IfSome result (IsShort step.now answer) }
{
    match (step, answer) {
        (Step::Take(words), Answer::Lent { page, offset }) => {
            Some(Event::Take(*words, page, offset))
        }
        (Step::New { target, layout }, Answer::Birth(birth)) => {
            Some(Event::New(*target, *layout, birth))
        }
        (Step::Datum { object, index }, Answer::Datum(value)) => {
            Some(Event::Datum(*object, *index, value))
        }
        (Step::Same { left, right }, Answer::Truth(same)) => Some(Event::Same(*left, *right, same)),
        (Step::IsNull(register), Answer::Truth(null)) => Some(Event::IsNull(*register, null)),
        (Step::Heal, Answer::Healed) => Some(Event::HealHealed),
        (Step::Heal, Answer::Changed) => Some(Event::HealChanged),
        (Step::Scrub(register), Answer::Moved) => Some(Event::ScrubMoved(*register)),
        (Step::Scrub(register), Answer::Clean) => Some(Event::ScrubClean(*register)),
        (Step::ScanField, Answer::Scanned) => Some(Event::ScanScanned),
        (Step::ScanField, Answer::Finished) => Some(Event::ScanFinished),
        (Step::EndMark, Answer::Ended { live, retired }) => Some(Event::EndMark(live, retired)),
        (Step::Copy { page, entry }, Answer::MovedTo { page: to, offset }) => {
            Some(Event::Copy(*page, *entry, to, offset))
        }
        (Step::CopyPage(page), Answer::CopiedPage { copied }) => {
            Some(Event::CopyPage(*page, copied))
        }
        (Step::Release(page), Answer::Released { free }) => Some(Event::Release(*page, free)),
        _ => None,
    }
}

/// Returns the short form of a step with its answer, if they have one.
#[inline(always)]
pub(crate) fn short_event(step: &Step, answer: Answer) -> Option<Event>
    ensures { IfSome result (IsShort step.now answer) }
{
    match *step {
        Step::GiveBack => done(step, answer, Event::GiveBack),
        Step::Load {
            target,
            object,
            field,
        } => loaded(step, answer, Event::Load(target, object, field)),
        Step::LoadGlobal { target, global } => {
            loaded(step, answer, Event::LoadGlobal(target, global))
        }
        Step::Trap => trapped(answer),
        Step::Finish => done(step, answer, Event::Finish),
        Step::Store {
            object,
            field,
            source,
        } => done(step, answer, Event::Store(object, field, source)),
        Step::StoreGlobal { global, source } => {
            done(step, answer, Event::StoreGlobal(global, source))
        }
        Step::SetDatum {
            object,
            index,
            value,
        } => done(step, answer, Event::SetDatum(object, index, value)),
        Step::CopyReg { target, source } => done(step, answer, Event::CopyReg(target, source)),
        Step::ClearReg(register) => done(step, answer, Event::ClearReg(register)),
        Step::Cross => done(step, answer, Event::Cross),
        Step::Park => done(step, answer, Event::Park),
        Step::Unpark => done(step, answer, Event::Unpark),
        Step::StartMark => done(step, answer, Event::StartMark),
        Step::Pick { page, offset } => done(step, answer, Event::Pick(page, offset)),
        Step::ScanGlobal(global) => done(step, answer, Event::ScanGlobal(global)),
        Step::CrossFor(thread) => done(step, answer, Event::CrossFor(thread)),
        _ => telling_event(step, answer),
    }
}

/// Returns the step of a short form; `None` if the entry is stored in full.
pub(crate) fn step_in(event: Event) -> Option<Step>
    ensures { result ≡ step_in event }
{
    Some(match event {
        Event::Take(words, _, _) => Step::Take(words),
        Event::GiveBack => Step::GiveBack,
        Event::New(target, layout, _) => Step::New { target, layout },
        Event::Load(target, object, field) => Step::Load {
            target,
            object,
            field,
        },
        Event::LoadGlobal(target, global) => Step::LoadGlobal { target, global },
        Event::TrapMoved | Event::TrapMarked | Event::TrapClear => Step::Trap,
        Event::HealHealed | Event::HealChanged => Step::Heal,
        Event::Finish => Step::Finish,
        Event::Store(object, field, source) => Step::Store {
            object,
            field,
            source,
        },
        Event::StoreGlobal(global, source) => Step::StoreGlobal { global, source },
        Event::Datum(object, index, _) => Step::Datum { object, index },
        Event::SetDatum(object, index, value) => Step::SetDatum {
            object,
            index,
            value,
        },
        Event::Same(left, right, _) => Step::Same { left, right },
        Event::IsNull(register, _) => Step::IsNull(register),
        Event::CopyReg(target, source) => Step::CopyReg { target, source },
        Event::ClearReg(register) => Step::ClearReg(register),
        Event::Cross => Step::Cross,
        Event::ScrubMoved(register) | Event::ScrubClean(register) => Step::Scrub(register),
        Event::Park => Step::Park,
        Event::Unpark => Step::Unpark,
        Event::StartMark => Step::StartMark,
        Event::Pick(page, offset) => Step::Pick { page, offset },
        Event::ScanScanned | Event::ScanFinished => Step::ScanField,
        Event::ScanGlobal(global) => Step::ScanGlobal(global),
        Event::EndMark(_, _) => Step::EndMark,
        Event::Copy(page, entry, _, _) => Step::Copy { page, entry },
        Event::CopyPage(page, _) => Step::CopyPage(page),
        Event::Release(page, _) => Step::Release(page),
        Event::CrossFor(thread) => Step::CrossFor(thread),
        Event::Whole(_) => return None,
    })
}

/// Returns the answer of a short form; `Done` if the entry is stored in full.
pub(crate) fn answer_in(event: Event) -> Answer
    ensures { result ≡ answer_in event }
{
    match event {
        Event::Take(_, page, offset) => Answer::Lent { page, offset },
        Event::New(_, _, birth) => Answer::Birth(birth),
        Event::Load(_, _, _) | Event::LoadGlobal(_, _) => Answer::Loaded,
        Event::TrapMoved | Event::ScrubMoved(_) => Answer::Moved,
        Event::TrapMarked => Answer::Marked,
        Event::TrapClear => Answer::Clear,
        Event::HealHealed => Answer::Healed,
        Event::HealChanged => Answer::Changed,
        Event::Datum(_, _, value) => Answer::Datum(value),
        Event::Same(_, _, truth) | Event::IsNull(_, truth) => Answer::Truth(truth),
        Event::ScrubClean(_) => Answer::Clean,
        Event::ScanScanned => Answer::Scanned,
        Event::ScanFinished => Answer::Finished,
        Event::EndMark(live, retired) => Answer::Ended { live, retired },
        Event::Copy(_, _, page, offset) => Answer::MovedTo { page, offset },
        Event::CopyPage(_, copied) => Answer::CopiedPage { copied },
        Event::Release(_, free) => Answer::Released { free },
        _ => Answer::Done,
    }
}

/// Returns the place of an entry that is stored in full; 0 for a short form.
pub(crate) fn place_in(event: Event) -> usize
    ensures { result ≡ place_in event }
{
    match event {
        Event::Whole(place) => place,
        _ => 0,
    }
}
