//! Copying and comparing steps.

ghost use Rattle.std.specs.Prelude.{◌≡◌, ◌≢◌, IfOk, MatchBool};

use crate::codes::code;
use model::{PageList, Step};
use std::alloc::{AllocError, Global};

/// Returns a copy of a step. Only that of `Protect` takes memory. Fails only if out of memory.
pub fn again(alloc: Global, step: &Step) -> Result<Step, AllocError>
    ensures { IfOk result (λ copy. copy ≡ step.now) }
{
    Ok(match step {
        Step::Take(words) => Step::Take(*words),
        Step::GiveBack => Step::GiveBack,
        Step::New { target, layout } => Step::New {
            target: *target,
            layout: *layout,
        },
        Step::Load {
            target,
            object,
            field,
        } => Step::Load {
            target: *target,
            object: *object,
            field: *field,
        },
        Step::LoadGlobal { target, global } => Step::LoadGlobal {
            target: *target,
            global: *global,
        },
        Step::Trap => Step::Trap,
        Step::Heal => Step::Heal,
        Step::Finish => Step::Finish,
        Step::Store {
            object,
            field,
            source,
        } => Step::Store {
            object: *object,
            field: *field,
            source: *source,
        },
        Step::StoreGlobal { global, source } => Step::StoreGlobal {
            global: *global,
            source: *source,
        },
        Step::Datum { object, index } => Step::Datum {
            object: *object,
            index: *index,
        },
        Step::SetDatum {
            object,
            index,
            value,
        } => Step::SetDatum {
            object: *object,
            index: *index,
            value: *value,
        },
        Step::Same { left, right } => Step::Same {
            left: *left,
            right: *right,
        },
        Step::IsNull(register) => Step::IsNull(*register),
        Step::CopyReg { target, source } => Step::CopyReg {
            target: *target,
            source: *source,
        },
        Step::ClearReg(register) => Step::ClearReg(*register),
        Step::Cross => Step::Cross,
        Step::Scrub(register) => Step::Scrub(*register),
        Step::Park => Step::Park,
        Step::Unpark => Step::Unpark,
        Step::StartMark => Step::StartMark,
        Step::Pick { page, offset } => Step::Pick {
            page: *page,
            offset: *offset,
        },
        Step::ScanField => Step::ScanField,
        Step::ScanGlobal(global) => Step::ScanGlobal(*global),
        Step::EndMark => Step::EndMark,
        Step::Protect(pages) => Step::Protect(PageList::new(Vec::from_slice(
            alloc,
            pages.as_slice(),
        )?)),
        Step::Copy { page, entry } => Step::Copy {
            page: *page,
            entry: *entry,
        },
        Step::Release(page) => Step::Release(*page),
        Step::CrossFor(thread) => Step::CrossFor(*thread),
        Step::CopyPage(page) => Step::CopyPage(*page),
    })
}

/// Returns whether two steps are equal.
#[tactic(auto, using(crate::proofs::OneCode::one_step, crate::proofs::OneCode::other_step))]
pub fn are_same(left: &Step, right: &Step) -> bool
    ensures { MatchBool result (left.now ≡ right.now) (left.now ≢ right.now) }
{
    code(left).is(&code(right))
}
