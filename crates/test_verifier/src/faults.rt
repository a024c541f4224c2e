//! Single faults in images of a recorded heap. After its first mark an object of three words is at page 1, offset 0,
//! in frame 0, and a register of each thread and the global refer to it. When it has moved it is at page 2, offset 0,
//! page 1 is released, and roots refer to it by its old place until the next mark.

use crate::edits::{
    entry, set_entry, set_frame, set_free, set_global, set_load, set_page, set_start, set_word,
    word,
};
use crate::same::done;
use crate::stories::{Story, told};
use model::PageState;
use std::alloc::Global;
use std::process::Abort;
use verify::{Fault, Image, Root, Verdict, verify_image};

/// A reference to page 3, offset 0, where no object was ever allocated.
const NOWHERE: u64 = 0x8000_0000_0000_0030;

/// The address of page 2, offset 0.
const PLACE: u64 = 32;

/// The verdict for the first root that refers to the object.
const FIRST: Verdict = Verdict::Faulty(Fault::Root(Root::Register(0, 0)));

/// The fault.
#[derive(Clone, Copy, Debug)]
enum Planted {
    Nothing,
    /// An unused page has the frame of another.
    FrameOfAnother,
    /// Two pages that are in use have one frame.
    FrameOfTwo,
    /// The free frames are 1 and 1 in place of 1 and 2.
    FrameTwiceFree,
    /// The object's start bit is missing.
    LostStart,
    /// The global is no reference.
    GlobalNoWord,
    /// The object's reference leads to an unused page.
    FieldToNowhere,
    /// The object is there twice, the second time after itself.
    Twin,
    /// The object that has moved isn't copied.
    Uncopied,
    /// The object has moved to a place next to its copy.
    BesideItsCopy,
    /// The page of the copy has no frame.
    CopyWithoutMemory,
    /// A thread loads a reference to no object.
    LoadOfNowhere,
}

/// Copies the object to the place after it.
fn repeat(image: &mut Image) {
    for offset in 0..3 {
        if let Some(word) = word(image, 0, offset) {
            set_word(image, 0, offset + 3, word);
        }
    }
    set_start(image, 1, 3, true);
}

/// Changes where the object goes by its entry, and whether it is copied.
fn change_entry(image: &mut Image, to: u64, copied: bool) {
    if let Some(entry) = entry(to, copied) {
        set_entry(image, 1, entry);
    }
}

/// Makes a fault.
fn plant(image: &mut Image, planted: Planted) {
    match planted {
        Planted::Nothing => {}
        Planted::FrameOfAnother => set_frame(image, 2, Some(0)),
        Planted::FrameOfTwo => set_page(image, 2, PageState::Open, Some(0)),
        Planted::FrameTwiceFree => set_free(image, 1, 1),
        Planted::LostStart => set_start(image, 1, 0, false),
        Planted::GlobalNoWord => set_global(image, 1 << 62),
        Planted::FieldToNowhere => set_word(image, 0, 1, NOWHERE),
        Planted::Twin => repeat(image),
        Planted::Uncopied => change_entry(image, PLACE, false),
        Planted::BesideItsCopy => change_entry(image, PLACE + 1, true),
        Planted::CopyWithoutMemory => set_frame(image, 2, None),
        Planted::LoadOfNowhere => set_load(image, 0, Some(NOWHERE)),
    }
}

/// Returns the verdict on the image of a story's end after a fault was made.
fn verdict_on(rt: &impl Abort, alloc: Global, story: Story, planted: Planted) -> Verdict {
    let mut image = told(rt, alloc, story);
    plant(&mut image, planted);
    done(rt, verify_image(alloc, &image))
}

#[test]
fn each_fault_is_told(rt: HostRuntime) {
    let frames = Verdict::Faulty(Fault::Frames);
    for (story, planted, verdict) in [
        (Story::Closed, Planted::Nothing, Verdict::Sound),
        (Story::Closed, Planted::FrameOfAnother, frames),
        (Story::Closed, Planted::FrameOfTwo, frames),
        (Story::Closed, Planted::FrameTwiceFree, frames),
        (Story::Closed, Planted::LostStart, FIRST),
        (
            Story::Closed,
            Planted::GlobalNoWord,
            Verdict::Faulty(Fault::Root(Root::Global(0))),
        ),
        (
            Story::Closed,
            Planted::FieldToNowhere,
            Verdict::Faulty(Fault::Field(16, 0)),
        ),
        (
            Story::Closed,
            Planted::Twin,
            Verdict::Faulty(Fault::Twins(0)),
        ),
        (Story::Moved, Planted::Nothing, Verdict::Sound),
        (Story::Moved, Planted::Uncopied, FIRST),
        (Story::Moved, Planted::BesideItsCopy, FIRST),
        (Story::Moved, Planted::CopyWithoutMemory, frames),
        (Story::Trapped, Planted::Nothing, Verdict::Sound),
        (
            Story::Trapped,
            Planted::LoadOfNowhere,
            Verdict::Faulty(Fault::Root(Root::Pending(0))),
        ),
    ] {
        let found = verdict_on(&rt, rt.alloc(), story, planted);
        assert_eq!(rt; found, verdict, "{planted:?}");
    }
}
