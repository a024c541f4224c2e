//! Verdicts on made images: the order of faults, twins, and forwarding tables. Single faults are in `faults`.

use crate::edits::{set_free, set_global, set_load, set_page, set_register, set_word};
use crate::making::{add_entry, bare, put};
use crate::same::{done, same};
use model::PageState;
use std::alloc::{AllocError, Global};
use std::process::Abort;
use verify::{Fault, Image, Root, Verdict, verify_image};

/// The address of the only object of `sample`, and a reference to it.
const FIRST: u64 = 16;

const NAMED: u64 = (1 << 63) + FIRST;

/// An object at offset 0 of page 1 of 8, which refers to itself. A register of each thread and the global refer to
/// it.
fn sample(alloc: Global) -> Result<Image, AllocError> {
    let mut image = bare(alloc, 8)?;
    put(&mut image, (1, 0), 0, 0, 0);
    set_word(&mut image, 0, 1, NAMED);
    set_register(&mut image, 0, 0, NAMED);
    set_register(&mut image, 1, 0, FIRST);
    set_global(&mut image, NAMED);
    Ok(image)
}

/// An image has this first fault.
fn has_fault(rt: &impl Abort, alloc: Global, image: &Image, fault: Fault) {
    same(rt, verify_image(alloc, image), Ok(Verdict::Faulty(fault)));
}

/// An image is sound.
fn is_sound(rt: &impl Abort, alloc: Global, image: &Image) {
    same(rt, verify_image(alloc, image), Ok(Verdict::Sound));
}

/// Faults are made from the last kind to the first, and each is reported before the earlier ones.
fn faults_in_turn(rt: &impl Abort, alloc: Global, image: &mut Image) {
    put(image, (1, 0), 3, 0, 0);
    has_fault(rt, alloc, image, Fault::Twins(0));
    set_word(image, 0, 1, 1 << 62);
    has_fault(rt, alloc, image, Fault::Field(16, 0));
    set_global(image, 15);
    has_fault(rt, alloc, image, Fault::Root(Root::Global(0)));
    set_load(image, 1, Some(1 << 63));
    has_fault(rt, alloc, image, Fault::Root(Root::Pending(1)));
    set_load(image, 0, Some(1 << 63));
    has_fault(rt, alloc, image, Fault::Root(Root::Pending(0)));
    set_register(image, 1, 1, 1 << 40);
    has_fault(rt, alloc, image, Fault::Root(Root::Register(1, 1)));
    set_register(image, 1, 0, 17);
    has_fault(rt, alloc, image, Fault::Root(Root::Register(1, 0)));
    set_register(image, 0, 1, 17);
    has_fault(rt, alloc, image, Fault::Root(Root::Register(0, 1)));
    image.words = 24;
    has_fault(rt, alloc, image, Fault::Frames);
}

#[test]
fn first_fault(rt: HostRuntime) {
    let mut image = done(&rt, sample(rt.alloc()));
    is_sound(&rt, rt.alloc(), &image);
    faults_in_turn(&rt, rt.alloc(), &mut image);
}

/// The first object leads to one of two references after it, and the objects' fields go wrong from the last to the
/// first.
fn fields_in_turn(rt: &impl Abort, alloc: Global, image: &mut Image) {
    put(image, (1, 0), 3, 1, 1);
    set_word(image, 0, 1, 19);
    is_sound(rt, alloc, image);
    set_word(image, 0, 5, 17);
    has_fault(rt, alloc, image, Fault::Field(19, 1));
    set_word(image, 0, 4, 17);
    has_fault(rt, alloc, image, Fault::Field(19, 0));
    set_register(image, 0, 1, 19);
    set_word(image, 0, 1, 17);
    has_fault(rt, alloc, image, Fault::Field(16, 0));
}

#[test]
fn first_field(rt: HostRuntime) {
    let mut image = done(&rt, sample(rt.alloc()));
    fields_in_turn(&rt, rt.alloc(), &mut image);
}

/// Twins of the births 5 and 2, one of each of which is reached.
#[test]
fn least_twins(rt: HostRuntime) {
    let mut image = done(&rt, sample(rt.alloc()));
    for (offset, birth) in [(3, 5), (5, 5), (7, 2), (9, 2)] {
        put(&mut image, (1, 0), offset, birth, 2);
    }
    is_sound(&rt, rt.alloc(), &image);
    set_register(&mut image, 0, 1, 21);
    has_fault(&rt, rt.alloc(), &image, Fault::Twins(5));
    set_register(&mut image, 1, 1, 23);
    has_fault(&rt, rt.alloc(), &image, Fault::Twins(2));
}

/// The header of birth 5 + 2^32 and of layout 2.
const LATE: u64 = 5 + (2 << 32) + (1 << 40);

/// Two objects are no twins if the upper bits of their births differ.
#[test]
fn late_twins(rt: HostRuntime) {
    let mut image = done(&rt, sample(rt.alloc()));
    for offset in [3, 5] {
        put(&mut image, (1, 0), offset, 5, 2);
    }
    set_register(&mut image, 0, 1, 21);
    has_fault(&rt, rt.alloc(), &image, Fault::Twins(5));
    set_word(&mut image, 0, 3, LATE);
    is_sound(&rt, rt.alloc(), &image);
    set_word(&mut image, 0, 5, LATE);
    has_fault(&rt, rt.alloc(), &image, Fault::Twins(5 + (1 << 32)));
}

/// An old object on a protected page is no twin of its copy, once its entry says that it is copied.
fn copies_in_turn(rt: &impl Abort, alloc: Global, image: &mut Image) {
    set_page(image, 2, PageState::From, Some(1));
    set_free(image, 0, 2);
    image.free.truncate(1);
    put(image, (2, 1), 0, 0, 0);
    has_fault(rt, alloc, image, Fault::Twins(0));
    done(rt, add_entry(image, 2, (0, FIRST, true)));
    is_sound(rt, alloc, image);
    set_register(image, 0, 1, 32);
    is_sound(rt, alloc, image);
    set_page(image, 2, PageState::Closed, Some(1));
    has_fault(rt, alloc, image, Fault::Twins(0));
    set_register(image, 0, 1, 0);
    is_sound(rt, alloc, image);
}

#[test]
fn old_beside_its_copy(rt: HostRuntime) {
    let mut image = done(&rt, sample(rt.alloc()));
    copies_in_turn(&rt, rt.alloc(), &mut image);
}

/// An uncopied entry doesn't lead anywhere, and leaves its object a twin.
#[test]
fn planned_and_not_copied(rt: HostRuntime) {
    let mut image = done(&rt, sample(rt.alloc()));
    set_page(&mut image, 2, PageState::Gone, None);
    done(&rt, add_entry(&mut image, 2, (0, FIRST, false)));
    done(&rt, add_entry(&mut image, 2, (0, FIRST, true)));
    done(&rt, add_entry(&mut image, 2, (1, FIRST, true)));
    set_register(&mut image, 0, 1, 33);
    is_sound(&rt, rt.alloc(), &image);
    set_register(&mut image, 0, 1, 32);
    has_fault(&rt, rt.alloc(), &image, Fault::Root(Root::Register(0, 1)));
}

/// The forwarding table of an unused page leads nowhere.
#[test]
fn side_of_an_unused_page(rt: HostRuntime) {
    let mut image = done(&rt, sample(rt.alloc()));
    done(&rt, add_entry(&mut image, 2, (0, FIRST, true)));
    set_register(&mut image, 0, 1, 32);
    has_fault(&rt, rt.alloc(), &image, Fault::Root(Root::Register(0, 1)));
    set_page(&mut image, 2, PageState::Gone, None);
    is_sound(&rt, rt.alloc(), &image);
}
