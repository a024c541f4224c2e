//! The verifier's result.

/// A root. Threads, registers and globals count from 0.
#[derive(Clone, Copy, Debug, PartialEq, Eq)]
pub enum Root {
    /// A register, by the numbers of the thread and of the register.
    Register(usize, usize),
    /// The current reference of the unfinished load of this thread.
    Pending(usize),
    /// The global of this number.
    Global(usize),
}

/// A fault of an image, in the order in which faults are looked for. A value is good if it is null, or a reference
/// that leads to an object's start in a page with a frame.
#[derive(Clone, Copy, Debug, PartialEq, Eq)]
pub enum Fault {
    /// The page size, the number of words of the frames of pages or of free frames, or the owners of frames.
    Frames,
    /// A root's value isn't good.
    Root(Root),
    /// The value of a reference field of a reached object isn't good: the object's address, below
    /// 2^40, and the number of the field, from 0.
    Field(u64, u32),
    /// Two objects have this birth number: one that is reached, and one that is reached too, or wasn't copied.
    Twins(u64),
}

/// The result of the verifier.
#[derive(Clone, Copy, Debug, PartialEq, Eq)]
pub enum Verdict {
    /// The image is sound.
    Sound,
    /// It has this fault, and none before it.
    Faulty(Fault),
}
