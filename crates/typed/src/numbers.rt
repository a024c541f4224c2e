//! Numbers of different types: each counts from 0, and takes no more memory than the number.

/// The number of a mutator thread, from 0.
#[derive(Clone, Copy, Debug, PartialEq, Eq)]
pub struct Thread(pub u32);

/// The number of a register of a thread, from 0.
#[derive(Clone, Copy, Debug, PartialEq, Eq)]
pub struct Register(pub u32);

/// The number of a reference field of an object, from 0.
#[derive(Clone, Copy, Debug, PartialEq, Eq)]
pub struct Field(pub u32);

/// The number of a data word of an object, from 0.
#[derive(Clone, Copy, Debug, PartialEq, Eq)]
pub struct Datum(pub u32);

/// The number of a layout in the heap's configuration, from 0.
#[derive(Clone, Copy, Debug, PartialEq, Eq)]
pub struct LayoutNumber(pub u32);

/// The number of a global root, from 0.
#[derive(Clone, Copy, Debug, PartialEq, Eq)]
pub struct GlobalNumber(pub u32);
