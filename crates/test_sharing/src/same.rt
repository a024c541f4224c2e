//! Assertions. Written out, an assertion or a `?` in a test takes seconds of proof; a call of one here next to none.

use std::fmt::{Debug, Display};
use std::process::Abort;

/// Asserts that two values are equal.
pub fn same<T: PartialEq + Debug + Drop>(rt: &impl Abort, found: T, wanted: T) {
    assert_eq!(rt; found, wanted);
}

/// Asserts that two values of a place are equal.
pub fn same_at<P: Display + Drop, T: PartialEq + Debug + Drop>(
    rt: &impl Abort,
    place: P,
    found: T,
    wanted: T,
) {
    assert_eq!(rt; found, wanted, "at {place}");
}

/// Asserts that a call succeeded, and returns its value.
pub fn done<T, E: Debug + Drop>(rt: &impl Abort, found: Result<T, E>) -> T {
    match found {
        Ok(value) => value,
        Err(error) => panic!(rt; "error: {error:?}"),
    }
}
