//! What compares.

use std::fmt::Debug;
use std::process::Abort;

/// What is found is what is wanted. An `assert_eq!` is proved with all that its function holds, so that one here costs
/// less than several there.
pub fn are_equal<T: PartialEq + Debug + Drop>(rt: &impl Abort, found: T, wanted: T) {
    assert_eq!(rt; found, wanted);
}
