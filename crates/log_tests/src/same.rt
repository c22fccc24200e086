//! What is found beside what is wanted.
use std::fmt::Debug;
use std::process::Abort;

// Ends the test where what is found is not what is wanted. One call costs the prover less than an assertion in its place.
pub(crate) fn assert_same<T: PartialEq + Debug>(rt: &impl Abort, found: &T, wanted: &T) {
    assert_eq!(rt; found, wanted);
}
