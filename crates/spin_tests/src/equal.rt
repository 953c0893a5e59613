//! What each test asserts: the found value is the wanted one.
use std::fmt::Debug;
use std::process::Abort;

pub fn equal<T: Debug + Drop + PartialEq, R: Abort>(rt: &R, found: T, wanted: T) {
    assert_eq!(rt; found, wanted);
}
