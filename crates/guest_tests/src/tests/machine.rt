//! Tests of the machine below a guest: snapshots of an address space, growths of it that are refused, and laws. They share what
//! stands here.

mod code_space;
mod laws;
mod memory;
mod opening;
mod snapshots;

use std::fmt::Debug;
use std::process::Abort;

/// Ends the test where something else is found than wanted. An assertion costs its proof wherever it stands; this one stands once.
fn same<T: PartialEq + Debug + Drop>(rt: &impl Abort, what: &impl Debug, found: T, want: T) {
    assert_eq!(rt; found, want, "{what:?}");
}

/// The same of numbers one behind another.
fn same_numbers(rt: &impl Abort, what: &impl Debug, found: &[u32], want: &[u32]) {
    assert_eq!(rt; found, want, "{what:?}");
}
