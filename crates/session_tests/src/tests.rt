//! Sessions of guests that put letters out.

use std::fmt::Debug;
use std::process::Abort;

mod at_once;
mod deadlines;
mod fail_sink;
mod failing;
mod gates;
mod jobs;
mod listed;
mod many;
mod marked;
mod memory;
mod numbers;
mod recorders;
mod refused;
mod store;
mod whole;

/// Ends the test where something else is found than wanted. An assertion costs its proof wherever it stands; this one stands once.
fn same<T: PartialEq + Debug + Drop>(rt: &impl Abort, what: &impl Debug, found: T, want: T) {
    assert_eq!(rt; found, want, "{what:?}");
}
