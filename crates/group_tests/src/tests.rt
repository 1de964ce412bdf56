//! Tests by rows: a call of a seat and what is then found is a value, and what plays rows is proved once.

use std::fmt::Debug;
use std::process::Abort;

mod guests;
mod items;
mod machine;
mod memory;
mod outputs;
mod rows;
mod stores;
mod texts;

/// Ends the test where something else is found than wanted. An assertion costs its proof wherever it stands; this one stands once.
fn same<T: PartialEq + Debug + Drop>(rt: &impl Abort, what: &impl Debug, found: T, want: T) {
    assert_eq!(rt; found, want, "{what:?}");
}
