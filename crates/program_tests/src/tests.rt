//! Texts of refusals, what guests get from the host, what is found where memory or a record is wanting, and of spans.

use std::fmt::{Debug, Display};
use std::process::Abort;
use std::test::Fail;

mod from_host;
mod given;
mod in_spans;
mod line;
mod marking;
mod memory;
mod refusals;

/// Ends the test where something else is found than wanted. An assertion costs its proof wherever it stands; this one stands once.
fn same<T: PartialEq + Debug + Drop>(rt: &impl Abort, what: &impl Debug, found: T, want: T) {
    assert_eq!(rt; found, want, "{what:?}");
}

/// Ends the test where something is shown by another text.
fn shows<R: Abort + AllocGlobal, T: Display>(rt: &R, shown: &T, want: &str) -> Result<(), Fail> {
    let text = format!(in rt.alloc(); "{shown}")?;
    same(rt, &want, text.as_str(), want);
    Ok(())
}
