//! Lists of records that are followed one after another.

use crate::told::{State, told_of};
use replayer::{Following, VerifyFault};
use rrv_model::record::Record;
use std::alloc::Global;
use std::fmt::Write;

/// Adds what is told of where a guest is.
fn tell_end(alloc: Global, following: &Following, words: &[&str], text: &mut String) -> Option<()> {
    let Some(told) = told_of(words) else {
        return Some(());
    };
    text.push_str(", ").ok()?;
    let state = State {
        guest: following.guest(),
        place: following.total(),
        total: following.total(),
    };
    state.tell(alloc, told, text).ok()
}

/// Follows records, and adds the instructions behind each.
fn follow_rest(
    alloc: Global,
    following: &mut Following,
    records: &[Record],
    text: &mut String,
) -> Option<Result<(), VerifyFault>> {
    for entry in records {
        if let Err(fault) = following.follow(alloc, entry) {
            return Some(Err(fault));
        }
        write!(text, " {}", following.total()).ok()?;
    }
    Some(Ok(()))
}

/// The instructions behind each of the records, and the refusal of the first that doesn't follow, or what words ask of
/// the state behind the last.
pub fn tell_followed(alloc: Global, records: &[Record], words: &[&str]) -> Option<String> {
    let (first, rest) = records.split_first()?;
    let mut following = match Following::begin(alloc, first) {
        Ok(following) => following,
        Err(fault) => return format!(in alloc; "{fault}").ok(),
    };
    let mut text = format!(in alloc; "{}", following.total()).ok()?;
    match follow_rest(alloc, &mut following, rest, &mut text)? {
        Ok(()) => tell_end(alloc, &following, words, &mut text)?,
        Err(fault) => write!(text, ", {fault}").ok()?,
    }
    Some(text)
}
