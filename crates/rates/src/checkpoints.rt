//! Asks a guest of many pages for snapshots, for what changed since one, and for checkpoints against one.

use crate::snapshots::{Asked, answer, asked_of};

/// What is done without words.
const OWN: [Asked; 5] = [
    Asked::Snapshots(2),
    Asked::Changed(2),
    Asked::Checkpoints(2),
    Asked::Bytes(1),
    Asked::Bytes(2_048),
];

/// How many pages a guest has with which that is done.
const OWN_PAGES: u32 = 300;

/// Asks a guest of so many pages, and prints what came of it; None where something is refused.
fn print_answer<R: AllocGlobal + Print>(rt: &R, asked: Asked, pages: u32) -> Option<()> {
    let found = answer(rt.alloc(), asked, pages)?;
    let (often, count, what) = match asked {
        Asked::Snapshots(count) => ("snapshots", count, "dropped"),
        Asked::Changed(count) => ("stores", count, "changed"),
        Asked::Checkpoints(count) => ("checkpoints", count, "changed"),
        Asked::Bytes(count) => ("stores", count, "bytes"),
    };
    println!(rt; "pages={pages} {often}={count} {what}={found}").ok()
}

/// Does what the words ask, or a little of each where there are none; None where something is refused.
pub fn measure<R: AllocGlobal + Print>(rt: &R, words: &[String]) -> Option<()> {
    match words {
        [kind, pages, count] => print_answer(rt, asked_of(kind, count)?, pages.parse().ok()?),
        [] => {
            for asked in OWN {
                print_answer(rt, asked, OWN_PAGES)?;
            }
            Some(())
        }
        _ => None,
    }
}
