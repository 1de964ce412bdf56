//! Tests of groups, through public calls and without threads.
#![tactic(auto)]

#[cfg(test)]
mod tests;
