//! Tests of slices and of following them, through what a guest tells. They stand apart from the crate that they test, which is so proved
//! once.
#![tactic(auto)]

#[cfg(test)]
mod tests;
