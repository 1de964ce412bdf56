//! Tests of small guests. Results are negated errno values of Linux (man pages, errno(3)).

mod changes;
mod machine;
mod memory;
mod parts;
mod rows;
mod running;
