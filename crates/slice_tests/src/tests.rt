//! Small guests, recorded and followed.

mod asking;
mod chooser;
mod memory;
mod shared;
mod slices;
mod stores;
mod texts;
mod trial;
mod waits;
