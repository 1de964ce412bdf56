//! Which text the program was built from. `tools/text_sum --write` writes this file, and leaves it out of the sum.

/// The first twelve digits of the sum over the text.
pub const TEXT_SUM: &str = "b5eca38cf33d";
