//! Grammars: which values have a text, how each is spelled, and how they are read from the front of bytes.
//!
//! Tests: none; the records of `rrv_model` and what `frames` reads go by it.
//!
//! # Contracts
//!
//! None but the definitions of `specs/Grammar.antt`, and the law of each in `proofs/Grammars.antt` (`IsGrammar`): what is spelled is
//! read again, what is read was spelled so, and no text is longer than is said. So bytes begin with the text of one value at most.
#![tactic(auto)]
