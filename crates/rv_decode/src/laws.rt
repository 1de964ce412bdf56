//! Laws of the two directions together, each as the contract of a function that answers nothing.

ghost use Rattle.rv_decode.specs.Answers.{EncodedDecodes, OneAnswer};

/// A word has one answer: an instruction that it stands for, or none.
pub fn one_answer()
    ensures { OneAnswer }
{}

/// An instruction comes back from its word: what `decode` answers to a word that `encode` gave is the instruction.
pub fn decode_encoded()
    ensures { EncodedDecodes }
{
    one_answer();
}
