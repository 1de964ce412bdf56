//! A law of the definitions, as the contract of a function that does nothing.

ghost use Rattle.turn_text.specs.Turns.{CallNumbersAreKept};

/// Where a frame ended in a call, the state after it tells the number that the thread had in a7 at the ECALL.
pub fn call_numbers_are_kept()
    ensures { CallNumbersAreKept }
{}
