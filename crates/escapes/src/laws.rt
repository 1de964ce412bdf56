//! Laws of what is printed: functions that do nothing, whose contracts are the laws.

ghost use Rattle.escapes.specs.Escaped.{NothingIsControlled, PrintableIsKept};

/// A text without control characters, of no more characters than it may have, is printed as it is.
pub fn printable_is_kept()
    ensures { PrintableIsKept }
{}

/// What is printed of a text has no control character.
pub fn nothing_is_controlled()
    ensures { NothingIsControlled }
{}
