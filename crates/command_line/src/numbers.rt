//! The numbers of a line.

ghost use Rattle.std.specs.Prelude.{◌≡◌, ℕ, IfSome, None};
ghost use Rattle.command_line.specs.Values.{IsAddress, IsEvery, IsNumberIn, IsPlace, without_0x};
ghost use Rattle.command_line.specs.declared.request.Every.{Every};
ghost use Rattle.command_line.specs.declared.request.Place.{Place};

use crate::request::{Every, Place};

/// The number that decimal digits write, with a plus before them or none; None where they write none within the bounds.
pub(crate) fn number_in(text: &str, least: u64, most: u64) -> Option<u64>
    ensures some { IfSome result (IsNumberIn least most text.now) }
    ensures none { result ≡ None → (n : ℕ) → IsNumberIn least most text.now n → ⊥ }
{
    match text.parse::<u64>() {
        Ok(number) if least <= number && number <= most => Some(number),
        _ => None,
    }
}

/// A text without a `0x` at its front.
fn without_0x(text: &str) -> &str
    ensures { result.now ≡ without_0x text.now }
{
    match text.strip_prefix("0x") {
        Some(digits) => digits,
        None => text,
    }
}

/// The number that 1 to 8 hexadecimal digits write, with `0x` before them or not; None where a text is no such.
pub(crate) fn address_in(text: &str) -> Option<u32>
    ensures some { IfSome result (IsAddress text.now) }
    ensures none { result ≡ None → (n : ℕ) → IsAddress text.now n → ⊥ }
{
    let digits = without_0x(text);
    if digits.len() > 8 || digits.starts_with('+') {
        return None;
    }
    match u32::from_str_radix(digits, 16) {
        Ok(address) => Some(address),
        Err(_) => None,
    }
}

/// How far apart checkpoints are to be, which decimal digits or `auto` write; None where a text is no such.
pub(crate) fn every_in(text: &str) -> Option<Every>
    ensures some { IfSome result (IsEvery text.now) }
    ensures none { result ≡ None → (every : Every) → IsEvery text.now every → ⊥ }
{
    if text == "auto" {
        return Some(Every::Auto);
    }
    match number_in(text, 0, u64::from(u32::MAX)) {
        Some(number) => Some(Every::Instructions(number as u32)),
        None => None,
    }
}

/// The place that decimal digits or `end` write; None where a text is no such.
pub(crate) fn place_in(text: &str) -> Option<Place>
    ensures some { IfSome result (IsPlace text.now) }
    ensures none { result ≡ None → (place : Place) → IsPlace text.now place → ⊥ }
{
    if text == "end" {
        return Some(Place::End);
    }
    match number_in(text, 0, u64::MAX) {
        Some(number) => Some(Place::At(number)),
        None => None,
    }
}
