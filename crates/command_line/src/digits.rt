//! The seed of random bytes.

ghost use Rattle.std.specs.Prelude.{◌≡◌, ◌↔◌, length, IfOk, IsOk, Ok};
ghost use Rattle.std.specs.List.{AllPass};
ghost use Rattle.hex.specs.Hex.{decode_of, is_hex_digit};

use hex::FromHex;
use thiserror::Error;

/// A text is no seed.
#[derive(Clone, Copy, Debug, PartialEq, Eq, Error)]
#[error("bad seed")]
pub struct BadSeed;

/// The 16 bytes that 32 hexadecimal digits write, two digits a byte, the higher one first; `BadSeed` for any other text.
pub fn seed(text: &str) -> Result<[u8; 16], BadSeed>
    ensures bytes { IfOk result (λ bytes. decode_of text.now ≡ Ok bytes) }
    ensures digits { IsOk result ↔ ((length text.now ≡ 32) × AllPass is_hex_digit text.now) }
{
    match <[u8; 16] as FromHex>::from_hex(text) {
        Ok(bytes) => Ok(bytes),
        Err(_) => Err(BadSeed),
    }
}
