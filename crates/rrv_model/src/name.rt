//! Names of guests.

ghost use Rattle.std.specs.Prelude.{◌≡◌, ◌↔◌, IsTrue};
ghost use Rattle.std.specs.List.{list_all};
ghost use Rattle.rrv_model.specs.Opening.{IsName, is_graphic};

use crate::limits::MAX_NAME;

/// Whether each byte is a printed one that is no space.
pub fn is_graphic(bytes: &[u8]) -> bool
    ensures { result ≡ list_all is_graphic bytes.now }
{
    bytes.iter().all(|b| 0x21 <= *b && *b <= 0x7E)
}

/// Whether bytes are a guest's name: 1 to `MAX_NAME`, each a printed one that is no space.
pub fn is_name(name: &[u8]) -> bool
    ensures { IsTrue result ↔ IsName name.now }
{
    if name.is_empty() || name.len() > MAX_NAME as usize {
        return false;
    }
    is_graphic(name)
}
