//! Numbers in a file, the lowest byte first.

ghost use Rattle.std.specs.Prelude.{◌≡◌, ◌≤◌, ◌+◌, length};
ghost use Rattle.rrv_model.specs.Elf.{half_at, number_at};

use byteorder::{ByteOrder, LittleEndian};

/// The two bytes from a place.
pub(crate) fn half_at(file: &[u8], place: usize) -> u16
    requires { place + 2 ≤ length file.now }
    ensures { result ≡ half_at file.now place }
{
    LittleEndian::read_u16(&file[place..])
}

/// The four bytes from a place.
pub(crate) fn number_at(file: &[u8], place: usize) -> u32
    requires { place + 4 ≤ length file.now }
    ensures { result ≡ number_at file.now place }
{
    LittleEndian::read_u32(&file[place..])
}
