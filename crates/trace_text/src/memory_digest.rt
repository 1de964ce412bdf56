//! The digest of a memory.

ghost use Rattle.std.specs.Prelude.{◌≡◌, ℕ, ◌++◌, List, length};
ghost use Rattle.sha2.specs.Hashers.{Holds256};
ghost use Rattle.sha2.specs.Sha256.{sha256};
ghost use Rattle.rrv_model.specs.Memory.{page_bytes};
ghost use Rattle.guest_pages.specs.Space.{memory_of};
ghost use Rattle.trace_text.specs.Digest.{pages_bytes, piece};

use guest_pages::{Space, permissions_byte};
use rrv_model::machine::Permissions;
use sha2::{Digest, Sha256};

/// SHA-256 of all mapped pages by rising number, each as its number, its permissions and its bytes.
pub fn digest_of(space: &Space) -> [u8; 32]
    ensures { result ≡ sha256 (pages_bytes (memory_of space.now)) }
{
    let mut hasher = Sha256::new();
    let mut least = 0;
    while let Some((number, page)) = space.page_from(least) {
        add_page(&mut hasher, number, page.permissions, page.bytes);
        least = number + 1;
    }
    hasher.finalize()
}

/// Adds a page to the message of a hasher.
fn add_page(hasher: &mut Sha256, number: u32, permissions: Permissions, bytes: &[u8; 4096])
    ensures held { (m : List ℕ) → Holds256 hasher.old m
        → Holds256 hasher.new (m ++ piece number permissions bytes.now) }
    ensures full { length bytes.now ≡ page_bytes }
{
    hasher.update(number.to_le_bytes());
    hasher.update([permissions_byte(permissions)]);
    hasher.update(bytes);
}
