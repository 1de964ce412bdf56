//! The random bytes of a guest, which a seed determines.

ghost use Rattle.std.specs.Prelude.{◌≡◌, ◌+◌, ◌/◌, ◌%◌, ◌^◌, ◌<◌, length};
ghost use Rattle.host.specs.Stream.{AreNext, byte_at, digest_of, opening_bytes};

use sha2::{Digest, Sha256};

/// How many bytes a stream has before it begins again: 32 for each counter of 32 bits.
const STREAM_LENGTH: u64 = 1 << 37;

/// The random bytes of one guest: the digests of the counters 0, 1 and so on, one behind the other. Behind the digest of 2^32 - 1
/// comes that of 0 again.
#[derive(Drop)]
pub(crate) struct RandomStream {
    seed: [u8; 16],
    guest: u32,
    place: u64,
    digest: [u8; 32],
    ghost low: { place < 2 ^ 37 },
    ghost current: { digest ≡ digest_of seed guest (place / 32) },
}

impl RandomStream {
    /// The stream of a guest, from its first byte on. `guest` is the guest's place on the line, from 0 on.
    pub(crate) fn new(seed: &[u8; 16], guest: u32) -> Self
        ensures seed { result.seed ≡ seed.now }
        ensures guest { result.guest ≡ guest }
        ensures place { result.place ≡ 0 }
    {
        let digest = digest(seed, guest, 0);
        RandomStream {
            seed: *seed,
            guest,
            place: 0,
            digest,
        }
    }

    /// Takes the next byte.
    fn next_byte(&mut self) -> u8
        ensures byte { result ≡ byte_at self.old.seed self.old.guest self.old.place }
        ensures place { self.new.place ≡ (self.old.place + 1) % 2 ^ 37 }
        ensures seed { self.new.seed ≡ self.old.seed }
        ensures guest { self.new.guest ≡ self.old.guest }
    {
        let byte = self.digest[(self.place % 32) as usize];
        let place = (self.place + 1) % STREAM_LENGTH;
        if place % 32 == 0 {
            self.digest = digest(&self.seed, self.guest, (place / 32) as u32);
        }
        self.place = place;
        byte
    }

    /// Takes the next bytes, as many as `into` has room for.
    pub(crate) fn fill(&mut self, into: &mut [u8])
        ensures next { AreNext self.old.seed self.old.guest self.old.place (length into.old) into.new }
        ensures place { self.new.place ≡ (self.old.place + length into.old) % 2 ^ 37 }
        ensures seed { self.new.seed ≡ self.old.seed }
        ensures guest { self.new.guest ≡ self.old.guest }
    {
        for i in 0..into.len() {
            into[i] = self.next_byte();
        }
    }
}

/// The 16 random bytes that a guest is opened with. `guest` is its place on the line, from 0 on.
pub fn opening_random(seed: &[u8; 16], guest: u32) -> [u8; 16]
    ensures { result ≡ opening_bytes seed.now guest }
{
    let digest = digest(seed, guest, u32::MAX);
    let mut bytes = [0u8; 16];
    bytes.copy_from_slice(&digest[..16]);
    bytes
}

/// SHA-256 of the seed, the guest's place and a counter, both with their lowest byte first.
#[tactic(auto, unfolding(crate::specs::Stream::digest_of))]
fn digest(seed: &[u8; 16], guest: u32, counter: u32) -> [u8; 32]
    ensures { result ≡ digest_of seed.now guest counter }
{
    let mut hasher = Sha256::new();
    hasher.update(seed.as_slice());
    hasher.update(guest.to_le_bytes().as_slice());
    hasher.update(counter.to_le_bytes().as_slice());
    hasher.finalize()
}
