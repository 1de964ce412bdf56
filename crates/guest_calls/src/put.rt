//! What a call puts out.

use rrv_model::sequence::Sequence;

/// Bytes that go to a descriptor.
#[derive(Debug, Drop)]
pub struct Put {
    pub descriptor: u32,
    pub bytes: Sequence<u8>,
}
