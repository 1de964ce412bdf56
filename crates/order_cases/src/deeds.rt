//! What an act does to bytes, and what of it orders others, as the rules in words say it.

use order::{Act, Deed};

/// The bytes that it reads: the first one, and how many.
pub fn read_range(deed: Deed) -> (u32, u32) {
    match deed {
        Deed::Reads { address, count } => (address, count),
        Deed::Reserves { address, .. } => (address, 4),
        Deed::Changes(change) if change.reads => (change.at, 4),
        _ => (0, 0),
    }
}

/// The bytes that it may touch.
pub fn touch_range(deed: Deed) -> (u32, u32) {
    match deed {
        Deed::Reads { address, count } => (address, count),
        Deed::Writes { address, count } => (address, count),
        Deed::Changes(change) => (change.at, 4),
        Deed::SetsTid { address } => (address, 4),
        Deed::ClearsTid { address } => (address, 4),
        _ => (0, 0),
    }
}

/// Tests whether a byte is one of some.
fn is_within(range: (u32, u32), byte: u32) -> bool {
    let first = u64::from(range.0);
    first <= u64::from(byte) && u64::from(byte) < first + u64::from(range.1)
}

pub fn reads(deed: Deed, byte: u32) -> bool {
    is_within(read_range(deed), byte)
}

pub fn writes(deed: Deed, byte: u32) -> bool {
    match deed {
        Deed::Writes { .. } | Deed::Changes(_) | Deed::SetsTid { .. } | Deed::ClearsTid { .. } => {
            is_within(touch_range(deed), byte)
        }
        _ => false,
    }
}

pub fn renews(deed: Deed, byte: u32) -> bool {
    match deed {
        Deed::Renews { address, count } => is_within((address, count), byte),
        _ => false,
    }
}

/// Byte k of a word.
fn byte_of(word: u32, k: u32) -> u32 {
    match k {
        0 => word % 256,
        1 => word / 256 % 256,
        2 => word / 65_536 % 256,
        _ => word / 16_777_216,
    }
}

/// Tests whether it counts for a race at a byte.
pub fn touches(deed: Deed, byte: u32) -> bool {
    if !is_within(touch_range(deed), byte) {
        return false;
    }
    match deed {
        Deed::Changes(change) => {
            let k = byte.wrapping_sub(change.at);
            byte_of(change.before, k) != byte_of(change.after, k)
        }
        _ => true,
    }
}

pub fn is_change(deed: Deed) -> bool {
    matches!(deed, Deed::Changes(_))
}

pub fn is_clearing(deed: Deed) -> bool {
    matches!(deed, Deed::ClearsTid { .. })
}

fn is_full(deed: Deed) -> bool {
    match deed {
        Deed::Reserves {
            acquires,
            releases,
            ..
        } => acquires && releases,
        Deed::Changes(change) => change.full,
        _ => false,
    }
}

pub fn is_release_fence(deed: Deed) -> bool {
    match deed {
        Deed::Fences { releases, .. } => releases,
        _ => false,
    }
}

/// Tests whether later messages of its thread have all up to it.
pub fn is_release(deed: Deed) -> bool {
    is_release_fence(deed) || is_full(deed)
}

/// Tests whether its thread knows from here on all that it heard before.
pub fn is_acquire(deed: Deed) -> bool {
    match deed {
        Deed::Fences { acquires, .. } => acquires,
        _ => is_full(deed),
    }
}

pub fn acquires_itself(deed: Deed) -> bool {
    match deed {
        Deed::Reserves { acquires, .. } => acquires,
        Deed::Changes(change) => change.acquires,
        _ => false,
    }
}

pub fn releases_itself(deed: Deed) -> bool {
    match deed {
        Deed::Changes(change) => change.releases,
        _ => is_clearing(deed),
    }
}

/// Tests whether each later act of a thread comes after it, but for messages.
pub fn precedes(act: Act, tid: u32) -> bool {
    match act.deed {
        Deed::Starts { tid: other } => act.tid == tid || other == tid,
        Deed::Wakes { tid: other } => act.tid == tid || other == tid,
        _ => act.tid == tid,
    }
}
