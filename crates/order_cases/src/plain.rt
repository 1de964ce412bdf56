//! The order and the races, straight from the rules: each edge, their closure as a table, and the test of a pair.

use crate::deeds::{
    acquires_itself, is_acquire, is_change, is_clearing, is_release, is_release_fence, precedes,
    read_range, reads, releases_itself, renews, touches, writes,
};
use order::{Act, Deed};
use std::alloc::Global;

/// Acts, and of each which atomic writes it carries on if it is one.
#[derive(Drop)]
pub struct Plain<'a> {
    acts: &'a [Act],
    carried: Vec<Vec<usize>>,
}

/// Tests whether the act of a thread just before one is a release fence.
fn is_fenced(acts: &[Act], i: usize, tid: u32) -> bool {
    let mut fenced = false;
    for act in acts.iter().take(i) {
        if act.tid == tid {
            fenced = is_release_fence(act.deed);
        }
    }
    fenced
}

fn is_store(acts: &[Act], i: usize, fenced: bool) -> bool {
    match acts.get(i) {
        Some(act) => {
            matches!(act.deed, Deed::Writes { .. }) && is_fenced(acts, i, act.tid) == fenced
        }
        None => false,
    }
}

fn is_plain_write(acts: &[Act], i: usize) -> bool {
    is_store(acts, i, false)
}

fn is_atomic_write(acts: &[Act], i: usize) -> bool {
    let other = match acts.get(i) {
        Some(act) => {
            is_change(act.deed) || is_clearing(act.deed) || matches!(act.deed, Deed::SetsTid { .. })
        }
        None => false,
    };
    other || is_store(acts, i, true)
}

/// The write that stands at a byte before an act.
fn stands_at(acts: &[Act], byte: u32, n: usize) -> Option<usize> {
    let mut found = None;
    for (k, act) in acts.iter().take(n).enumerate() {
        if renews(act.deed, byte) {
            found = None;
        } else if writes(act.deed, byte) {
            found = Some(k);
        }
    }
    found
}

/// The write that an act reads at its k-th byte.
fn read_at(acts: &[Act], r: usize, k: u32) -> Option<usize> {
    let deed = acts.get(r)?.deed;
    let byte = read_range(deed).0.checked_add(k)?;
    if reads(deed, byte) {
        stands_at(acts, byte, r)
    } else {
        None
    }
}

/// Puts what a write carries on behind others.
fn put_carried(list: &mut Vec<usize>, carried: &[Vec<usize>], from: Option<usize>) -> Option<()> {
    if let Some(v) = from {
        list.extend_from_slice(carried.get(v)?.as_slice()).ok()?;
    }
    Some(())
}

/// What an act carries on, if it is a write: itself, and what it reads, if it is a change.
fn carried_by(alloc: Global, acts: &[Act], carried: &[Vec<usize>], w: usize) -> Option<Vec<usize>> {
    let mut list = vec![in alloc; w].ok()?;
    if is_change(acts.get(w)?.deed) {
        for k in 0..4u32 {
            put_carried(&mut list, carried, read_at(acts, w, k))?;
        }
    }
    Some(list)
}

/// Tests whether the message of a write has all up to an act.
fn carries(acts: &[Act], i: usize, x: usize) -> bool {
    let (Some(one), Some(other)) = (acts.get(i), acts.get(x)) else {
        return false;
    };
    if i == x {
        return releases_itself(other.deed);
    }
    i < x && one.tid == other.tid && is_release(one.deed)
}

/// Tests whether what is heard of a write at a read is known from an act on.
fn knows(acts: &[Act], w: usize, r: usize, j: usize) -> bool {
    let (Some(write), Some(read), Some(act)) = (acts.get(w), acts.get(r), acts.get(j)) else {
        return false;
    };
    if j == r {
        return acquires_itself(read.deed) || is_clearing(write.deed);
    }
    r < j && act.tid == read.tid && is_acquire(act.deed)
}

impl<'a> Plain<'a> {
    /// None where no memory is left.
    pub fn new(alloc: Global, acts: &'a [Act]) -> Option<Plain<'a>> {
        let mut carried = Vec::new(alloc);
        for w in 0..acts.len() {
            let list = carried_by(alloc, acts, &carried, w)?;
            carried.push(list).ok()?;
        }
        Some(Plain { acts, carried })
    }

    /// Tests whether what a write carries has all up to an act.
    fn sends(&self, i: usize, w: usize) -> bool {
        let Some(list) = self.carried.get(w) else {
            return false;
        };
        for x in list {
            if is_atomic_write(self.acts, *x) && carries(self.acts, i, *x) {
                return true;
            }
        }
        false
    }

    /// Tests whether a message that an act reads at one of its bytes leads from one act to another.
    fn hears(&self, i: usize, r: usize, j: usize) -> bool {
        let count = match self.acts.get(r) {
            Some(act) => read_range(act.deed).1,
            None => 0,
        };
        for k in 0..count {
            if let Some(w) = read_at(self.acts, r, k) {
                if knows(self.acts, w, r, j) && self.sends(i, w) {
                    return true;
                }
            }
        }
        false
    }

    /// Tests whether a message leads from one act to another.
    fn has_message(&self, i: usize, j: usize) -> bool {
        for r in 0..self.acts.len() {
            if r <= j && self.hears(i, r, j) {
                return true;
            }
        }
        false
    }

    /// Tests whether one step leads from one act to another.
    pub fn leads(&self, i: usize, j: usize) -> bool {
        let (Some(one), Some(other)) = (self.acts.get(i), self.acts.get(j)) else {
            return false;
        };
        i < j && (precedes(*one, other.tid) || self.has_message(i, j))
    }

    /// Tests whether two acts that nothing orders race on a byte.
    pub fn conflict(&self, i: usize, j: usize, byte: u32) -> bool {
        let (Some(one), Some(other)) = (self.acts.get(i), self.acts.get(j)) else {
            return false;
        };
        one.tid != other.tid
            && touches(one.deed, byte)
            && touches(other.deed, byte)
            && (is_plain_write(self.acts, i) || is_plain_write(self.acts, j))
            && self.lives(i, j, byte)
    }

    /// Tests whether a byte is not renewed between two acts.
    fn lives(&self, i: usize, j: usize, byte: u32) -> bool {
        for (k, act) in self.acts.iter().enumerate() {
            if i < k && k < j && renews(act.deed, byte) {
                return false;
            }
        }
        true
    }
}
