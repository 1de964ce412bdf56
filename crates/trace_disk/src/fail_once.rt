//! A disk of which one call fails, for tests of what a failure leaves.

ghost use Rattle.std.specs.Prelude.{◌≡◌, ◌+◌, ◌-◌, ◌↔◌, ◌≤◌, max, length, take, drop, OnOk, OnErr, IsTrue, false, true, if◌then◌else◌};
ghost use Rattle.store_model.specs.DiskCalls.{after_write, after_cut, after_sync, FailsToWrite, FailsToCut};
ghost use Rattle.trace_disk.specs.FailOnce.{failures_of, IsOneCall};

use crate::{Disk, DiskFailed};
use std::marker::Model;

/// A disk whose k-th device call fails and does nothing; all others pass to the disk that it holds.
///
/// Device calls are reads, writes, cuts and syncs, counted from 1; with 0 for k none fails.
#[derive(Drop)]
pub struct FailOnce<D> {
    disk: D,
    calls_left: u64,
    has_failed: bool,
}

impl<D> Model for FailOnce<D> {
    ghost use Rattle.std.specs.Prelude.{◌≡◌, ◌≤◌, false};
    ghost use Rattle.trace_disk.specs.FailOnce.{FailingDisk};

    ghost Value = { FailingDisk D };

    ghost view = { λ f. record { disk = f.disk; calls_left = f.calls_left; has_failed = f.has_failed } };

    ghost invariant = { λ f. 1 ≤ f.calls_left → f.has_failed ≡ false };
}

impl<D> FailOnce<D> {
    /// The k-th device call from now on will fail.
    pub fn new(disk: D, k: u64) -> Self
        ensures { result ≡ record { disk = disk; calls_left = k; has_failed = false } }
    {
        FailOnce {
            disk,
            calls_left: k,
            has_failed: false,
        }
    }

    /// The disk, as the calls left it.
    pub fn into_inner(self) -> D
        ensures { result ≡ self.disk }
    {
        self.disk
    }

    // Counts a device call, and tells whether it is the one that fails.
    fn is_due(&mut self) -> bool
        ensures due { IsTrue result ↔ (self.old.calls_left ≡ 1) }
        ensures once { IsTrue result → self.old.has_failed ≡ false }
        ensures disk { self.new.disk ≡ self.old.disk }
        ensures one_less { self.new.calls_left ≡ self.old.calls_left - 1 }
        ensures failed { self.new.has_failed ≡ (if result then true else self.old.has_failed) }
    {
        let is_due = self.calls_left == 1;
        self.calls_left = self.calls_left.saturating_sub(1);
        if is_due {
            self.has_failed = true;
        }
        is_due
    }
}

impl<D: Disk> Disk for FailOnce<D> {
    ghost honest = { λ f. D.honest f.disk };

    ghost size = { λ f. D.size f.disk };

    ghost faults = { failures_of D.faults };

    ghost state = { λ f. D.state f.disk };

    ghost sized = { λ f honest. D.sized f.disk honest };

    ghost reads_now = { λ f honest. D.reads_now f.disk honest };

    fn len(&self) -> u64 {
        self.disk.len()
    }

    fn failures(&self) -> u64 {
        let failures = self.disk.failures();
        if self.has_failed {
            failures.saturating_add(1)
        } else {
            failures
        }
    }

    fn read_at(&mut self, at: u64, into: &mut [u8]) -> Result<(), DiskFailed>
        requires { at + length into.old ≤ D.size self.old.disk }
        ensures one_call { IsOneCall D.Disk self.old self.new result }
        ensures due { self.old.calls_left ≡ 1 → into.new ≡ into.old }
        ensures bytes { D.honest self.old.disk
            → OnOk result (into.new ≡ take (length into.old) (drop at (D.state self.old.disk).content)) }
        ensures state { D.honest self.old.disk → D.state self.new.disk ≡ D.state self.old.disk }
        ensures size { D.size self.new.disk ≡ D.size self.old.disk }
    {
        if self.is_due() {
            return Err(DiskFailed);
        }
        self.disk.read_at(at, into)
    }

    fn write_at(&mut self, at: u64, bytes: &[u8]) -> Result<(), DiskFailed>
        requires { at ≤ D.size self.old.disk }
        ensures one_call { IsOneCall D.Disk self.old self.new result }
        ensures written { D.honest self.old.disk
            → OnOk result (D.state self.new.disk ≡ after_write (D.state self.old.disk) at bytes.now) }
        ensures torn { D.honest self.old.disk
            → OnErr result (FailsToWrite at (length bytes.now) (D.state self.old.disk) (D.state self.new.disk)) }
        ensures size { OnOk result (D.size self.new.disk ≡ max (D.size self.old.disk) (at + length bytes.now)) }
    {
        if self.is_due() {
            return Err(DiskFailed);
        }
        self.disk.write_at(at, bytes)
    }

    fn cut(&mut self, len: u64) -> Result<(), DiskFailed>
        requires { len ≤ D.size self.old.disk }
        ensures one_call { IsOneCall D.Disk self.old self.new result }
        ensures cut { D.honest self.old.disk
            → OnOk result (D.state self.new.disk ≡ after_cut (D.state self.old.disk) len) }
        ensures torn { D.honest self.old.disk
            → OnErr result (FailsToCut len (D.state self.old.disk) (D.state self.new.disk)) }
        ensures size { OnOk result (D.size self.new.disk ≡ len) }
    {
        if self.is_due() {
            return Err(DiskFailed);
        }
        self.disk.cut(len)
    }

    fn sync(&mut self) -> Result<(), DiskFailed>
        ensures one_call { IsOneCall D.Disk self.old self.new result }
        ensures synced { D.honest self.old.disk
            → OnOk result (D.state self.new.disk ≡ after_sync (D.state self.old.disk)) }
        ensures same { D.honest self.old.disk → OnErr result (D.state self.new.disk ≡ D.state self.old.disk) }
        ensures size { D.size self.new.disk ≡ D.size self.old.disk }
    {
        if self.is_due() {
            return Err(DiskFailed);
        }
        self.disk.sync()
    }
}
