//! A disk that keeps how long its reads were.

use trace_disk::{Disk, DiskFailed};

/// A disk, and how many bytes its longest read had.
#[derive(Drop)]
pub struct Measured<D> {
    pub disk: D,
    pub longest: usize,
}

impl<D: Disk> Disk for Measured<D> {
    ghost honest = { λ m. D.honest m.disk };

    ghost size = { λ m. D.size m.disk };

    ghost faults = { λ m. D.faults m.disk };

    ghost state = { λ m. D.state m.disk };

    ghost sized = { λ m honest. D.sized m.disk honest };

    ghost reads_now = { λ m honest. D.reads_now m.disk honest };

    fn len(&self) -> u64 {
        self.disk.len()
    }

    fn failures(&self) -> u64 {
        self.disk.failures()
    }

    fn read_at(&mut self, at: u64, into: &mut [u8]) -> Result<(), DiskFailed> {
        self.longest = self.longest.max(into.len());
        self.disk.read_at(at, into)
    }

    fn write_at(&mut self, at: u64, bytes: &[u8]) -> Result<(), DiskFailed> {
        self.disk.write_at(at, bytes)
    }

    fn cut(&mut self, len: u64) -> Result<(), DiskFailed> {
        self.disk.cut(len)
    }

    fn sync(&mut self) -> Result<(), DiskFailed> {
        self.disk.sync()
    }
}
