//! Outsides for tests.

use guest_calls::Outside;
use std::io::Read;

/// An outside that has nothing: no input, no random bytes, and the moment (0, 0).
#[derive(Drop)]
pub struct Nothing;

impl Outside for Nothing {
    ghost gives = { λ _ _ _ _. Unit {0} };

    fn read(&mut self, _into: &mut [u8]) -> usize {
        0
    }

    fn random(&mut self, _into: &mut [u8]) {}

    fn now(&mut self, _clock: u32) -> (u64, u32) {
        (0, 0)
    }
}

/// An outside that counts what it is asked, with some input and one moment, all of whose random bytes are 0x5A.
#[derive(Drop)]
pub struct Scripted<'a> {
    /// The input that is left.
    pub input: &'a [u8],
    /// How often it was asked.
    pub asked: u32,
}

impl<'a> Scripted<'a> {
    /// One with this input.
    pub fn of(input: &'a [u8]) -> Self {
        Scripted { input, asked: 0 }
    }
}

impl Outside for Scripted<'_> {
    ghost gives = { λ _ _ _ _. Unit {0} };

    fn read(&mut self, into: &mut [u8]) -> usize {
        self.asked = self.asked.wrapping_add(1);
        self.input.read(into).unwrap_or(0)
    }

    fn random(&mut self, into: &mut [u8]) {
        self.asked = self.asked.wrapping_add(1);
        into.fill(0x5A);
    }

    fn now(&mut self, clock: u32) -> (u64, u32) {
        self.asked = self.asked.wrapping_add(1);
        if clock == 0 {
            (0x0807_0605_0403_0201, 0x0D0C_0B0A)
        } else {
            (1, 999_999_999)
        }
    }
}
