//! The environment of one guest.

ghost use Rattle.std.specs.Prelude.{◌≡◌};
ghost use Rattle.host.specs.Seen.{Seen, Gives};

use crate::clocks::HostClocks;
use crate::random::RandomStream;
use guest_calls::Outside;
use std::marker::Model;
use std::time::{Clock, Instant};

/// The environment of one guest: the bytes of its input, random bytes that a seed determines, and the host's clocks. The real clock
/// is at 0 where the host can't tell it, or tells a time before 1970. The monotonic clock then stays at the last moment given,
/// which is 0 at first, and so it does where the host's goes back.
#[derive(Drop)]
pub struct HostOutside<'a, R: Clock> {
    input: &'a [u8],
    random: RandomStream,
    clocks: HostClocks<'a, R>,
}

impl<'a, R: Clock> Model for HostOutside<'a, R> {
    ghost use Rattle.std.specs.Duration.{as_nanos};
    ghost use Rattle.host.specs.Seen.{Seen};

    ghost Value = { Seen };

    ghost view = { λ m. record {
      input = m.input.now;
      seed = m.random.seed;
      guest = m.random.guest;
      place = m.random.place;
      last = as_nanos m.clocks.last;
    } };
}

impl<'a, R: Clock> HostOutside<'a, R> {
    /// The environment of a guest that reads `input` from its start. `guest` is the guest's place on the line, from 0 on. The
    /// monotonic clock counts from `start`.
    pub fn new(rt: &'a R, start: Instant, input: &'a [u8], seed: &[u8; 16], guest: u32) -> Self
        ensures { result ≡ record { input = input.now; seed = seed.now; guest = guest; place = 0; last = 0 } }
    {
        HostOutside {
            input,
            random: RandomStream::new(seed, guest),
            clocks: HostClocks::new(rt, start),
        }
    }
}

impl<R: Clock> Outside for HostOutside<'_, R> {
    ghost gives = { λ before question answer after. Gives before question answer after };

    fn read(&mut self, into: &mut [u8]) -> usize {
        let len = self.input.len().min(into.len());
        let (part, rest) = self.input.split_at(len);
        into[..len].copy_from_slice(part);
        self.input = rest;
        len
    }

    fn random(&mut self, into: &mut [u8]) {
        self.random.fill(into);
    }

    fn now(&mut self, clock: u32) -> (u64, u32) {
        let moment = if clock == 0 {
            self.clocks.real()
        } else {
            self.clocks.monotonic()
        };
        (moment.as_secs(), moment.subsec_nanos())
    }
}
