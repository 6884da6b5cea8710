// A scheduler that is sampled by its identifier.
ghost use Rattle.std.specs.Prelude.{◌≡◌, ◌+◌, ◌^◌, ◌<◌, ◌≤◌, length, map, fold};
ghost use Rattle.std.specs.List.{flat_map};
ghost use Rattle.region.specs.Viewed.{viewed};
ghost use Rattle.region.specs.Views.{timer_in};
ghost use Rattle.schedulers.specs.Hashes.{fnv, mixed, sample_bytes, timer_bytes};
ghost use Rattle.schedulers.specs.Meanings.{sampled_by, wait_in};
ghost use Rattle.schedulers.specs.Samples.{sampled_in_range, sampled_none};

use crate::hash::{BASIS, mix, mix_bytes};
use crate::scheduler::Scheduler;
// The number after a hash in the computed sequence.
pub use draws::congruential::next;
use draws::ticket::ticket;
use region::value::TimerValue;
use runs::{Offer, State};

// The choice depends on the identifier, the stage and the region, and on nothing else.
#[derive(Clone, Copy, Debug, PartialEq, Eq)]
pub struct Sampled {
    pub identifier: u32,
}

// The hash with a timer's seconds and rank more.
fn mix_timer(h: u32, t: TimerValue) -> u32
    ensures { result ≡ fold mixed h (timer_bytes (timer_in t)) }
{
    mix(mix_bytes(h, &t.seconds.to_be_bytes()), t.rank)
}

// The hash with each timer more.
fn mix_timers(h: u32, timers: &[TimerValue]) -> u32
    ensures { result ≡ fold mixed h (flat_map timer_bytes (map timer_in timers.now)) }
{
    timers.iter().fold(h, |h, t| mix_timer(h, *t))
}

// The wait within an offer that a hash chooses.
fn wait_in(o: Offer, h: u32) -> u32
    ensures { result ≡ wait_in o h }
{
    let span = u64::from(o.highest.saturating_sub(o.lowest)) + 1;
    o.lowest + ticket(next(h), span) as u32
}

impl Sampled {
    // The hash of the identifier, the stage and the region.
    pub fn hash_of(&self, at: &State) -> u32
        ensures { result ≡ fnv (sample_bytes self.now.identifier at.now.stage (viewed at.now.region)) }
    {
        let h = mix_bytes(BASIS, &self.identifier.to_be_bytes());
        let h = mix_bytes(h, &at.stage.to_be_bytes());
        let h = mix(mix(h, u8::from(at.region.is_whole())), at.region.classes());
        mix_timers(h, at.region.values())
    }
}

impl Scheduler for Sampled {
    ghost meaning = { λ s. sampled_by s.identifier };

    ghost within = { λ s. sampled_in_range s.identifier };

    ghost none = { λ s. sampled_none s.identifier };

    fn choose(&self, at: &State, offers: &[Offer]) -> (usize, u32) {
        if offers.is_empty() {
            return (0, 0);
        }
        let h = self.hash_of(at);
        let place = ticket(h, offers.len() as u64) as usize;
        (place, wait_in(offers[place], h))
    }
}
