// What the timers show at the most.
ghost use Rattle.std.specs.Prelude.{◌≡◌, slice_index};

// The most timers that a plan may have.
pub(crate) const MOST_TIMERS: usize = 16;

// The most whole seconds that each timer shows. Places past the plan's timers say nothing.
#[derive(Clone, Copy, Debug, Default, PartialEq, Eq)]
pub struct Bounds {
    pub most: [u16; MOST_TIMERS],
}

impl Bounds {
    // The most seconds that a timer shows.
    pub(crate) fn of_timer(&self, timer: usize) -> u16
        ensures { result ≡ slice_index self.now.most timer }
    {
        self.most.get(timer).copied().unwrap_or(0)
    }
}
