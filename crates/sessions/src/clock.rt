// The time of one machine, in ticks of a 256th of a second since it began.
ghost use Rattle.std.specs.Prelude.{◌≡◌};
ghost use Rattle.sessions.specs.Clocks.{ticks_of, Advanced, Lasting};

// 64 bits last for two thousand million years; a message carries 32 bits, how many ticks have passed.
#[derive(Clone, Copy, PartialEq, Eq, Debug, Default)]
pub struct Clock {
    ticks: u64,
}

impl Clock {
    pub fn new() -> Clock
        ensures { ticks_of result ≡ 0 }
    {
        Clock::default()
    }

    pub fn now(self) -> u64
        ensures { result ≡ ticks_of self }
    {
        self.ticks
    }

    // So many ticks more; None, where 64 bits do not hold the sum. It never wraps.
    pub fn advanced(self, count: u32) -> Option<Clock>
        ensures { Advanced (ticks_of self) count result }
    {
        let ticks = self.ticks.checked_add(u64::from(count))?;
        Some(Clock { ticks })
    }
}

// That a clock does not come to its end: each of the first 2^32 counts is added.
pub fn lasts()
    ensures { Lasting }
{}
