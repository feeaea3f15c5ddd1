// Sessions that had no packet for an hour.
ghost use Rattle.std.specs.Prelude.{◌≡◌, IfOk, fold};
ghost use Rattle.sessions.specs.Entries.{is_idle, idle_keys, staying, without};
ghost use Rattle.sessions.specs.Model.{entries_of, Lapsing};

use super::super::key::Key;
use super::Sessions;
use fault::Error;
use std::alloc::{AllocError, Global};

// An hour in ticks.
const HOUR: u64 = 921_600;

// Has an hour passed at the tick since the last packet? No sum is made, so none can wrap.
pub fn is_idle(seen: u64, tick: u64) -> bool
    ensures { result ≡ is_idle tick seen }
{
    tick.saturating_sub(seen) >= HOUR
}

impl Sessions {
    // All sessions that had no packet for an hour at the tick, in the order of their slots, and in one slot of their opening.
    // Slots are looked through only where a session may be idle.
    pub fn idle_keys(&self, heap: Global, tick: u64) -> Result<Vec<Key>, AllocError>
        ensures { IfOk result (λ names. names.items ≡ idle_keys tick (entries_of self.now)) }
    {
        if !is_idle(self.oldest, tick) {
            return Ok(Vec::new(heap));
        }
        self.bounds.idle_keys(&self.slots, tick, heap)
    }

    // Closes them, once they are known.
    pub fn close_idle(&mut self, names: &[Key], tick: u64)
        requires { names.now ≡ idle_keys tick (entries_of self.old) }
        ensures { entries_of self.new ≡ staying tick (entries_of self.old) }
    {
        if !is_idle(self.oldest, tick) {
            return;
        }
        self.close_all(names);
        self.oldest = self.bounds.refresh(&self.slots, tick);
    }

    // Closes all sessions that had no packet for an hour at the tick, and names them. Nothing changes where there is no memory.
    pub fn idle(&mut self, heap: Global, tick: u64) -> Result<Vec<Key>, Error>
        ensures { Lapsing tick (entries_of self.old) (entries_of self.new) result }
    {
        let names = self.idle_keys(heap, tick)?;
        self.close_idle(names.as_slice(), tick);
        Ok(names)
    }

    fn close_all(&mut self, names: &[Key])
        ensures { entries_of self.new ≡ fold (λ es k. without k es) (entries_of self.old) names.now }
    {
        for key in names {
            self.close(key);
        }
    }
}
