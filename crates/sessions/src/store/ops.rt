ghost use Rattle.std.specs.Prelude.{◌≡◌, ◌<◌, false, [], is_some, IfOk, None};
ghost use Rattle.sessions.specs.declared.store.Sessions.{Sessions as SessionsT};
ghost use Rattle.sessions.specs.Entries.{without};
ghost use Rattle.sessions.specs.Model.{entries_of, at, count_at, total, touched, Changed, Opening, Adding, Sound};

use super::super::entry::Entry;
use super::super::key::Key;
use super::super::{entry, tally};
use super::Sessions;
use super::bounds::Bounds;
use fault::{Error, Fault};
use std::alloc::{AllocError, Global};

const SLOTS: usize = 65536;
// As many sessions as a server has at once.
const MOST: usize = 65536;

impl Sessions {
    pub fn new(heap: Global) -> Result<Sessions, AllocError>
        ensures { IfOk result (λ s. entries_of s ≡ []) }
    {
        let mut slots = Vec::with_capacity(heap, SLOTS)?;
        let mut tallies = Vec::with_capacity(heap, SLOTS)?;
        let bounds = Bounds::new(heap)?;
        // No index: each slot and each bucket gets a list of its own, which `resize` would have to copy.
        for _i in 0..SLOTS {
            slots.push(Vec::new(heap))?;
            tallies.push(Vec::new(heap))?;
        }
        Ok(Sessions {
            slots,
            tallies,
            len: 0,
            oldest: 0,
            bounds,
        })
    }

    // How many sessions are open.
    pub fn len(&self) -> usize
        ensures { result ≡ total self.now }
    {
        self.len
    }

    // The tick of the session's last packet, if it is open.
    pub fn last_packet(&self, key: &Key) -> Option<u64>
        ensures { result ≡ at self.now key.now }
    {
        entry::find(self.slots[key.slot()].as_slice(), key)
    }

    pub fn is_open(&self, key: &Key) -> bool
        ensures { result ≡ is_some (at self.now key.now) }
    {
        self.last_packet(key).is_some()
    }

    // How many sessions are open in the place: 0, if it is empty.
    pub fn count_at(&self, bucket: u16, place: u32) -> u32
        ensures { result ≡ count_at self.now bucket place }
    {
        tally::count(self.tallies[usize::from(bucket)].as_slice(), place)
    }

    // A packet came: notes the tick. False, if the session is not open, and then nothing changes.
    pub fn touch(&mut self, key: &Key, tick: u64) -> bool
        ensures answer { result ≡ is_some (at self.old key.now) }
        ensures change { Changed (entries_of self.old) (entries_of self.new) key.now (touched tick (at self.old key.now)) }
        ensures same { result ≡ false → entries_of self.new ≡ entries_of self.old }
    {
        let slot = key.slot();
        let found = entry::note(&mut self.slots[slot], key, tick);
        self.oldest = self.oldest.min(tick);
        self.bounds.cover(slot, tick);
        found
    }

    // Closes the session in its place, and no other. False, if it is not open, and then nothing changes.
    pub fn close(&mut self, key: &Key) -> bool
        ensures answer { result ≡ is_some (at self.old key.now) }
        ensures change { Changed (entries_of self.old) (entries_of self.new) key.now None }
        ensures rest { entries_of self.new ≡ without key.now (entries_of self.old) }
    {
        if !entry::remove(&mut self.slots[key.slot()], key) {
            return false;
        }
        tally::lower(&mut self.tallies[key.bucket_index()], key.place);
        self.len -= 1;
        true
    }

    // Opens the session, or notes the tick where it is open. Refused, where it would be one too many; a refusal changes nothing.
    pub fn open(&mut self, key: Key, tick: u64) -> Result<(), Error>
        ensures { Opening key tick (entries_of self.old) (entries_of self.new) result }
    {
        if self.touch(&key, tick) {
            return Ok(());
        }
        if self.len >= MOST {
            return Err(Error::Of(Fault::ServerFull));
        }
        self.add(key, tick)
    }

    fn add(&mut self, key: Key, tick: u64) -> Result<(), Error>
        requires { (at self.old key ≡ None) × (total self.old < 65536) }
        ensures { Adding key tick (entries_of self.old) (entries_of self.new) result }
    {
        let bucket = key.bucket_index();
        tally::raise(&mut self.tallies[bucket], key.place)?;
        let slot = key.slot();
        match self.slots[slot].push(Entry { key, seen: tick }) {
            Ok(()) => {
                self.len += 1;
                self.oldest = self.oldest.min(tick);
                self.bounds.cover(slot, tick);
                Ok(())
            }
            Err(_) => {
                tally::lower(&mut self.tallies[bucket], key.place);
                Err(Error::Memory)
            }
        }
    }
}

// What holds of every store.
pub fn sound()
    ensures { (s : SessionsT) → Sound s }
{}
