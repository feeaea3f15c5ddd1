// A bound for each group of sixteen slots: no session of the group had its last packet before it.
ghost use Rattle.std.specs.Prelude.{◌≡◌, ℕ, ◌<◌, ◌≤◌, map, length, IfOk, vec_items, slice_index, fold, flat_map, min, ◌++◌, OnOk};
ghost use Rattle.sessions.specs.Ages.{Lowered};
ghost use Rattle.sessions.specs.Entries.{is_idle, idle_keys};
ghost use Rattle.sessions.specs.Kept.{Grouped, Bounded};
ghost use Rattle.sessions.specs.Slots.{flat};

use super::super::entry::Entry;
use super::super::key::Key;
use super::idle::is_idle;
use std::alloc::{AllocError, Global};

const GROUPS: usize = 4096;

const GROUP: usize = 16;

#[derive(Drop)]
pub struct Bounds {
    ticks: Vec<u64>,
    ghost long: { Grouped ticks.items },
}

impl Bounds {
    pub fn new(heap: Global) -> Result<Bounds, AllocError> {
        let ticks = vec![in heap; 0; GROUPS]?;
        Ok(Bounds { ticks })
    }

    // A packet at the tick in the slot: its group's bound is no later.
    pub fn cover(&mut self, slot: usize, tick: u64)
        requires { slot < 65536 }
        ensures { Lowered slot tick self.old.ticks.items self.new.ticks.items }
    {
        let group = slot / GROUP;
        self.ticks[group] = self.ticks[group].min(tick);
    }

    // The idle sessions of all slots: a group is looked through only if its bound is an hour old.
    // By number: a `zip` of the groups and their bounds was tried, and took half as long again where little is idle.
    pub fn idle_keys(
        &self,
        slots: &[Vec<Entry>],
        tick: u64,
        heap: Global,
    ) -> Result<Vec<Key>, AllocError>
        requires { (length slots.now ≡ 65536) × Bounded (map vec_items slots.now) self.now.ticks.items }
        ensures { IfOk result (λ names. names.items ≡ idle_keys tick (flat (map vec_items slots.now))) }
    {
        let mut names = Vec::new(heap);
        let (groups, _) = slots.as_chunks::<GROUP>();
        for (group, bound) in self.ticks.iter().enumerate() {
            if is_idle(*bound, tick) {
                scan(&groups[group], tick, &mut names)?;
            }
        }
        Ok(names)
    }

    // Makes each bound anew that is an hour old; the answer is no later than any bound.
    pub fn refresh(&mut self, slots: &[Vec<Entry>], tick: u64) -> u64
        requires { (length slots.now ≡ 65536) × Bounded (map vec_items slots.now) self.old.ticks.items }
        ensures limits { Bounded (map vec_items slots.now) self.new.ticks.items }
        ensures least { (g : ℕ) → g < 4096 → result ≤ slice_index self.new.ticks.items g }
    {
        let (groups, _) = slots.as_chunks::<GROUP>();
        let mut oldest = tick;
        // By number: of a bound that is written in a `zip` no proof knows what it became (tried).
        for (group, bound) in self.ticks.iter_mut().enumerate() {
            if is_idle(*bound, tick) {
                *bound = least(&groups[group], tick);
            }
            oldest = oldest.min(*bound);
        }
        oldest
    }
}

// Puts the idle sessions of one slot at the end of `names`.
fn scan_slot(entries: &[Entry], tick: u64, names: &mut Vec<Key>) -> Result<(), AllocError>
    ensures { OnOk result (names.new.items ≡ names.old.items ++ idle_keys tick entries.now) }
{
    for e in entries {
        if is_idle(e.seen, tick) {
            names.push(e.key)?;
        }
    }
    Ok(())
}

// The same for some slots.
fn scan(slots: &[Vec<Entry>], tick: u64, names: &mut Vec<Key>) -> Result<(), AllocError>
    ensures { OnOk result (names.new.items ≡ names.old.items ++ idle_keys tick (flat (map vec_items slots.now))) }
{
    for slot in slots {
        scan_slot(slot.as_slice(), tick, names)?;
    }
    Ok(())
}

// The oldest tick of the sessions of some slots, and of `start`.
fn least(slots: &[Vec<Entry>], start: u64) -> u64
    ensures { result ≡ fold (λ o e. min o e.seen) start (flat_map vec_items slots.now) }
{
    slots
        .iter()
        .flatten()
        .fold(start, |least, e| least.min(e.seen))
}
