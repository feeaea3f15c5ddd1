// The type alone; what it does stands in `ops` and `idle`.
ghost use Rattle.std.specs.Prelude.{map, vec_items};
ghost use Rattle.sessions.specs.Kept.{InSlots, Numbered, Listed, Tallied, NoneBefore, Bounded};

use super::entry::Entry;
use super::tally::Tally;
use bounds::Bounds;

mod bounds;
pub mod idle;
pub mod ops;

// A hash table of sessions, and a tally of the open ones for each place.
// Of our own: sessions are promised in the order of slots, which the library's map leaves open, and a look-up in std's took two to five times as long.
#[derive(Drop)]
pub struct Sessions {
    slots: Vec<Vec<Entry>>,
    // One list for each bucket.
    tallies: Vec<Vec<Tally>>,
    len: usize,
    // No open session had its last packet before this tick.
    oldest: u64,
    // The same for each group of sixteen slots.
    bounds: Bounds,
    ghost filing: { InSlots (map vec_items slots.items) },
    ghost number: { Numbered (map vec_items slots.items) len },
    ghost lists: { Listed (map vec_items tallies.items) },
    ghost places: { Tallied (map vec_items slots.items) (map vec_items tallies.items) },
    ghost ages: { NoneBefore (map vec_items slots.items) oldest },
    ghost limits: { Bounded (map vec_items slots.items) bounds.ticks.items },
}
