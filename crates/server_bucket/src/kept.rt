// What one server keeps of one bucket, and what each message about it does.
ghost use Rattle.std.specs.Prelude.{◌≡◌, ◌≤◌, ◌&&◌, ◌++◌, length, MatchResult, ◌==◌};
ghost use Rattle.arrayvec.specs.ArrayVec.{array_vec_len};
ghost use Rattle.places.specs.Rules.{find};
ghost use Rattle.machine.specs.Outboxes.{sent_of};

use crate::farewell::Farewell;
use crate::say::say_due;
use crate::search::{answered_in, pass};
use arrayvec::ArrayVec;
use chain::place::Place;
use chain::way::Link;
use fault::Fault;
use machine::name::Machine;
use machine::outbox::Outbox;
use places::kept::Places;
use places::newest::put_newest;
use std::alloc::AllocError;

// The most farewells: the oldest of more counts as answered.
const MOST: usize = 16;

#[derive(Drop)]
pub struct Bucket {
    places: Places,
    // The newest first. An array of fixed length with the count of those that are used: it lies in the struct and never on the heap.
    farewells: ArrayVec<Farewell, MOST>,
    ghost few: { array_vec_len farewells ≤ 16 },
}

impl Bucket {
    // Here and not at the head of the file, whose imports the ghost field takes over.
    ghost use Rattle.server_bucket.specs.Rules.{unheld, held_first, emptied, stand, behind, freed, answered, due, passed};
    ghost use Rattle.server_bucket.specs.Kept.{holding};

    // A bucket that this server never had.
    pub fn new() -> Bucket
        ensures { holding result ≡ unheld }
    {
        Bucket {
            places: Places::new(),
            farewells: ArrayVec::new(),
        }
    }

    // At the start: place 1 of the bucket stands at this server.
    pub fn first(server: u8) -> Bucket
        ensures { holding result ≡ held_first server }
    {
        Bucket {
            places: Places::first(server),
            farewells: ArrayVec::new(),
        }
    }

    // The place with this number, if it stands here or is remembered as forgotten.
    pub fn find(&self, place: u32) -> Option<Place>
        ensures { result ≡ find place (holding self.now).known }
    {
        self.places.find(place)
    }

    // The places where this server stands, the newest first.
    pub fn standing(&self) -> &[Place]
        ensures { result.now ≡ (holding self.now).known.standing }
    {
        self.places.standing()
    }

    // The highest place that this server ever stood in.
    pub fn highest(&self) -> u32
        ensures { result ≡ (holding self.now).known.highest }
    {
        self.places.highest()
    }

    // The last places that this server has forgotten, the newest first.
    pub fn past(&self) -> &[Place]
        ensures { result.now ≡ (holding self.now).known.past }
    {
        self.places.past()
    }

    // Those of which not all have answered, the newest first.
    pub fn farewells(&self) -> &[Farewell]
        ensures { result.now ≡ (holding self.now).farewells }
    {
        self.farewells.as_slice()
    }

    // Stands in no place, and each farewell has both its answers.
    pub fn is_left(&self) -> bool
        ensures { result ≡ (length (holding self.now).known.standing == 0 && length (holding self.now).farewells == 0) }
    {
        self.places.standing().is_empty() && self.farewells.is_empty()
    }

    // Told to stand in a place.
    pub fn stand(&mut self, link: Link, before: Option<Link>) -> Result<(), Fault>
        ensures { (result, holding self.new) ≡ stand link before (holding self.old) }
    {
        self.places.stand(link, before)
    }

    // Told of the place behind this one, which may be forgotten by that: then the place after it, of which is to be told.
    pub fn behind(&mut self, place: u32, after: Link, empty: bool) -> Result<Option<Link>, Fault>
        ensures { (result, holding self.new) ≡ behind place after empty (holding self.old) }
    {
        self.places.behind(place, after)?;
        Ok(self.emptied(place, empty))
    }

    // Told that the place before this one is forgotten, and this one may be forgotten by that.
    pub fn freed(&mut self, place: u32, gone: u32, empty: bool) -> Result<Option<Link>, Fault>
        ensures { (result, holding self.new) ≡ freed place gone empty (holding self.old) }
    {
        self.places.freed(place, gone)?;
        Ok(self.emptied(place, empty))
    }

    // Forgets the place if it may be: then the place after it, of which is to be told.
    pub fn emptied(&mut self, place: u32, empty: bool) -> Option<Link>
        ensures { (result, holding self.new) ≡ emptied place empty (holding self.old) }
    {
        let after = self.places.retire(place, empty)?;
        put_newest(&mut self.farewells, Farewell::new(place, after));
        Some(after)
    }

    // The machine heard that the place is forgotten and what is after it. What fits nothing is ignored.
    // The two stay apart, as they are in the message: a struct of both would be taken apart again at each use.
    pub fn answered(&mut self, place: u32, after: Link, by: Machine)
        ensures { holding self.new ≡ answered place after by (holding self.old) }
    {
        answered_in(&mut self.farewells, place, after, by);
    }

    // Says again what is due after so many ticks. Nothing is said where there is no memory.
    pub fn due(&self, bucket: u16, ticks: u32, out: &mut Outbox) -> Result<(), AllocError>
        ensures { MatchResult result (λ _. sent_of out.new ≡ sent_of out.old ++ due bucket ticks (holding self.now)) (λ _. sent_of out.new ≡ sent_of out.old) }
    {
        out.make_room(2 * self.farewells.len())?;
        say_due(&self.farewells, bucket, ticks, out);
        Ok(())
    }

    // So many ticks pass.
    pub fn passed(&mut self, ticks: u32)
        ensures { holding self.new ≡ passed ticks (holding self.old) }
    {
        pass(&mut self.farewells, ticks);
    }
}
