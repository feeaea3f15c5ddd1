// What one server knows of the places of one bucket, and what each message about them does.
ghost use Rattle.std.specs.Prelude.{◌≡◌, ◌<◌, ◌≤◌};
ghost use Rattle.arrayvec.specs.ArrayVec.{array_vec_len};

use crate::newest::put_newest;
use crate::search::{find_in, oldest_in, replace_in};
use arrayvec::ArrayVec;
use chain::place::{Place, Standing};
use chain::way::Link;
use fault::Fault;

// The most places of one bucket where a server stands.
const MOST: usize = 8;

// The most forgotten places that it remembers: the oldest of more is dropped.
const MOST_PAST: usize = 16;

// The places of one bucket where a server stands, and the last that it has forgotten, the newest first.
// Each list is an array of fixed length with the count of those that are used: it lies in the struct and never on the heap.
#[derive(Drop)]
pub struct Places {
    // The highest place that it ever stood in: it never stands in a lower one again.
    highest: u32,
    standing: ArrayVec<Place, MOST>,
    past: ArrayVec<Place, MOST_PAST>,
    ghost few: { array_vec_len standing ≤ 8 },
    ghost past_few: { array_vec_len past ≤ 16 },
}

impl Places {
    // Here and not at the head of the file, whose imports the ghost fields take over.
    ghost use Rattle.places.specs.Rules.{nowhere, first_of, find, stand, behind, freed, retire, stood_with};
    ghost use Rattle.places.specs.Kept.{known};

    // A server that never had the bucket.
    pub fn new() -> Places
        ensures { known result ≡ nowhere }
    {
        Places {
            highest: 0,
            standing: ArrayVec::new(),
            past: ArrayVec::new(),
        }
    }

    // At the start: place 1 of the bucket stands at this server.
    pub fn first(server: u8) -> Places
        ensures { known result ≡ first_of server }
    {
        let mut places = Places::new();
        places.push(Place {
            link: Link { place: 1, server },
            standing: Standing::Stands {
                before: None,
                after: None,
            },
        });
        places
    }

    pub fn highest(&self) -> u32
        ensures { result ≡ (known self.now).highest }
    {
        self.highest
    }

    // The places where it stands, the newest first.
    pub fn standing(&self) -> &[Place]
        ensures { result.now ≡ (known self.now).standing }
    {
        self.standing.as_slice()
    }

    // The last sixteen that it has forgotten, the newest first.
    pub fn past(&self) -> &[Place]
        ensures { result.now ≡ (known self.now).past }
    {
        self.past.as_slice()
    }

    // The place with this number, if it stands here or is remembered as forgotten.
    #[tactic(auto, using(crate::proofs::Searched::found))]
    pub fn find(&self, number: u32) -> Option<Place>
        ensures { result ≡ find number (known self.now) }
    {
        find_in(&self.standing, number).or_else(|| find_in(&self.past, number))
    }

    // Told to stand: a place above the highest is taken; any other is answered and changes nothing.
    pub fn stand(&mut self, link: Link, before: Option<Link>) -> Result<(), Fault>
        ensures { (result, known self.new) ≡ stand link before (known self.old) }
    {
        if let Some(place) = self.find(link.place) {
            place.told_to_stand(before)?;
            return Ok(());
        }
        if link.place <= self.highest {
            return Ok(());
        }
        if self.standing.is_full() {
            return Err(Fault::ChainFull);
        }
        let never = Place {
            link,
            ..Place::default()
        };
        self.push(never.told_to_stand(before)?);
        Ok(())
    }

    // Told of the place behind this one. What is only remembered stays as it is.
    pub fn behind(&mut self, number: u32, after: Link) -> Result<(), Fault>
        ensures { (result, known self.new) ≡ behind number after (known self.old) }
    {
        let place = self.find(number).ok_or(Fault::UnknownPlace)?;
        let followed = place.told_behind(after)?;
        replace_in(&mut self.standing, number, followed);
        Ok(())
    }

    // Told that the place before this one is forgotten. One that is not remembered any more is answered.
    pub fn freed(&mut self, number: u32, gone: u32) -> Result<(), Fault>
        ensures { (result, known self.new) ≡ freed number gone (known self.old) }
    {
        let Some(place) = self.find(number) else {
            if number > self.highest {
                return Err(Fault::UnknownPlace);
            }
            return Ok(());
        };
        let told = place.told_forgotten(gone)?;
        replace_in(&mut self.standing, number, told);
        Ok(())
    }

    // Forgets the place if it may be: then the place after it, who is to be told.
    pub fn retire(&mut self, number: u32, empty: bool) -> Option<Link>
        ensures { (result, known self.new) ≡ retire number empty (known self.old) }
    {
        let oldest = oldest_in(&self.standing)?;
        if oldest.link.place != number {
            return None;
        }
        let gone = oldest.forget(empty)?;
        self.standing.pop();
        put_newest(&mut self.past, gone);
        match gone.standing {
            Standing::Forgotten { after } => Some(after),
            Standing::Stands { after, .. } => after,
            Standing::Never => None,
        }
    }

    // One place more, the newest.
    fn push(&mut self, place: Place)
        requires { array_vec_len self.old.standing < 8 }
        ensures { known self.new ≡ stood_with place (known self.old) }
    {
        self.standing.insert(0, place);
        self.highest = place.link.place;
    }
}
