// How the controller's chain of one bucket changes: a handover in its three phases, and places that are forgotten.
ghost use Rattle.std.specs.Prelude.{◌≡◌, length, nat_le, position};
ghost use Rattle.chain.specs.Controllers.{newest_of, first_control, begins, hears_stood, hears_told, above, hears_forgotten};
ghost use Rattle.chain.specs.Kept.{links_of, control};

use super::Chain;
use crate::handover::Handover;
use crate::way::Link;
use fault::Fault;

// The most places that a chain keeps.
const MOST: usize = 8;

impl Chain {
    // At the start place 1 stands at one server.
    pub fn new(server: u8) -> Chain
        ensures { control result ≡ first_control server }
    {
        Chain {
            links: [Link { place: 1, server }; 8],
            len: 1,
            handover: Handover::Idle,
        }
    }

    // The places kept, newest first.
    pub fn links(&self) -> &[Link]
        ensures { result.now ≡ links_of self.now }
    {
        &self.links[0..self.len]
    }

    pub fn newest(&self) -> Link
        ensures { result ≡ newest_of (links_of self.now) }
    {
        self.links[0]
    }

    pub fn handover(&self) -> Handover
        ensures { result ≡ (control self.now).handover }
    {
        self.handover
    }

    // A handover to a server begins: the place that is to be told to stand.
    // Refused before an earlier one is done, and where it would make a ninth place.
    pub fn begin(&mut self, server: u8) -> Result<Link, Fault>
        ensures { (result, control self.new) ≡ begins server (control self.old) }
    {
        let Handover::Idle = self.handover else {
            return Err(Fault::Contradiction);
        };
        let newest = self.links[0].place;
        if self.len >= MOST || newest >= u32::MAX {
            return Err(Fault::ChainFull);
        }
        let link = Link {
            place: newest + 1,
            server,
        };
        self.handover = Handover::AwaitStood(link);
        Ok(link)
    }

    // The place with this number answered that it stands: of whom the newest is to be told now, if the answer was waited for.
    pub fn stood(&mut self, place: u32) -> Option<Link>
        ensures { (result, control self.new) ≡ hears_stood place (control self.old) }
    {
        match self.handover {
            Handover::AwaitStood(link) if link.place == place => {
                self.handover = Handover::AwaitTold(link);
                Some(link)
            }
            _ => None,
        }
    }

    // The place with this number answered that it was told of `after`: is the handover done by that?
    pub fn told(&mut self, place: u32, after: Link) -> bool
        ensures { (result, control self.new) ≡ hears_told place after (control self.old) }
    {
        let Handover::AwaitTold(link) = self.handover else {
            return false;
        };
        if place != self.links[0].place || after != link {
            return false;
        }
        self.links.rotate_right(1);
        self.links[0] = link;
        self.len += 1;
        self.handover = Handover::Idle;
        true
    }

    // The place with this number is forgotten: all up to it leave the chain. Not answered where none newer is kept.
    pub fn forgotten(&mut self, place: u32) -> bool
        ensures { (result, control self.new) ≡ hears_forgotten place (control self.old) }
    {
        if place >= self.links[0].place {
            return false;
        }
        self.len = count_above(self.links(), place);
        true
    }
}

// Where the first of the places stands that is not above the number.
fn first_not_above(links: &[Link], place: u32) -> Option<usize>
    ensures { result ≡ position (λ l. nat_le l.place place) links.now }
{
    links.iter().position(|link| link.place <= place)
}

// How many of the places, newest first, have a higher number.
fn count_above(links: &[Link], place: u32) -> usize
    ensures { result ≡ length (above place links.now) }
{
    first_not_above(links, place).unwrap_or(links.len())
}
