// One place of a chain, as its server knows it. It changes by value: each method takes the place and gives the place after.
ghost use Rattle.std.specs.Prelude.{◌≡◌};
ghost use Rattle.chain.specs.Places.{told_to_stand, told_behind, told_forgotten, forgets, handle, nobody_has, below, strays};

use crate::way::{Link, Packet, Way};
use fault::{Fault, Refusal};

// Never: nobody stood here yet. Stands: with the place before it and the place after it, if there are such.
// Forgotten: only the place after it is remembered.
#[derive(Clone, Copy, PartialEq, Eq, Default, Debug)]
pub enum Standing {
    #[default]
    Never,
    Stands {
        before: Option<Link>,
        after: Option<Link>,
    },
    Forgotten {
        after: Link,
    },
}

#[derive(Clone, Copy, PartialEq, Eq, Default, Debug)]
pub struct Place {
    pub link: Link,
    pub standing: Standing,
}

// What a server's store of sessions says of a packet's session at one of its places.
#[derive(Clone, Copy, PartialEq, Eq, Debug)]
pub enum Entry {
    // It is open here.
    Open,
    // It is not, and the server has room for one more.
    Vacant,
    // It is not, and the server is full.
    Full,
}

#[derive(Clone, Copy, PartialEq, Eq, Debug)]
pub enum Outcome {
    Delivered,
    Opened,
    Forwarded { to: Link, way: Way },
    Refused(Refusal),
    // As if lost: this server does not know the place.
    Dropped,
}

impl Place {
    // Told to stand behind `before`. A place that stands already, or that was forgotten, answers and stays as it is.
    pub fn told_to_stand(self, before: Option<Link>) -> Result<Place, Fault>
        ensures { result ≡ told_to_stand before self }
    {
        if !is_below(before, self.link.place) {
            return Err(Fault::Contradiction);
        }
        match (self.standing, before) {
            (Standing::Never, _) => Ok(Place {
                link: self.link,
                standing: Standing::Stands {
                    before,
                    after: None,
                },
            }),
            (
                Standing::Stands {
                    before: Some(known),
                    ..
                },
                Some(said),
            ) => {
                if said == known {
                    Ok(self)
                } else {
                    Err(Fault::Contradiction)
                }
            }
            (
                Standing::Stands {
                    before: Some(_),
                    ..
                },
                None,
            ) => Err(Fault::Contradiction),
            // The place before may have been forgotten since: a late copy contradicts nothing.
            (Standing::Stands { before: None, .. }, _) => Ok(self),
            (Standing::Forgotten { .. }, _) => Ok(self),
        }
    }

    // Told that `after` is behind it. Written once: another one contradicts it.
    pub fn told_behind(self, after: Link) -> Result<Place, Fault>
        ensures { result ≡ told_behind after self }
    {
        if let Standing::Never = self.standing {
            return Err(Fault::UnknownPlace);
        }
        if after.place <= self.link.place {
            return Err(Fault::Contradiction);
        }
        match self.standing {
            Standing::Never => Err(Fault::UnknownPlace),
            Standing::Stands {
                before,
                after: None,
            } => Ok(Place {
                link: self.link,
                standing: Standing::Stands {
                    before,
                    after: Some(after),
                },
            }),
            Standing::Stands {
                after: Some(known),
                ..
            }
            | Standing::Forgotten { after: known } => {
                if after == known {
                    Ok(self)
                } else {
                    Err(Fault::Contradiction)
                }
            }
        }
    }

    // Told that the place with this number, before it, is forgotten.
    pub fn told_forgotten(self, number: u32) -> Result<Place, Fault>
        ensures { result ≡ told_forgotten number self }
    {
        match self.standing {
            Standing::Never => Err(Fault::UnknownPlace),
            Standing::Stands {
                before: Some(known),
                after,
            } => {
                if known.place == number {
                    Ok(Place {
                        link: self.link,
                        standing: Standing::Stands {
                            before: None,
                            after,
                        },
                    })
                } else {
                    Err(Fault::Contradiction)
                }
            }
            Standing::Stands { before: None, .. } | Standing::Forgotten { .. } => Ok(self),
        }
    }

    // The place once it is forgotten, if it may be: no session is open in it, none stands before it, one stands after it.
    pub fn forget(self, empty: bool) -> Option<Place>
        ensures { result ≡ forgets empty self }
    {
        match (self.standing, empty) {
            (
                Standing::Stands {
                    before: None,
                    after: Some(after),
                },
                true,
            ) => Some(Place {
                link: self.link,
                standing: Standing::Forgotten { after },
            }),
            _ => None,
        }
    }

    // What becomes of a packet here.
    pub fn handle(self, packet: Packet, entry: Entry) -> Outcome
        ensures { result ≡ handle self packet entry }
    {
        if let Standing::Never = self.standing {
            return Outcome::Dropped;
        }
        if is_stray(packet, self.link.place) {
            return Outcome::Refused(Refusal::For(Fault::WrongAsker));
        }
        match (packet.way, self.standing, entry) {
            (_, Standing::Never, _) => Outcome::Dropped,
            (_, Standing::Stands { .. }, Entry::Open) => Outcome::Delivered,
            (Way::Up, Standing::Stands { before, after }, _) => match after {
                Some(to) => Outcome::Forwarded { to, way: Way::Up },
                None => ask_below(self.link, packet.opens, before),
            },
            (Way::Down(by), Standing::Stands { before, .. }, _) => {
                ask_below(by, packet.opens, before)
            }
            (Way::Asked(_), Standing::Stands { after, .. }, room) => match (after, room) {
                (Some(to), _) => Outcome::Forwarded { to, way: Way::Up },
                (None, Entry::Full) => Outcome::Refused(Refusal::For(Fault::ServerFull)),
                (None, _) => Outcome::Opened,
            },
            (Way::Down(by), Standing::Forgotten { .. }, _) => nobody_has(by, packet.opens),
            (_, Standing::Forgotten { after: to }, _) => Outcome::Forwarded { to, way: Way::Up },
        }
    }
}

// Asked, but elsewhere than at who began to ask, or a packet that may not open.
fn is_stray(packet: Packet, here: u32) -> bool
    ensures { result ≡ strays here packet.opens packet.way }
{
    match packet.way {
        Way::Up | Way::Down(_) => false,
        Way::Asked(by) => by.place != here || !packet.opens,
    }
}

fn is_below(before: Option<Link>, place: u32) -> bool
    ensures { result ≡ below place before }
{
    match before {
        Some(link) => link.place < place,
        None => true,
    }
}

// On to the place before, for who began to ask.
fn ask_below(by: Link, opens: bool, before: Option<Link>) -> Outcome
    ensures { result ≡ Rattle.chain.specs.Places.ask_below by opens before }
{
    match before {
        Some(to) => Outcome::Forwarded {
            to,
            way: Way::Down(by),
        },
        None => nobody_has(by, opens),
    }
}

// Nobody has the session.
fn nobody_has(by: Link, opens: bool) -> Outcome
    ensures { result ≡ nobody_has by opens }
{
    if opens {
        Outcome::Forwarded {
            to: by,
            way: Way::Asked(by),
        }
    } else {
        Outcome::Refused(Refusal::Nobody)
    }
}
