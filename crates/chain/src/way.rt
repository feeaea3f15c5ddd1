// Where a packet stands in its search for its session.
ghost use Rattle.std.specs.Prelude.{◌≡◌};
ghost use Rattle.chain.specs.Ways.{way_number, heard_link};

use fault::Fault;
use flow::key::FlowKey;

// A place of a chain, by its number, and the server that stands in it. Places are numbered from 1: the default names none.
#[derive(Clone, Copy, PartialEq, Eq, Default, Debug)]
pub struct Link {
    pub place: u32,
    pub server: u8,
}

impl Link {
    // What a balancer that knows this place knows after it heard of another: the highest place stays.
    pub fn heard(self, said: Link) -> Result<Link, Fault>
        ensures { result ≡ heard_link self said }
    {
        if said.place > self.place {
            Ok(said)
        } else if said.place == self.place && said.server != self.server {
            Err(Fault::Contradiction)
        } else {
            Ok(self)
        }
    }
}

// Up: from a balancer, looking for the newest place. Down: from the newest to the oldest, with who began to ask.
// Asked: nobody had the session, and the packet is back at who began to ask.
#[derive(Clone, Copy, PartialEq, Eq, Debug)]
pub enum Way {
    Up,
    Down(Link),
    Asked(Link),
}

// Its number in messages.
impl From<Way> for u8 {
    ghost from_gives = { λ w n. n ≡ way_number w };

    fn from(way: Way) -> u8 {
        match way {
            Way::Up => 1,
            Way::Down(_) => 2,
            Way::Asked(_) => 3,
        }
    }
}

// What the machines read of a packet: its session, whether it may open one, the place that it is sent to, its way.
#[derive(Clone, Copy, PartialEq, Eq, Debug)]
pub struct Packet {
    pub flow: FlowKey,
    pub opens: bool,
    pub at: Link,
    pub way: Way,
}
