// What is on its way between the machines.
use chain::way::{Link, Packet};

#[derive(Clone, Copy, PartialEq, Eq, Debug)]
pub enum Machine {
    Controller,
    Server(u8),
    Balancer(u8),
}

// A packet, or one of the four control messages, each with its answer.
#[derive(Clone, Copy, PartialEq, Eq, Debug)]
pub enum Body {
    Packet(Packet),
    Stand { place: Link, before: Link },
    Stood { place: Link, before: Link },
    Behind { place: Link, after: Link },
    Told { place: Link, after: Link },
    Door { link: Link },
    Heard { link: Link },
    Forgotten { place: Link, after: Link },
    Noted { place: Link, after: Link },
}

// The number tells it from the others on their way, a copy too.
#[derive(Clone, Copy, PartialEq, Eq, Debug)]
pub struct Message {
    pub number: u32,
    pub from: Machine,
    pub to: Machine,
    pub body: Body,
}
