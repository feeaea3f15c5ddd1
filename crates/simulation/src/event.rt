// What is seen of an event.
use chain::way::Link;
use fault::{Fault, Refusal};
use flow::key::FlowKey;
use machine::name::Machine;

#[derive(Clone, Copy, PartialEq, Eq, Debug)]
pub enum Event {
    // The letter with this number is on its way now; was handled; is lost.
    Sent {
        number: u32,
        bucket: u16,
    },
    Handled {
        number: u32,
        bucket: u16,
        at: Machine,
    },
    Lost {
        number: u32,
        bucket: u16,
    },
    // The packet was given to its session, which was open or was opened just now.
    Given {
        at: Link,
        bucket: u16,
        flow: FlowKey,
        opened: bool,
    },
    // The packet goes back to its sender.
    Refused {
        at: Link,
        bucket: u16,
        flow: FlowKey,
        refusal: Refusal,
    },
    // For a place that the server does not know: as if lost.
    Dropped {
        bucket: u16,
    },
    // A message was refused, and nothing changed.
    Contradicted {
        bucket: u16,
        fault: Fault,
    },
    // The session was closed at this server, by order.
    Closed {
        server: u8,
        flow: FlowKey,
    },
    // The controller's report: a handover of this bucket waits for room.
    PutOff {
        bucket: u16,
    },
}

impl Event {
    // The bucket that it is about, if it is about one.
    pub fn bucket(self) -> Option<u16> {
        match self {
            Event::Sent { bucket, .. }
            | Event::Handled { bucket, .. }
            | Event::Lost { bucket, .. }
            | Event::Given { bucket, .. }
            | Event::Refused { bucket, .. }
            | Event::Dropped { bucket }
            | Event::Contradicted { bucket, .. }
            | Event::PutOff { bucket } => Some(bucket),
            Event::Closed { .. } => None,
        }
    }
}

// What came of all packets since the start.
#[derive(Clone, Copy, PartialEq, Eq, Default, Debug)]
pub struct Tally {
    pub opened: u64,
    pub given: u64,
    pub refused: u64,
    pub lost: u64,
    // The most forwardings of one packet.
    pub longest: u32,
}

impl Tally {
    pub fn noted(self, event: Event) -> Tally {
        match event {
            Event::Given { opened, .. } => Tally {
                opened: self.opened.wrapping_add(u64::from(opened)),
                given: self.given.wrapping_add(1),
                ..self
            },
            Event::Refused { .. } => Tally {
                refused: self.refused.wrapping_add(1),
                ..self
            },
            Event::Lost { .. } | Event::Dropped { .. } => Tally {
                lost: self.lost.wrapping_add(1),
                ..self
            },
            _ => self,
        }
    }

    pub fn forwarded(self, times: u32) -> Tally {
        Tally {
            longest: self.longest.max(times),
            ..self
        }
    }
}
