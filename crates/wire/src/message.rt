// What machines say to each other, and what a reader says of bytes that are no message.
ghost use Rattle.std.specs.Prelude.{◌≡◌, Some};
ghost use Rattle.wire.specs.Stops.{located, unplaced};
ghost use Rattle.wire.specs.Controls.{bucket_in};

use chain::way::{Link, Way};
use fault::{Fault, Refusal};
use flow::key::FlowKey;

// A place of a bucket's chain.
#[derive(Clone, Copy, PartialEq, Eq, Debug)]
pub struct At {
    pub bucket: u16,
    pub place: u32,
}

// The first fault of some bytes, and the place that they speak of, if that was read before the fault.
#[derive(Clone, Copy, PartialEq, Eq, Debug)]
pub struct Unread {
    pub fault: Fault,
    pub at: Option<At>,
}

// What is said about the places of a bucket, with its fields as they lie in the bytes, and so without an At.
#[derive(Clone, Copy, PartialEq, Eq, Debug)]
pub enum Control {
    // Be this place, behind the one before.
    Stand {
        bucket: u16,
        place: u32,
        before: Option<Link>,
    },
    // There is a place behind you.
    Behind {
        bucket: u16,
        place: u32,
        after: Link,
    },
    // Send to this place.
    Door {
        bucket: u16,
        newest: Link,
    },
    // This place is no more; the one after it is the oldest.
    Forgotten {
        bucket: u16,
        place: u32,
        after: Link,
    },
}

// What somebody outside tells a machine.
#[derive(Clone, Copy, PartialEq, Eq, Debug)]
pub enum Order {
    // A session is closed.
    Closed(FlowKey),
    // A server is added.
    Added(u8),
    // A server is removed.
    Removed(u8),
    // That many ticks pass.
    Ticks(u32),
}

// Where a packet between machines goes, on which way, and whether it may open a session: its fields as they lie in the bytes, and so without an At.
#[derive(Clone, Copy, PartialEq, Eq, Debug)]
pub struct Head {
    pub bucket: u16,
    pub place: u32,
    pub way: Way,
    pub opens: bool,
}

#[derive(Clone, Copy, PartialEq, Eq, Debug)]
pub enum Message<'a> {
    // A packet on its way between machines, with the session that it names.
    Packet {
        head: Head,
        flow: FlowKey,
        packet: &'a [u8],
    },
    Control(Control),
    // The same message, said back to whoever said it.
    Answer(Control),
    // A packet that goes back to its sender, and why.
    Refused {
        refusal: Refusal,
        packet: &'a [u8],
    },
    Order(Order),
}

impl Control {
    // The bucket that it speaks of.
    pub fn bucket(self) -> u16
        ensures { result ≡ bucket_in self }
    {
        match self {
            Control::Stand { bucket, .. }
            | Control::Behind { bucket, .. }
            | Control::Door { bucket, .. }
            | Control::Forgotten { bucket, .. } => bucket,
        }
    }
}

impl At {
    // What was found behind this place, or the fault there.
    pub fn found<T>(self, found: Result<T, Fault>) -> Result<T, Unread>
        ensures { result ≡ located (Some self) found }
    {
        found.map_err(|fault| Unread {
            fault,
            at: Some(self),
        })
    }
}

impl From<Fault> for Unread {
    ghost from_gives = { λ f r. r ≡ unplaced f };

    fn from(fault: Fault) -> Unread {
        Unread { fault, at: None }
    }
}
