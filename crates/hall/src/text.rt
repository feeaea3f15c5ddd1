// What is printed of messages and events. Here a server is a house, a balancer a door, the controller the office, a session a table.
use chain::way::Packet;
use shown::text::{LinkText, PacketText};
use stage::event::Event;
use stage::message::{Body, Machine, Message};
use std::fmt;

// The stage has machines of a type of its own, three kinds of them: the network prints five of another, and a conversion is no shorter than this.
#[derive(Drop)]
struct MachineText(Machine);

impl fmt::Display for MachineText {
    fn fmt<W: fmt::Write>(&self, f: &mut fmt::Formatter<W>) -> fmt::Result {
        match self.0 {
            Machine::Controller => f.write_str("office"),
            Machine::Server(server) => write!(f, "house {server}"),
            Machine::Balancer(balancer) => write!(f, "door {balancer}"),
        }
    }
}

#[derive(Drop)]
struct BodyText(Body);

impl fmt::Display for BodyText {
    fn fmt<W: fmt::Write>(&self, f: &mut fmt::Formatter<W>) -> fmt::Result {
        match self.0 {
            Body::Packet(
                Packet {
                    flow,
                    opens,
                    at,
                    way,
                },
            ) => {
                let place = at.place;
                let text = PacketText {
                    flow,
                    place,
                    way,
                    opens,
                };
                write!(f, "{text}")
            }
            Body::Stand { place, before } => {
                write!(
                    f,
                    "stand at place {}, before you {}",
                    place.place,
                    LinkText(before)
                )
            }
            Body::Stood { place, .. } => write!(f, "I stand at place {}", place.place),
            Body::Behind { place, after } => {
                write!(
                    f,
                    "behind you at place {}: {}",
                    place.place,
                    LinkText(after)
                )
            }
            Body::Told { place, after } => {
                write!(f, "place {} was told of place {}", place.place, after.place)
            }
            Body::Door { link } => write!(f, "door: {}", LinkText(link)),
            Body::Heard { link } => write!(f, "I heard of place {}", link.place),
            Body::Forgotten { place, after } => {
                write!(
                    f,
                    "forgotten: place {}, after it {}",
                    place.place,
                    LinkText(after)
                )
            }
            Body::Noted { place, .. } => write!(
                f,
                "I heard that place {} is forgotten",
                place.place
            ),
        }
    }
}

#[derive(Drop)]
pub struct MessageText(pub Message);

impl fmt::Display for MessageText {
    fn fmt<W: fmt::Write>(&self, f: &mut fmt::Formatter<W>) -> fmt::Result {
        let Message {
            number,
            from,
            to,
            body,
        } = self.0;
        write!(
            f,
            "{number}, {} to {}: {}",
            MachineText(from),
            MachineText(to),
            BodyText(body)
        )
    }
}

#[derive(Drop)]
pub struct EventText(pub Event);

impl fmt::Display for EventText {
    fn fmt<W: fmt::Write>(&self, f: &mut fmt::Formatter<W>) -> fmt::Result {
        match self.0 {
            Event::Sent(message) => write!(f, "on its way {}", MessageText(message)),
            Event::Handled(message) => {
                write!(
                    f,
                    "handled {} at {}",
                    message.number,
                    MachineText(message.to)
                )
            }
            Event::Lost(message) => write!(f, "lost {}", message.number),
            Event::Delivered { at, flow } => write!(f, "given {flow} at {}", LinkText(at)),
            Event::Opened { at, flow } => {
                write!(f, "given {flow} at {}, opened now", LinkText(at))
            }
            Event::Refused { at, flow, refusal } => write!(
                f,
                "refused {} {flow} at {}: {refusal}",
                u8::from(refusal),
                LinkText(at)
            ),
            Event::Dropped => f.write_str("dropped, as if lost"),
            Event::Contradicted(fault) => write!(f, "refused {}: {fault}", u8::from(fault)),
            Event::Ignored => f.write_str("nothing changes"),
            Event::Closed { at, flow } => write!(f, "closed {flow} at {}", LinkText(at)),
            Event::Idle { at, flow } => write!(
                f,
                "closed {flow} at {}, an hour without a packet",
                LinkText(at)
            ),
            Event::NotOpen => f.write_str("no such table is open"),
            Event::Forgotten { place } => write!(f, "{} is forgotten", LinkText(place)),
            Event::NothingForgotten => f.write_str("no place may be forgotten now"),
            Event::HandedOver { newest } => write!(f, "{} is the newest now", LinkText(newest)),
        }
    }
}
