// What is printed of machines, messages and events. Here a server is a house, a balancer a door, the controller the office, a session a table.
use shown::text::{LinkText, NeighbourText, PacketText};
use simulation::event::Event;
use std::fmt;
use wire::message::{Control, Message};

#[derive(Drop)]
struct ControlText(Control);

impl fmt::Display for ControlText {
    fn fmt<W: fmt::Write>(&self, f: &mut fmt::Formatter<W>) -> fmt::Result {
        match self.0 {
            Control::Stand {
                bucket,
                place,
                before,
            } => write!(
                f,
                "bucket {bucket}: stand at place {place}, before you {}",
                NeighbourText(before.map(LinkText))
            ),
            Control::Behind {
                bucket,
                place,
                after,
            } => write!(
                f,
                "bucket {bucket}: behind you at place {place}: {}",
                LinkText(after)
            ),
            Control::Door { bucket, newest } => {
                write!(f, "bucket {bucket}: door: {}", LinkText(newest))
            }
            Control::Forgotten {
                bucket,
                place,
                after,
            } => write!(
                f,
                "bucket {bucket}: forgotten: place {place}, after it {}",
                LinkText(after)
            ),
        }
    }
}

#[derive(Drop)]
pub struct MessageText<'a>(pub Message<'a>);

impl fmt::Display for MessageText<'_> {
    fn fmt<W: fmt::Write>(&self, f: &mut fmt::Formatter<W>) -> fmt::Result {
        match self.0 {
            Message::Packet { head, flow, .. } => {
                let text = PacketText {
                    flow,
                    place: head.place,
                    way: head.way,
                    opens: head.opens,
                };
                write!(f, "bucket {}: {text}", head.bucket)
            }
            Message::Control(control) => write!(f, "{}", ControlText(control)),
            Message::Answer(control) => write!(f, "answer to {}", ControlText(control)),
            Message::Refused { refusal, .. } => write!(f, "refused {}", u8::from(refusal)),
            Message::Order(_) => f.write_str("an order"),
        }
    }
}

// An event, but for a letter that was sent just now, whose text is its message's.
#[derive(Drop)]
pub struct EventText(pub Event);

impl fmt::Display for EventText {
    fn fmt<W: fmt::Write>(&self, f: &mut fmt::Formatter<W>) -> fmt::Result {
        match self.0 {
            Event::Sent { number, .. } => write!(f, "on its way {number}"),
            Event::Handled { number, at, .. } => { write!(f, "handled {number} at {at}") }
            Event::Lost { number, .. } => write!(f, "lost {number}"),
            Event::Given {
                at,
                flow,
                opened,
                ..
            } => {
                write!(f, "given {flow} at {}", LinkText(at))?;
                if opened {
                    f.write_str(", opened now")?;
                }
                Ok(())
            }
            Event::Refused {
                at,
                flow,
                refusal,
                ..
            } => write!(
                f,
                "refused {} {flow} at {}: {refusal}",
                u8::from(refusal),
                LinkText(at)
            ),
            Event::Dropped { .. } => f.write_str("dropped, as if lost"),
            Event::Contradicted { fault, .. } => {
                write!(f, "refused {}: {fault}", u8::from(fault))
            }
            Event::Closed { server, flow } => { write!(f, "closed {flow} at house {server}") }
            Event::PutOff { bucket } => write!(
                f,
                "refused 10: bucket {bucket} keeps eight places, its change of hands is put off"
            ),
        }
    }
}
