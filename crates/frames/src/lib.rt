// The bytes on the wire of what is on its way in the stage.
#![tactic(auto)]

use chain::way::{Link, Packet};
use fault::Error;
use packets::packet;
use stage::message::Body;
use std::alloc::Global;
use wire::message::{Control, Head, Message};
use wire_write::write;

// A packet with its head in front; the packet inside has the flow's addresses and ports, and nothing to carry.
fn packet_frame(heap: Global, bucket: u16, sent: Packet, out: &mut Vec<u8>) -> Result<(), Error> {
    let head = Head {
        bucket,
        place: sent.at.place,
        way: sent.way,
        opens: sent.opens,
    };
    let inside = packet(heap, sent.flow, sent.opens)?;
    write(
        Message::Packet {
            head,
            flow: sent.flow,
            packet: inside.as_slice(),
        },
        out,
    )
}

fn stand(bucket: u16, place: Link, before: Link) -> Control {
    Control::Stand {
        bucket,
        place: place.place,
        before: Some(before),
    }
}

fn behind(bucket: u16, place: Link, after: Link) -> Control {
    Control::Behind {
        bucket,
        place: place.place,
        after,
    }
}

fn door(bucket: u16, newest: Link) -> Control {
    Control::Door { bucket, newest }
}

fn forgotten(bucket: u16, place: Link, after: Link) -> Control {
    Control::Forgotten {
        bucket,
        place: place.place,
        after,
    }
}

fn body_frame(heap: Global, bucket: u16, body: Body, out: &mut Vec<u8>) -> Result<(), Error> {
    let message = match body {
        Body::Packet(sent) => return packet_frame(heap, bucket, sent, out),
        Body::Stand { place, before } => Message::Control(stand(bucket, place, before)),
        Body::Stood { place, before } => Message::Answer(stand(bucket, place, before)),
        Body::Behind { place, after } => Message::Control(behind(bucket, place, after)),
        Body::Told { place, after } => Message::Answer(behind(bucket, place, after)),
        Body::Door { link } => Message::Control(door(bucket, link)),
        Body::Heard { link } => Message::Answer(door(bucket, link)),
        Body::Forgotten { place, after } => Message::Control(forgotten(bucket, place, after)),
        Body::Noted { place, after } => Message::Answer(forgotten(bucket, place, after)),
    };
    write(message, out)
}

// What goes over the wire for this message of the bucket.
pub fn frame(heap: Global, bucket: u16, body: Body) -> Result<Vec<u8>, Error> {
    let mut out = Vec::new(heap);
    body_frame(heap, bucket, body, &mut out)?;
    Ok(out)
}
