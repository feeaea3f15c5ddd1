// Messages written as bytes, behind what is there: all of a message, or nothing of it.
#![tactic(auto)]

pub mod forward;

ghost use Rattle.std.specs.Prelude.{◌≡◌, [], ◌∷◌, ◌++◌, length};
ghost use Rattle.wire.specs.Seen.{said};
ghost use Rattle.wire.specs.Meant.{Back, Ordered};
ghost use Rattle.wire.specs.Format.{put};
ghost use Rattle.wire.specs.Formats.{stand, packet, asker_of};
ghost use Rattle.wire.specs.Kinds.{kind_number};
ghost use Rattle.wire.specs.Messages.{control_values, head_values, payload, encode};
ghost use Rattle.wire_write.specs.Writes.{Appended, Written, control_fields, length_bytes, together};

use chain::way::{Link, Way};
use fault::{Error, Fault, Refusal};
use std::alloc::AllocError;
use wire::kind::Kind;
use wire::message::{At, Control, Head, Message, Order};

// All parts one behind the other, or nothing where memory is short.
fn append(parts: &[&[u8]], out: &mut Vec<u8>) -> Result<(), AllocError>
    ensures { Appended result (together parts.now) out.old.items out.new.items }
{
    let start = out.len();
    // Room for all at once: few messages then make the list grow twice.
    out.reserve(parts.iter().fold(0, |n, part| part.len().saturating_add(n)))?;
    for part in parts {
        if let Err(short) = out.extend_from_slice(part) {
            out.truncate(start);
            return Err(short);
        }
    }
    Ok(())
}

// A bucket, a place, and its neighbour.
fn write_neighbour(kind: u8, at: At, neighbour: Link, out: &mut Vec<u8>) -> Result<(), AllocError>
    ensures { Appended result (kind ∷ put stand.fields (at.bucket ∷ at.place ∷ neighbour.place ∷ neighbour.server ∷ [])) out.old.items out.new.items }
{
    let [b0, b1] = at.bucket.to_be_bytes();
    let [p0, p1, p2, p3] = at.place.to_be_bytes();
    let [q0, q1, q2, q3] = neighbour.place.to_be_bytes();
    out.extend_from_slice(&[
        kind,
        b0,
        b1,
        p0,
        p1,
        p2,
        p3,
        q0,
        q1,
        q2,
        q3,
        neighbour.server,
    ])
}

// A message about places, by the kind that it has as such or as an answer.
fn write_control(kind: Kind, control: Control, out: &mut Vec<u8>) -> Result<(), AllocError>
    ensures { Appended result (kind_number kind ∷ put (control_fields control) (control_values control)) out.old.items out.new.items }
{
    let kind = u8::from(kind);
    match control {
        Control::Stand {
            bucket,
            place,
            before,
        } => write_neighbour(kind, At { bucket, place }, before.unwrap_or_default(), out),
        Control::Behind {
            bucket,
            place,
            after,
        }
        | Control::Forgotten {
            bucket,
            place,
            after,
        } => write_neighbour(kind, At { bucket, place }, after, out),
        Control::Door { bucket, newest } => {
            let [b0, b1] = bucket.to_be_bytes();
            let [p0, p1, p2, p3] = newest.place.to_be_bytes();
            out.extend_from_slice(&[kind, b0, b1, p0, p1, p2, p3, newest.server])
        }
    }
}

fn write_order(order: Order, out: &mut Vec<u8>) -> Result<(), AllocError>
    ensures { Appended result (encode (Ordered order)) out.old.items out.new.items }
{
    match order {
        Order::Closed(flow) => append(&[&[u8::from(Kind::Closed)], &<[u8; 13]>::from(flow)], out),
        Order::Added(server) => out.extend_from_slice(&[u8::from(Kind::Added), server]),
        Order::Removed(server) => out.extend_from_slice(&[u8::from(Kind::Removed), server]),
        Order::Ticks(count) => {
            let [c0, c1, c2, c3] = count.to_be_bytes();
            out.extend_from_slice(&[u8::from(Kind::Ticks), c0, c1, c2, c3])
        }
    }
}

// Who began to ask; no place if nobody did. A function and no `From`: a way is no link, it only has one in its bytes.
pub fn asker(way: Way) -> Link
    ensures { result ≡ asker_of way }
{
    match way {
        Way::Up => Link::default(),
        Way::Down(by) | Way::Asked(by) => by,
    }
}

// The length field of a packet, which is refused if it is too long for one.
fn length_field(inside: &[u8]) -> Result<[u8; 2], Fault>
    ensures { result ≡ length_bytes inside.now }
{
    let Ok(length) = u16::try_from(inside.len()) else {
        return Err(Fault::Malformed);
    };
    Ok(length.to_be_bytes())
}

fn write_packet(head: Head, inside: &[u8], out: &mut Vec<u8>) -> Result<(), Error>
    ensures { Written inside.now (1 ∷ (put packet.fields (head_values head (length inside.now)) ++ inside.now)) result out.old.items out.new.items }
{
    let [l0, l1] = length_field(inside)?;
    let [b0, b1] = head.bucket.to_be_bytes();
    let [p0, p1, p2, p3] = head.place.to_be_bytes();
    let asker = asker(head.way);
    let [a0, a1, a2, a3] = asker.place.to_be_bytes();
    let front = [
        u8::from(Kind::Packet),
        b0,
        b1,
        p0,
        p1,
        p2,
        p3,
        u8::from(head.way),
        a0,
        a1,
        a2,
        a3,
        asker.server,
        u8::from(head.opens),
        l0,
        l1,
    ];
    append(&[&front, inside], out)?;
    Ok(())
}

fn write_refused(refusal: Refusal, inside: &[u8], out: &mut Vec<u8>) -> Result<(), Error>
    ensures { Written inside.now (encode (Back refusal inside.now)) result out.old.items out.new.items }
{
    let [l0, l1] = length_field(inside)?;
    let front = [u8::from(Kind::Refused), u8::from(refusal), l0, l1];
    append(&[&front, inside], out)?;
    Ok(())
}

// The message at the end of `out`. A packet that is too long for its length field is refused.
pub fn write(message: Message<'_>, out: &mut Vec<u8>) -> Result<(), Error>
    ensures { Written (payload (said message.entry)) (encode (said message.entry)) result out.old.items out.new.items }
{
    match message {
        Message::Packet { head, packet, .. } => write_packet(head, packet, out),
        Message::Control(control) => Ok(write_control(
            Kind::Control(control.into()),
            control,
            out,
        )?),
        Message::Answer(control) => Ok(write_control(Kind::Answer(control.into()), control, out)?),
        Message::Refused { refusal, packet } => write_refused(refusal, packet, out),
        Message::Order(order) => Ok(write_order(order, out)?),
    }
}
