// Packets between machines, and packets that go back to their sender, as bytes.
#![tactic(auto)]

pub mod number;
pub mod place;

ghost use Rattle.std.specs.Prelude.{◌≡◌, [], ◌∷◌, drop, Some, None, ok_or};
ghost use Rattle.fault.specs.declared.Fault.TheVariants.{NoSuch};
ghost use Rattle.chain.specs.Ways.{way_number};
ghost use Rattle.wire.specs.Seen.{seen};
ghost use Rattle.wire.specs.Stops.{located};
ghost use Rattle.wire.specs.Format.{two, number_in, read_field, read_fields, ended, read_all};
ghost use Rattle.wire.specs.Formats.{way_f, asker_f, asker_server_f, may_open_f, reached, inside_of, packet, refused};
ghost use Rattle.wire_packet.specs.Views.{course_number, course_numbered, shown_asker, shown_way, shown_opens, sized, shown_bytes};

use crate::number::Number;
use crate::place::read_at;
use chain::way::{Link, Way};
use fault::{Fault, Refusal};
use flow::buckets::Buckets;
use flow::key::FlowKey;
use wire::message::{At, Head, Message, Unread};

// The way of a packet, before it is known who began to ask.
#[derive(Clone, Copy, PartialEq, Eq)]
enum Course {
    Up,
    Down,
    Asked,
}

impl TryFrom<u8> for Course {
    type Error = Fault;

    ghost try_from_gives = { λ n r. r ≡ ok_or (course_numbered n) NoSuch };

    fn try_from(number: u8) -> Result<Course, Fault> {
        match number {
            1 => Ok(Course::Up),
            2 => Ok(Course::Down),
            3 => Ok(Course::Asked),
            _ => Err(Fault::NoSuch),
        }
    }
}

// Who began to ask, at a place and on a way: nobody if up, and only that place itself if asked.
fn read_asker(at: At, course: Course, bytes: &[u8]) -> Result<(Link, &[u8]), Fault>
    ensures { shown_asker at (course_number course) result ≡ read_fields reached 0 (asker_f ∷ asker_server_f ∷ []) (at.bucket ∷ at.place ∷ course_number course ∷ []) bytes.now }
{
    let (place, rest) = u32::split(bytes)?;
    if (place == 0) != (course == Course::Up) {
        return Err(Fault::NoSuch);
    }
    if course == Course::Asked && place != at.place {
        return Err(Fault::WrongAsker);
    }
    let (server, rest) = u8::split(rest)?;
    if course == Course::Up && server != 0 {
        return Err(Fault::NoSuch);
    }
    Ok((Link { place, server }, rest))
}

// The way of a packet that goes to `at`, with who began to ask.
fn read_way(at: At, bytes: &[u8]) -> Result<(Way, &[u8]), Fault>
    ensures { shown_way at result ≡ read_fields reached 0 (way_f ∷ asker_f ∷ asker_server_f ∷ []) (at.bucket ∷ at.place ∷ []) bytes.now }
{
    let (number, rest) = u8::split(bytes)?;
    let course = Course::try_from(number)?;
    let (asker, rest) = read_asker(at, course, rest)?;
    let way = match course {
        Course::Up => Way::Up,
        Course::Down => Way::Down(asker),
        Course::Asked => Way::Asked(asker),
    };
    Ok((way, rest))
}

// May the packet open a session? What is asked may.
fn read_opens(way: Way, bytes: &[u8]) -> Result<(bool, &[u8]), Fault>
    ensures { shown_opens result ≡ read_field 0 may_open_f (0 ∷ 0 ∷ way_number way ∷ []) bytes.now }
{
    let (number, rest) = u8::split(bytes)?;
    let opens = match number {
        0 => false,
        1 => true,
        _ => return Err(Fault::NoSuch),
    };
    match way {
        Way::Asked(_) if !opens => Err(Fault::WrongAsker),
        _ => Ok((opens, rest)),
    }
}

// The packet behind its length, to the end of the message.
fn read_sized(bytes: &[u8]) -> Result<&[u8], Fault>
    ensures { shown_bytes result ≡ sized (number_in two bytes.now) }
{
    let (length, packet) = u16::split(bytes)?;
    if packet.len() != usize::from(length) {
        return Err(Fault::Malformed);
    }
    Ok(packet)
}

// The session of the packet inside, which is in this bucket.
#[tactic(auto, unfolding(wire::specs::Formats::inside_of))]
fn read_inside(bucket: u16, packet: &[u8], buckets: Buckets) -> Result<FlowKey, Fault>
    ensures { result ≡ inside_of buckets.count bucket packet.now }
{
    let flow = flow::ipv4::read(packet)?;
    if flow.key.bucket(buckets) != bucket {
        return Err(Fault::WrongBucket);
    }
    Ok(flow.key)
}

// What is behind the place of a packet.
fn read_carried(at: At, bytes: &[u8], buckets: Buckets) -> Result<Message<'_>, Fault>
    ensures { located (Some at) (seen result) ≡ ended packet buckets.count (read_fields reached buckets.count (drop 2 packet.fields) (at.bucket ∷ at.place ∷ []) bytes.now) }
{
    let (way, rest) = read_way(at, bytes)?;
    let (opens, rest) = read_opens(way, rest)?;
    let inside = read_sized(rest)?;
    let flow = read_inside(at.bucket, inside, buckets)?;
    Ok(Message::Packet {
        head: Head {
            bucket: at.bucket,
            place: at.place,
            way,
            opens,
        },
        flow,
        packet: inside,
    })
}

pub fn read_packet(bytes: &[u8], buckets: Buckets) -> Result<Message<'_>, Unread>
    ensures { seen result ≡ read_all packet buckets.count bytes.now }
{
    let (at, rest) = read_at(bytes, buckets)?;
    at.found(read_carried(at, rest, buckets))
}

pub fn read_refused(bytes: &[u8]) -> Result<Message<'_>, Fault>
    ensures { located None (seen result) ≡ read_all refused 0 bytes.now }
{
    let (number, rest) = u8::split(bytes)?;
    let refusal = Refusal::try_from(number)?;
    let packet = read_sized(rest)?;
    Ok(Message::Refused { refusal, packet })
}
