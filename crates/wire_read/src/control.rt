// Stand, behind you, door and forgotten as bytes.
ghost use Rattle.std.specs.Prelude.{◌≡◌, [], ◌∷◌, drop, Some};
ghost use Rattle.wire.specs.Stops.{located};
ghost use Rattle.wire.specs.Format.{ended, read_all, read_fields};
ghost use Rattle.wire.specs.Formats.{bucket_f, place_f, before_f, server_before_f, after_f, server_f, reached};
ghost use Rattle.wire.specs.Kinds.{topic_format};
ghost use Rattle.wire_packet.specs.Views.{shown_at};
ghost use Rattle.wire_read.specs.Views.{link_before, link_behind, read_rest};

use crate::end::{ended, read_last};
use chain::way::Link;
use fault::Fault;
use flow::buckets::Buckets;
use wire::kind::Topic;
use wire::message::{At, Control, Unread};
use wire_packet::number::Number;
use wire_packet::place::read_at;

// The place that a message speaks of, and the bytes behind it. Places are numbered from 1.
fn read_numbered(bytes: &[u8], buckets: Buckets) -> Result<(At, &[u8]), Fault>
    ensures { shown_at result ≡ read_fields reached buckets.count (bucket_f ∷ place_f ∷ []) [] bytes.now }
{
    let (at, rest) = read_at(bytes, buckets)?;
    if at.place == 0 {
        return Err(Fault::NoSuch);
    }
    Ok((at, rest))
}

// The place before `at`, with number 0 for none, and its server.
fn read_before(at: At, bytes: &[u8]) -> Result<Option<Link>, Fault>
    ensures { located (Some at) result ≡ read_rest link_before (before_f ∷ server_before_f ∷ []) at bytes.now }
{
    let (place, rest) = u32::split(bytes)?;
    if place >= at.place {
        return Err(Fault::NoSuch);
    }
    let (server, rest) = u8::split(rest)?;
    if place == 0 && server != 0 {
        return Err(Fault::NoSuch);
    }
    ended(rest)?;
    Ok((place != 0).then_some(Link { place, server }))
}

// A place after `at`, and its server.
fn read_after(at: At, bytes: &[u8]) -> Result<Link, Fault>
    ensures { located (Some at) result ≡ read_rest link_behind (after_f ∷ server_f ∷ []) at bytes.now }
{
    let (place, rest) = u32::split(bytes)?;
    if place <= at.place {
        return Err(Fault::NoSuch);
    }
    let server = read_last(rest)?;
    Ok(Link { place, server })
}

// What is said about the place `at`.
fn read_about(topic: Topic, at: At, bytes: &[u8]) -> Result<Control, Fault>
    ensures { located (Some at) result ≡ ended (topic_format topic) 0 (read_fields reached 0 (drop 2 (topic_format topic).fields) (at.bucket ∷ at.place ∷ []) bytes.now) }
{
    let At { bucket, place } = at;
    Ok(match topic {
        Topic::Stand => Control::Stand {
            bucket,
            place,
            before: read_before(at, bytes)?,
        },
        Topic::Behind => Control::Behind {
            bucket,
            place,
            after: read_after(at, bytes)?,
        },
        Topic::Door => Control::Door {
            bucket,
            newest: Link {
                place,
                server: read_last(bytes)?,
            },
        },
        Topic::Forgotten => Control::Forgotten {
            bucket,
            place,
            after: read_after(at, bytes)?,
        },
    })
}

// A message about a place, by what it is about.
pub fn read_control(topic: Topic, bytes: &[u8], buckets: Buckets) -> Result<Control, Unread>
    ensures { result ≡ read_all (topic_format topic) buckets.count bytes.now }
{
    let (at, rest) = read_numbered(bytes, buckets)?;
    at.found(read_about(topic, at, rest))
}
