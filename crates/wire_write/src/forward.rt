// A packet between machines sent on: its head is written anew in place, and what is behind the head stays.
ghost use Rattle.std.specs.Prelude.{◌≡◌};
ghost use Rattle.wire.specs.Forwarding.{renewed, forwarded};

use crate::asker;
use chain::way::Way;
use fault::Fault;
use wire::kind::Kind;

// How long the head is.
const HEAD: usize = 16;

// Place, way and who began to ask anew; the bucket, may open and the length stay.
fn write_route(head: &mut [u8; HEAD], place: u32, way: Way)
    ensures { head.new ≡ renewed place way head.old }
{
    let by = asker(way);
    head[3..7].copy_from_slice(&place.to_be_bytes());
    head[7] = u8::from(way);
    head[8..12].copy_from_slice(&by.place.to_be_bytes());
    head[12] = by.server;
}

// Send a packet on to another place, on this way. What is no packet between machines is refused, and stays as it is.
pub fn forward(message: &mut [u8], place: u32, way: Way) -> Result<(), Fault>
    ensures { (result, message.new) ≡ forwarded place way message.old }
{
    let Some(head) = message.first_chunk_mut::<HEAD>() else {
        return Err(Fault::Malformed);
    };
    if head[0] != u8::from(Kind::Packet) {
        return Err(Fault::Malformed);
    }
    write_route(head, place, way);
    Ok(())
}
