// Messages read from bytes: to the end, or to the first fault.
#![tactic(auto)]

mod control;
mod end;
mod order;

ghost use Rattle.std.specs.Prelude.{◌≡◌, IfOk};
ghost use Rattle.wire.specs.Messages.{decode, encode};
ghost use Rattle.wire.specs.Seen.{seen};

use crate::control::read_control;
use crate::end::read_last;
use crate::order::read_closed;
use flow::buckets::Buckets;
use wire::kind::Kind;
use wire::message::{Message, Order, Unread};
use wire_packet::number::Number;
use wire_packet::{read_packet, read_refused};

// By its kind, each message has its reader.
fn read_kind(bytes: &[u8], buckets: Buckets) -> Result<Message<'_>, Unread>
    ensures { seen result ≡ decode buckets.count bytes.now }
{
    let (number, rest) = u8::split(bytes)?;
    match Kind::try_from(number)? {
        Kind::Packet => read_packet(rest, buckets),
        Kind::Control(topic) => Ok(Message::Control(read_control(topic, rest, buckets)?)),
        Kind::Answer(topic) => Ok(Message::Answer(read_control(topic, rest, buckets)?)),
        Kind::Refused => Ok(read_refused(rest)?),
        Kind::Closed => Ok(Message::Order(read_closed(rest)?)),
        Kind::Added => Ok(Message::Order(Order::Added(read_last(rest)?))),
        Kind::Removed => Ok(Message::Order(Order::Removed(read_last(rest)?))),
        Kind::Ticks => Ok(Message::Order(Order::Ticks(read_last(rest)?))),
    }
}

// The message that these bytes are, or their first fault, with the place that they speak of if that comes before the fault.
// Each message has one form: these bytes are how it is written.
pub fn read(bytes: &[u8], buckets: Buckets) -> Result<Message<'_>, Unread>
    ensures value { seen result ≡ decode buckets.count bytes.now }
    ensures form { IfOk (seen result) (λ m. encode m ≡ bytes.now) }
{
    read_kind(bytes, buckets)
}
