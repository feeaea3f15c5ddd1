// Orders as bytes.
ghost use Rattle.std.specs.Prelude.{◌≡◌, None};
ghost use Rattle.wire.specs.Stops.{located};
ghost use Rattle.wire.specs.Format.{read_all};
ghost use Rattle.wire.specs.Formats.{closed};

use crate::end::ended;
use fault::Fault;
use flow::key::{FlowKey, Protocol};
use wire::message::Order;
use wire_packet::number::Number;

// Field by field, as the format lists them and the clause reads them: another protocol is told before bytes too many are.
pub fn read_closed(bytes: &[u8]) -> Result<Order, Fault>
    ensures { located None result ≡ read_all closed 0 bytes.now }
{
    let (src, rest) = u32::split(bytes)?;
    let (dst, rest) = u32::split(rest)?;
    let (sport, rest) = u16::split(rest)?;
    let (dport, rest) = u16::split(rest)?;
    let (number, rest) = u8::split(rest)?;
    let protocol = Protocol::try_from(number)?;
    ended(rest)?;
    Ok(Order::Closed(FlowKey {
        src,
        dst,
        sport,
        dport,
        protocol,
    }))
}
