// The session of an IPv4 packet, read from its head and from the ports behind it.
ghost use Rattle.std.specs.Prelude.{◌≡◌, ◌+◌, ◌≤◌, length};
ghost use Rattle.flow.specs.Ipv4.{head_spec, opens_tcp, key_at, read_spec};

use crate::key::{FlowKey, Protocol};
use fault::Fault;

// The session of a packet, and whether the packet may open it.
#[derive(Clone, Copy, PartialEq, Eq, Debug)]
pub struct Flow {
    pub key: FlowKey,
    pub opens: bool,
}

// The shortest heads, in bytes.
const IPV4: usize = 20;

const TCP: usize = 20;

const UDP: usize = 8;

// Where the head ends, if these bytes are one whole IPv4 packet and no later fragment.
fn head_length(packet: &[u8]) -> Result<usize, Fault>
    ensures { result ≡ head_spec packet.now }
{
    if packet.len() < IPV4 {
        return Err(Fault::BadPacket);
    }
    let head = (packet[0] & 0x0f) as usize * 4;
    let total = u16::from_be_bytes([packet[2], packet[3]]) as usize;
    let offset = u16::from_be_bytes([packet[6], packet[7]]) & 0x1fff;
    if packet[0] >> 4 != 4 || head < IPV4 || head > total || total != packet.len() || offset != 0 {
        return Err(Fault::BadPacket);
    }
    Ok(head)
}

// Does a TCP packet with these flags begin a connection? SYN without ACK.
fn opens_tcp(flags: u8) -> bool
    ensures { result ≡ opens_tcp flags }
{
    flags & 0x02 != 0 && flags & 0x10 == 0
}

// Addresses at their places in the head, ports behind it. By position, as the format has them: a pattern over the head would only
// name what is skipped.
fn key_at(packet: &[u8], head: usize, protocol: Protocol) -> FlowKey
    requires { (head + 8 ≤ length packet.now) × (20 ≤ head) }
    ensures { result ≡ key_at packet.now head protocol }
{
    FlowKey {
        src: u32::from_be_bytes([packet[12], packet[13], packet[14], packet[15]]),
        dst: u32::from_be_bytes([packet[16], packet[17], packet[18], packet[19]]),
        sport: u16::from_be_bytes([packet[head], packet[head + 1]]),
        dport: u16::from_be_bytes([packet[head + 2], packet[head + 3]]),
        protocol,
    }
}

// The session of a packet of TCP or UDP; every other packet is refused.
pub fn read(packet: &[u8]) -> Result<Flow, Fault>
    ensures { result ≡ read_spec packet.now }
{
    let head = head_length(packet)?;
    let protocol = Protocol::try_from(packet[9])?;
    match protocol {
        Protocol::Tcp if packet.len() - head >= TCP => Ok(Flow {
            key: key_at(packet, head, protocol),
            opens: opens_tcp(packet[head + 13]),
        }),
        Protocol::Udp if packet.len() - head >= UDP => Ok(Flow {
            key: key_at(packet, head, protocol),
            opens: true,
        }),
        _ => Err(Fault::BadPacket),
    }
}
