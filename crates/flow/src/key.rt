// The name of a session: addresses, ports and protocol of its packets.
ghost use Rattle.std.specs.Prelude.{◌≡◌, ok_or};
ghost use Rattle.fault.specs.declared.Fault.TheVariants.{BadPacket};
ghost use Rattle.flow.specs.Key.{protocol_number};
ghost use Rattle.flow.specs.Bytes.{protocol_of};

use fault::Fault;

#[derive(Clone, Copy, PartialEq, Eq, Debug)]
pub enum Protocol {
    Tcp,
    Udp,
}

// Its number in an IPv4 head.
impl From<Protocol> for u8 {
    ghost from_gives = { λ p n. n ≡ protocol_number p };

    fn from(protocol: Protocol) -> u8 {
        match protocol {
            Protocol::Tcp => 6,
            Protocol::Udp => 17,
        }
    }
}

// The protocol with this number in an IPv4 head; every other number is no packet of ours.
impl TryFrom<u8> for Protocol {
    type Error = Fault;

    ghost try_from_gives = { λ n r. r ≡ ok_or (protocol_of n) BadPacket };

    fn try_from(number: u8) -> Result<Protocol, Fault> {
        match number {
            6 => Ok(Protocol::Tcp),
            17 => Ok(Protocol::Udp),
            _ => Err(Fault::BadPacket),
        }
    }
}

// The five-tuple: 13 bytes in a message.
#[derive(Clone, Copy, PartialEq, Eq, Debug)]
pub struct FlowKey {
    pub src: u32,
    pub dst: u32,
    pub sport: u16,
    pub dport: u16,
    pub protocol: Protocol,
}
