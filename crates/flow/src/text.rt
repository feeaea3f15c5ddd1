// A session's name as text: `10.0.0.7:4242>10.1.1.1:80/tcp`.
ghost use Rattle.std.specs.Prelude.{◌≡◌, Some};
ghost use Rattle.flow.specs.Text.{protocol_text, protocol_in, key_text};

use crate::key::{FlowKey, Protocol};
use fault::Fault;
use std::fmt;
use std::net::Ipv4Addr;
use std::str::FromStr;

impl fmt::Display for Protocol {
    ghost output = { λ p. Some (protocol_text p) };

    fn fmt<W: fmt::Write>(&self, f: &mut fmt::Formatter<W>) -> fmt::Result {
        f.write_str(match self {
            Protocol::Tcp => "tcp",
            Protocol::Udp => "udp",
        })
    }
}

impl FromStr for Protocol {
    type Err = Fault;

    ghost from_str_gives = { λ text r. r ≡ protocol_in text };

    fn from_str(text: &str) -> Result<Protocol, Fault> {
        match text {
            "tcp" => Ok(Protocol::Tcp),
            "udp" => Ok(Protocol::Udp),
            _ => Err(Fault::BadPacket),
        }
    }
}

impl fmt::Display for FlowKey {
    ghost output = { λ f. Some (key_text f) };

    fn fmt<W: fmt::Write>(&self, f: &mut fmt::Formatter<W>) -> fmt::Result {
        let (src, dst) = (Ipv4Addr::from(self.src), Ipv4Addr::from(self.dst));
        write!(
            f,
            "{src}:{}>{dst}:{}/{}",
            self.sport, self.dport, self.protocol
        )
    }
}

// Every other text is no packet of ours.
impl FromStr for FlowKey {
    type Err = Fault;

    fn from_str(text: &str) -> Result<FlowKey, Fault> {
        read_flow(text).ok_or(Fault::BadPacket)
    }
}

fn read_flow(text: &str) -> Option<FlowKey> {
    let (ends, protocol) = text.split_once('/')?;
    let (from, to) = ends.split_once('>')?;
    let (src, sport) = read_end(from)?;
    let (dst, dport) = read_end(to)?;
    Some(FlowKey {
        src,
        dst,
        sport,
        dport,
        protocol: protocol.parse::<Protocol>().ok()?,
    })
}

fn read_end(text: &str) -> Option<(u32, u16)> {
    let (address, port) = text.split_once(':')?;
    Some((read_address(address)?, port.parse::<u16>().ok()?))
}

// Leading zeros are read, which the library's reader of addresses refuses.
fn read_address(text: &str) -> Option<u32> {
    let mut parts = text.split('.');
    let a = parts.next()?.parse::<u8>().ok()?;
    let b = parts.next()?.parse::<u8>().ok()?;
    let c = parts.next()?.parse::<u8>().ok()?;
    let d = parts.next()?.parse::<u8>().ok()?;
    match parts.next() {
        Some(_) => None,
        None => Some(u32::from_be_bytes([a, b, c, d])),
    }
}
