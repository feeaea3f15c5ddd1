// The 13 bytes of a session in a message, high byte first.
ghost use Rattle.std.specs.Prelude.{◌≡◌};
ghost use Rattle.flow.specs.Bytes.{key_bytes, key_read, KeyRoundTrip};

use crate::key::{FlowKey, Protocol};
use fault::Fault;

impl From<FlowKey> for [u8; 13] {
    ghost from_gives = { λ f bytes. bytes ≡ key_bytes f };

    fn from(flow: FlowKey) -> [u8; 13] {
        let [s0, s1, s2, s3] = flow.src.to_be_bytes();
        let [d0, d1, d2, d3] = flow.dst.to_be_bytes();
        let [a0, a1] = flow.sport.to_be_bytes();
        let [b0, b1] = flow.dport.to_be_bytes();
        let number = u8::from(flow.protocol);
        [s0, s1, s2, s3, d0, d1, d2, d3, a0, a1, b0, b1, number]
    }
}

// Refused where there are not 13 bytes, or the protocol is another.
impl TryFrom<&[u8]> for FlowKey {
    type Error = Fault;

    ghost try_from_gives = { λ bytes r. r ≡ key_read bytes.now };

    fn try_from(bytes: &[u8]) -> Result<FlowKey, Fault> {
        let [s0, s1, s2, s3, d0, d1, d2, d3, a0, a1, b0, b1, protocol] = bytes else {
            return Err(Fault::Malformed);
        };
        let protocol = Protocol::try_from(*protocol)?;
        Ok(FlowKey {
            src: u32::from_be_bytes([*s0, *s1, *s2, *s3]),
            dst: u32::from_be_bytes([*d0, *d1, *d2, *d3]),
            sport: u16::from_be_bytes([*a0, *a1]),
            dport: u16::from_be_bytes([*b0, *b1]),
            protocol,
        })
    }
}

// What was written is read again.
pub fn key_round_trip()
    ensures { KeyRoundTrip }
{}
