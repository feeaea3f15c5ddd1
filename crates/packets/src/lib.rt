// The smallest packets of a flow: what an IPv4 head and its ports need, and nothing to carry.
#![tactic(auto)]

ghost use Rattle.std.specs.Prelude.{◌≡◌, Ok, IfOk, vec_items};
ghost use Rattle.flow.specs.Ipv4.{read_spec};
ghost use Rattle.packets.specs.Smallest.{start, may_open};

use flow::key::{FlowKey, Protocol};
use std::alloc::{AllocError, Global};

const SYN: u8 = 2;

const ACK: u8 = 16;

// The head of IPv4, of 20 bytes, and the ports behind it.
fn start(flow: FlowKey, length: u8) -> [u8; 24]
    ensures { result ≡ start flow length }
{
    let [s0, s1, s2, s3] = flow.src.to_be_bytes();
    let [d0, d1, d2, d3] = flow.dst.to_be_bytes();
    let [a0, a1] = flow.sport.to_be_bytes();
    let [b0, b1] = flow.dport.to_be_bytes();
    let protocol = u8::from(flow.protocol);
    [
        0x45, 0, 0, length, 0, 0, 0, 0, 64, protocol, 0, 0, s0, s1, s2, s3, d0, d1, d2, d3, a0, a1,
        b0, b1,
    ]
}

// 40 bytes of TCP, with SYN if the packet may open a session, else ACK; or 28 of UDP, which always may.
pub fn packet(heap: Global, flow: FlowKey, opens: bool) -> Result<Vec<u8>, AllocError>
    ensures { IfOk result (λ v. read_spec (vec_items v) ≡ Ok (record { key = flow; opens = may_open flow opens })) }
{
    let mut packet = Vec::new(heap);
    match flow.protocol {
        Protocol::Tcp => {
            let flags = if opens { SYN } else { ACK };
            packet.extend_from_slice(&start(flow, 40))?;
            packet.extend_from_slice(&[0, 0, 0, 0, 0, 0, 0, 0, 0x50, flags, 0, 0, 0, 0, 0, 0])?;
        }
        Protocol::Udp => {
            packet.extend_from_slice(&start(flow, 28))?;
            packet.extend_from_slice(&[0, 8, 0, 0])?;
        }
    }
    Ok(packet)
}

#[cfg(test)]
mod tests {
    use super::*;
    use flow::ipv4::read;
    use std::test::Fail;

    fn flow(protocol: Protocol) -> FlowKey {
        FlowKey {
            src: 0x0a00_0007,
            dst: 0x0a01_0101,
            sport: 4242,
            dport: 80,
            protocol,
        }
    }

    #[test]
    fn tcp_may_open_or_not(rt: HostRuntime) -> Result<(), Fail> {
        for opens in [true, false] {
            let tcp = packet(rt.alloc(), flow(Protocol::Tcp), opens)?;
            assert_eq!(rt; tcp.len(), 40);
            assert!(rt; read(tcp.as_slice()).is_ok_and(|found| found.opens == opens));
        }
        Ok(())
    }

    #[test]
    fn udp_may_always_open(rt: HostRuntime) -> Result<(), Fail> {
        let udp = packet(rt.alloc(), flow(Protocol::Udp), false)?;
        assert_eq!(rt; udp.len(), 28);
        assert!(rt; read(udp.as_slice()).is_ok_and(|found| found.opens));
        Ok(())
    }
}
