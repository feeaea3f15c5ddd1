// Where a balancer sends a packet.
ghost use Rattle.balancer.specs.Rules.{links_of, sends, Sent};

use crate::Balancer;
use chain::way::Way;
use fault::Error;
use wire::message::{Head, Message};
use wire_write::write;

impl Balancer {
    // A packet from outside: the message that carries it is written at the end of `out`, and the answer is the server that gets it.
    pub fn dispatch(&self, packet: &[u8], out: &mut Vec<u8>) -> Result<u8, Error>
        ensures { Sent (sends self.now.buckets.count (links_of self.now) packet.now) result out.old.items out.new.items }
    {
        let flow = flow::ipv4::read(packet)?;
        let bucket = flow.key.bucket(self.buckets);
        let link = self.links[usize::from(bucket)];
        let head = Head {
            bucket,
            place: link.place,
            way: Way::Up,
            opens: flow.opens,
        };
        write(
            Message::Packet {
                head,
                flow: flow.key,
                packet,
            },
            out,
        )?;
        Ok(link.server)
    }
}
