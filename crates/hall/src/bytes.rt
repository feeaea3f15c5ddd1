// The bytes of what is sent, printed on wish.
use anyhow::anyhow;
use fault::Error;
use flow::buckets::Buckets;
use flow::key::FlowKey;
use frames::frame;
use shown::text::HexText;
use stage::event::Event;
use stage::message::Body;

// Flows are spread over so many buckets.
const BUCKETS: u32 = 4096;

#[derive(Clone, Copy)]
pub struct Bytes {
    pub shown: bool,
    // That of the flow that was sent last: the bucket that is played.
    bucket: u16,
}

impl Bytes {
    pub fn new() -> Bytes {
        Bytes {
            shown: false,
            bucket: 0,
        }
    }

    fn note(&mut self, flow: FlowKey) {
        if let Ok(buckets) = Buckets::new(BUCKETS) {
            self.bucket = flow.bucket(buckets);
        }
    }

    // The bytes of a message that was sent just now; of any other event there are none.
    pub fn print(&mut self, rt: &HostRuntime, event: Event) -> anyhow::Result<()> {
        let Event::Sent(message) = event else {
            return Ok(());
        };
        if let Body::Packet(packet) = message.body {
            self.note(packet.flow);
        }
        if !self.shown {
            return Ok(());
        }
        match frame(rt.alloc(), self.bucket, message.body) {
            Ok(bytes) => {
                println!(rt; "    {}", HexText(bytes.as_slice()))?;
                Ok(())
            }
            Err(Error::Of(fault)) => {
                println!(rt; "    no bytes: {fault}")?;
                Ok(())
            }
            Err(Error::Memory) => Err(anyhow!("no memory")),
        }
    }
}
