// A balancer that is fed by lines: settings and bytes come on standard input, and what it sends goes to standard output.
#![tactic(auto)]

use balancer::Balancer;
use console::{Fed, assign, run};
use edge::post::Post;
use fault::Error;
use lines::kept::Line;
use settings::kept::Settings;
use std::alloc::Global;

const HELP: &str =
    "door: a balancer; it sends each packet to the newest place that it heard of, and keeps nothing of packets or tables

The settings come first, one to a line:
  buckets N        how many buckets, a power of two from 16 to 65536 (4096 where it is not said)
  houses N ..      the houses at the start, in rising order
  house N, doors N, door N   may stand there, and mean nothing to a door
  run              the settings end
A bad line ends the program with its fault and its number.

Then bytes come, in hex, one message to a line, with who hands them over, and what is sent is printed likewise:
  client HEX       a packet from outside, or one that goes back
  house N HEX | office HEX | door N HEX   a message from or to that machine
  order HEX        an order
A line that cannot be read is answered with its fault, and changes nothing.";

#[derive(Drop)]
struct FedBalancer {
    balancer: Balancer,
}

impl Fed for FedBalancer {
    const NAME: &'static str = "door";

    const HELP: &'static str = HELP;

    fn begin(heap: Global, settings: &Settings) -> Result<FedBalancer, Error> {
        let (buckets, roster) = assign(heap, settings)?;
        let balancer = Balancer::new(heap, buckets, roster.assignment())?;
        Ok(FedBalancer { balancer })
    }

    fn hear<'a>(
        &mut self,
        _heap: Global,
        line: &'a mut Line,
        post: &mut Post,
    ) -> Result<Option<&'a [u8]>, Error> {
        self.balancer
            .hear(line.machine, line.bytes.as_slice(), post)?;
        Ok(None)
    }
}

fn main(rt: HostRuntime) -> anyhow::Result<()> {
    run::<FedBalancer>(&rt)
}
