// The controller, fed by lines: settings and bytes come on standard input, and what it sends goes to standard output.
#![tactic(auto)]

use console::{Fed, buckets, run};
use controller::kept::Controller;
use edge::post::Post;
use fault::{Error, Fault};
use lines::kept::Line;
use settings::kept::Settings;
use std::alloc::Global;

const HELP: &str =
    "office: the controller; it holds the assignment and all rows of places, and makes changes of hands

The settings come first, one to a line:
  buckets N        how many buckets, a power of two from 16 to 65536 (4096 where it is not said)
  houses N ..      the houses at the start, in rising order
  doors N          how many doors there are, numbered from 0 (none where it is not said)
  house N, door N  may stand there, and mean nothing to the office
  run              the settings end
A bad line ends the program with its fault and its number.

Then bytes come, in hex, one message to a line, with who hands them over, and what is sent is printed likewise:
  house N HEX | door N HEX | office HEX   a message from or to that machine
  order HEX        an order: a house is added, or taken down, or ticks pass
A line that cannot be read is answered with its fault, and changes nothing.";

#[derive(Drop)]
struct FedController {
    controller: Controller,
}

impl Fed for FedController {
    const NAME: &'static str = "office";

    const HELP: &'static str = HELP;

    fn begin(heap: Global, settings: &Settings) -> Result<FedController, Error> {
        let buckets = buckets(settings)?;
        let balancers = u16::try_from(settings.balancers.unwrap_or(0)).map_err(|_| Fault::NoSuch)?;
        let controller = Controller::new(heap, buckets, settings.servers.as_slice(), balancers)?;
        Ok(FedController { controller })
    }

    fn hear<'a>(
        &mut self,
        heap: Global,
        line: &'a mut Line,
        post: &mut Post,
    ) -> Result<Option<&'a [u8]>, Error> {
        controller_edge::hear(
            &mut self.controller,
            heap,
            line.machine,
            line.bytes.as_slice(),
            post,
        )?;
        Ok(None)
    }
}

fn main(rt: HostRuntime) -> anyhow::Result<()> {
    run::<FedController>(&rt)
}
