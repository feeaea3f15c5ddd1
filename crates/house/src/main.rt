// A server that is fed by lines: settings and bytes come on standard input, and what it sends goes to standard output.
#![tactic(auto)]

use chain::place::Outcome;
use console::{Fed, assign, run};
use edge::post::Post;
use fault::{Error, Fault};
use lines::kept::Line;
use server::kept::Server;
use settings::kept::Settings;
use std::alloc::Global;

const HELP: &str = "house: a server; it keeps open tables, and sends on what is not its own

The settings come first, one to a line:
  buckets N        how many buckets, a power of two from 16 to 65536 (4096 where it is not said)
  houses N ..      the houses at the start, in rising order
  house N          the number of this house
  doors N, door N  may stand there, and mean nothing to a house
  run              the settings end
A bad line ends the program with its fault and its number.

Then bytes come, in hex, one message to a line, with who hands them over, and what is sent is printed likewise:
  door N HEX | house N HEX | office HEX   a message from or to that machine
  order HEX        an order: a table is closed, or ticks pass
  client HEX       printed: a packet that goes back
  table HEX        printed: a packet that is given to its open table
A line that cannot be read is answered with its fault, and changes nothing.";

// How long the head of a packet between machines is.
const HEAD: usize = 16;

#[derive(Drop)]
struct FedServer {
    server: Server,
}

impl Fed for FedServer {
    const NAME: &'static str = "house";

    const HELP: &'static str = HELP;

    fn begin(heap: Global, settings: &Settings) -> Result<FedServer, Error> {
        let number = settings.server.ok_or(Fault::Malformed)?;
        let number = u8::try_from(number).map_err(|_| Fault::NoSuch)?;
        let (buckets, roster) = assign(heap, settings)?;
        let server = Server::new(heap, number, buckets, roster.assignment())?;
        Ok(FedServer { server })
    }

    // A packet that was delivered, or that opened its session, is given as the session gets it.
    fn hear<'a>(
        &mut self,
        heap: Global,
        line: &'a mut Line,
        post: &mut Post,
    ) -> Result<Option<&'a [u8]>, Error> {
        let machine = line.machine;
        let outcome = server_edge::hear(
            &mut self.server,
            heap,
            machine,
            line.bytes.as_mut_slice(),
            post,
        )?;
        match outcome {
            Some(Outcome::Delivered | Outcome::Opened) => Ok(line.bytes.as_slice().get(HEAD..)),
            _ => Ok(None),
        }
    }
}

fn main(rt: HostRuntime) -> anyhow::Result<()> {
    run::<FedServer>(&rt)
}
