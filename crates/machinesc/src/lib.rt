// A machine played from a script of bytes, for measuring and comparing from another language.
#![tactic(auto)]

pub mod digest;
pub mod output;
pub mod script;

use crate::output::Writer;
use crate::script::{DIGEST, Header, Kind, read_header, read_step};
use balancer::Balancer;
use chain::place::Outcome;
use controller::kept::Controller;
use edge::post::Post;
use fault::Error;
use flow::buckets::Buckets;
use machine::name::Machine;
use roster::roster::Roster;
use server::kept::Server;
use std::alloc::Global;

// The bytes in front of a packet between machines.
const HEAD: usize = 16;

#[derive(Drop)]
enum Any {
    Balancer(Balancer),
    Server(Server),
    Controller(Controller),
}

impl Any {
    fn new(heap: Global, header: Header<'_>) -> Result<Any, Error> {
        let buckets = Buckets::new(header.buckets)?;
        let count = buckets.count() as usize;
        match header.kind {
            Kind::Balancer => {
                let roster = Roster::new(heap, count, header.servers)?;
                let balancer = Balancer::new(heap, buckets, roster.assignment())?;
                Ok(Any::Balancer(balancer))
            }
            Kind::Server => {
                let roster = Roster::new(heap, count, header.servers)?;
                let server = Server::new(heap, header.number, buckets, roster.assignment())?;
                Ok(Any::Server(server))
            }
            Kind::Controller => {
                let controller = Controller::new(heap, buckets, header.servers, header.balancers)?;
                Ok(Any::Controller(controller))
            }
        }
    }

    // What comes is lent to the machine; whether its packet came to an open session.
    fn hear(
        &mut self,
        heap: Global,
        from: Machine,
        bytes: &mut [u8],
        post: &mut Post,
    ) -> Result<bool, Error> {
        match self {
            Any::Balancer(balancer) => {
                balancer.hear(from, bytes, post)?;
                Ok(false)
            }
            Any::Server(server) => {
                let outcome = server_edge::hear(server, heap, from, bytes, post)?;
                Ok(matches!(outcome, Some(Outcome::Delivered | Outcome::Opened)))
            }
            Any::Controller(controller) => {
                controller_edge::hear(controller, heap, from, bytes, post)?;
                Ok(false)
            }
        }
    }

    fn digest(&self, heap: Global) -> Result<u64, Error> {
        match self {
            Any::Balancer(balancer) => Ok(digest::of_balancer(balancer)),
            Any::Server(server) => digest::of_server(heap, server),
            Any::Controller(controller) => Ok(digest::of_controller(controller)),
        }
    }
}

// One message: what is sent is written behind what was written.
fn step(
    heap: Global,
    machine: &mut Any,
    from: Machine,
    bytes: &[u8],
    out: &mut Writer<'_>,
) -> Result<(), Error> {
    let mut post = Post::new(heap);
    let mut lent = Vec::from_slice(heap, bytes)?;
    let opened = machine.hear(heap, from, lent.as_mut_slice(), &mut post)?;
    match lent.as_slice().get(HEAD..) {
        Some(packet) if opened => out.put_table(packet),
        _ => out.put_posted(post.posted()),
    }
    Ok(())
}

fn play(heap: Global, script: &[u8], out: &mut Writer<'_>) -> Result<(), Error> {
    let Some(header) = read_header(script) else {
        return Ok(());
    };
    let mut machine = Any::new(heap, header)?;
    let mut rest = header.rest;
    // Each turn takes a byte or more, so there are no more turns than bytes: nothing else has to end the loop.
    for _ in 0..script.len() {
        if let [DIGEST, tail @ ..] = rest {
            out.put(&machine.digest(heap)?.to_be_bytes());
            rest = tail;
        } else {
            let Some(next) = read_step(rest) else {
                break;
            };
            step(heap, &mut machine, next.from, next.bytes, out)?;
            rest = next.rest;
        }
    }
    Ok(())
}

// Plays the script on a new machine, and writes what it sends while there is room; how many bytes were written.
#[unsafe(no_mangle)]
pub extern "C" fn play_machine(heap: Global, script: &[u8], out: &mut [u8]) -> usize {
    let mut out = Writer::new(out);
    match play(heap, script, &mut out) {
        Ok(()) => out.written(),
        Err(_) => 0,
    }
}
