// How a server begins.
ghost use Rattle.std.specs.Prelude.{◌≡◌, map, IfOk, if◌then◌else◌, nat_eq};
ghost use Rattle.server_bucket.specs.Kept.{holding};
ghost use Rattle.server_bucket.specs.Rules.{unheld, held_first};
ghost use Rattle.server.specs.Rules.{first_holdings};
ghost use Rattle.server.specs.Start.{Begins};

use super::Server;
use balancer::start::are_servers;
use chain::way::Link;
use fault::{Error, Fault};
use flow::buckets::Buckets;
use server_bucket::kept::Bucket;
use sessions::clock::Clock;
use sessions::store::Sessions;
use std::alloc::{AllocError, Global};

impl Server {
    // At the start place 1 of each bucket stands at its server. A list that is no assignment is refused.
    pub fn new(
        heap: Global,
        number: u8,
        buckets: Buckets,
        assignment: &[u16],
    ) -> Result<Server, Error>
        ensures { Begins number buckets.count assignment.now result }
    {
        if assignment.len() != buckets.count() as usize || !are_servers(assignment) {
            return Err(Error::Of(Fault::NoSuch));
        }
        let held = first_held(heap, number, assignment)?;
        let sessions = Sessions::new(heap)?;
        Ok(Server {
            number,
            buckets,
            held,
            sessions,
            clock: Clock::new(),
            stood: 0,
        })
    }
}

fn first_held(heap: Global, number: u8, assignment: &[u16]) -> Result<Vec<Bucket>, AllocError>
    ensures { IfOk result (λ v. map holding v.items ≡ first_holdings number assignment.now) }
{
    let mut held = Vec::new(heap);
    for server in assignment {
        let last = held.len();
        held.push(Bucket::new())?;
        first(&mut held[last], number, *server);
    }
    Ok(held)
}

// Told to stand where it lies: of a `Bucket::first` that is pushed, the compiler makes a copy on the stack.
fn first(bucket: &mut Bucket, number: u8, server: u16)
    requires { holding bucket.old ≡ unheld }
    ensures { holding bucket.new ≡ (if nat_eq server number then held_first number else unheld) }
{
    if server == u16::from(number) {
        let link = Link {
            place: 1,
            server: number,
        };
        let _ = bucket.stand(link, None);
    }
}
