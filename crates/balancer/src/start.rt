// How a balancer begins.
ghost use Rattle.std.specs.Prelude.{◌≡◌, true, IfOk};
ghost use Rattle.balancer.specs.Rules.{are_servers, first_links, Begins};

use crate::Balancer;
use chain::way::Link;
use fault::{Error, Fault};
use flow::buckets::Buckets;
use std::alloc::{AllocError, Global};

// The highest number of a server.
const LAST_SERVER: u16 = 255;

pub fn are_servers(numbers: &[u16]) -> bool
    ensures { result ≡ are_servers numbers.now }
{
    numbers.iter().all(|number| *number <= LAST_SERVER)
}

// Place 1 of each bucket, at its server.
fn first_links(heap: Global, servers: &[u16]) -> Result<Vec<Link>, AllocError>
    requires { are_servers servers.now ≡ true }
    ensures { IfOk result (λ v. v.items ≡ first_links servers.now) }
{
    let mut links = Vec::new(heap);
    for number in servers {
        let server = *number as u8;
        links.push(Link { place: 1, server })?;
    }
    Ok(links)
}

impl Balancer {
    // At the start every balancer knows place 1 of each bucket. A list that is no assignment is refused.
    pub fn new(heap: Global, buckets: Buckets, assignment: &[u16]) -> Result<Balancer, Error>
        ensures { Begins buckets.count assignment.now result }
    {
        if assignment.len() != buckets.count() as usize || !are_servers(assignment) {
            return Err(Error::Of(Fault::NoSuch));
        }
        let links = first_links(heap, assignment)?;
        Ok(Balancer { buckets, links })
    }
}
