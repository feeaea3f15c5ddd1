// How the controller begins.
ghost use Rattle.std.specs.Prelude.{◌≡◌, ℕ, ◌<◌, map, length, IfOk, vec_len, slice_index};
ghost use Rattle.assignment.specs.Even.{Numbered};
ghost use Rattle.controller_bucket.specs.Rules.{charge_first};
ghost use Rattle.controller_bucket.specs.Kept.{charge};
ghost use Rattle.controller.specs.Kept.{First};

use super::Controller;
use controller_bucket::kept::Bucket;
use fault::Error;
use flow::buckets::Buckets;
use roster::roster::Roster;
use sessions::clock::Clock;
use std::alloc::{AllocError, Global};

// Servers are numbered from 0 to 255.
const SERVERS: usize = 256;

// The server of a bucket, by its number. An assignment is lent as it is kept, as 16-bit numbers: that each is a server's
// stands in a clause, and once in the controller's own fields.
pub(crate) fn server_at(assignment: &[u16], bucket: u16) -> u8
    requires { (bucket < length assignment.now) × (Numbered (length assignment.now) assignment.now) }
    ensures { result ≡ slice_index assignment.now bucket }
{
    assignment[usize::from(bucket)] as u8
}

// At the start place 1 of each bucket stands at its server.
fn first_charges(heap: Global, assignment: &[u16]) -> Result<Vec<Bucket>, AllocError>
    requires { Numbered (length assignment.now) assignment.now }
    ensures { IfOk result (λ v. map charge v.items ≡ map charge_first assignment.now) }
{
    let mut charges = Vec::new(heap);
    for &server in assignment {
        charges.push(Bucket::new(heap, server as u8))?;
    }
    Ok(charges)
}

impl Controller {
    // The first assignment of all buckets; servers that are not in rising order are refused.
    pub fn new(
        heap: Global,
        buckets: Buckets,
        servers: &[u8],
        balancers: u16,
    ) -> Result<Controller, Error>
        ensures { First buckets.count servers.now balancers result }
    {
        let roster = Roster::new(heap, buckets.count() as usize, servers)?;
        let charges = first_charges(heap, roster.assignment())?;
        let mut parted = Vec::new(heap);
        parted.resize(SERVERS, 0u64)?;
        Ok(Controller {
            buckets,
            roster,
            charges,
            balancers,
            clock: Clock::new(),
            parted,
        })
    }
}
