// The list of servers and the assignment of all buckets to them, as servers come and go.
ghost use Rattle.std.specs.Prelude.{◌≡◌, IfOk, vec_len};
ghost use Rattle.roster.specs.Rosters.{none, servers_of, assignment_of, Begun, Changed, Added, Removed, ChangedWhole, AddedWhole, RemovedWhole};
ghost use Rattle.assignment.specs.Even.{Numbered};

use crate::list::{with_server, without_server};
use assignment::balance::rebalance;
pub use assignment::buckets::is_buckets;
use assignment::counts::NONE;
use assignment::moves::{Move, moves};
use fault::{Error, Fault};
use std::alloc::{AllocError, Global};

#[derive(Drop)]
pub struct Roster {
    // In rising order.
    servers: Vec<u8>,
    // The server of each bucket.
    assignment: Vec<u16>,
}

// Buckets that have no server yet.
pub fn unassigned(heap: Global, buckets: usize) -> Result<Vec<u16>, AllocError>
    ensures { IfOk result (λ v. (v.items ≡ none buckets) × (vec_len v ≡ buckets)) }
{
    vec![in heap; NONE; buckets]
}

impl Roster {
    // All buckets are assigned from nothing. The servers are listed in rising order, else they are refused.
    pub fn new(heap: Global, buckets: usize, servers: &[u8]) -> Result<Roster, Error>
        ensures begun { Begun buckets servers.now result }
        ensures numbered { IfOk result (λ r. Numbered buckets (assignment_of r)) }
    {
        if !is_buckets(buckets) {
            return Err(Error::Of(Fault::NoSuch));
        }
        let mut assignment = unassigned(heap, buckets)?;
        rebalance(&mut assignment, servers)?;
        let servers = Vec::from_slice(heap, servers)?;
        Ok(Roster {
            servers,
            assignment,
        })
    }

    pub fn servers(&self) -> &[u8]
        ensures { result.now ≡ servers_of self.now }
    {
        &self.servers
    }

    pub fn assignment(&self) -> &[u16]
        ensures { result.now ≡ assignment_of self.now }
    {
        &self.assignment
    }

    // A server comes: the buckets that change hands. One that is listed changes nothing.
    pub fn add(&mut self, heap: Global, server: u8) -> Result<Vec<Move>, Error>
        ensures added { Added server self.old self.new result }
        ensures whole { AddedWhole server self.old self.new result }
    {
        let servers = with_server(heap, &self.servers, server)?;
        if servers.len() == self.servers.len() {
            return Ok(Vec::new(heap));
        }
        self.change(heap, servers)
    }

    // A server goes: the buckets that change hands. Refused: one that is not listed, and the last one.
    pub fn remove(&mut self, heap: Global, server: u8) -> Result<Vec<Move>, Error>
        ensures removed { Removed server self.old self.new result }
        ensures whole { RemovedWhole server self.old self.new result }
    {
        let servers = without_server(heap, &self.servers, server)?;
        if servers.len() == self.servers.len() {
            return Err(Error::Of(Fault::NoSuch));
        }
        self.change(heap, servers)
    }

    // All is made beside the old, and comes in its place last, so that a refusal changes nothing.
    fn change(&mut self, heap: Global, servers: Vec<u8>) -> Result<Vec<Move>, Error>
        ensures changed { Changed servers.items self.old self.new result }
        ensures whole { ChangedWhole servers.items self.old self.new result }
    {
        let mut assignment = Vec::from_slice(heap, &self.assignment)?;
        rebalance(&mut assignment, &servers)?;
        let moves = moves(heap, &self.assignment, &assignment)?;
        *self = Roster {
            servers,
            assignment,
        };
        Ok(moves)
    }
}
