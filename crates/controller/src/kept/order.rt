// Servers are added and removed.
ghost use Rattle.std.specs.Prelude.{◌≡◌, ℕ, ◌<◌, ◌≤◌, ◌++◌, map, length};
ghost use Rattle.assignment.specs.Even.{Numbered};
ghost use Rattle.machine.specs.Outboxes.{sent_of, room_of};
ghost use Rattle.machine.specs.Steps.{Did};
ghost use Rattle.controller_bucket.specs.Kept.{charge};
ghost use Rattle.controller.specs.Rules.{begun_from, adds, removes};
ghost use Rattle.controller.specs.Kept.{ruling};

use super::Controller;
use crate::kept::start::server_at;
use controller_bucket::kept::Bucket;
use fault::Error;
use machine::outbox::Outbox;
use std::alloc::Global;

// Each bucket whose newest place is not at its assigned server is handed over.
// The index is cast: beside numbers of 16 bits (`zip`), the loop no longer names the slice that it changes.
fn begin_all(charges: &mut [Bucket], assignment: &[u16], out: &mut Outbox)
    requires { (length charges.old ≡ length assignment.now) × ((length charges.old ≤ 65536) × ((length charges.old ≤ room_of out.old) × (Numbered (length assignment.now) assignment.now))) }
    ensures sent { sent_of out.new ≡ sent_of out.old ++ (begun_from 0 assignment.now (map charge charges.old)).0 }
    ensures charges { map charge charges.new ≡ (begun_from 0 assignment.now (map charge charges.old)).1 }
{
    for (b, charge) in charges.iter_mut().enumerate() {
        let bucket = b as u16;
        charge.begun(bucket, server_at(assignment, bucket), out);
    }
}

impl Controller {
    // A server is added; one that is listed changes nothing.
    pub fn add(&mut self, heap: Global, server: u8, out: &mut Outbox) -> Result<(), Error>
        ensures { Did (adds server (ruling self.old)) result (ruling self.old) (ruling self.new) (sent_of out.old) (sent_of out.new) }
    {
        out.make_room(self.charges.len())?;
        let count = self.roster.servers().len();
        self.roster.add(heap, server)?;
        if self.roster.servers().len() != count {
            begin_all(self.charges.as_mut_slice(), self.roster.assignment(), out);
        }
        Ok(())
    }

    // A server is removed; one that is not listed, and the last one, are refused.
    pub fn remove(&mut self, heap: Global, server: u8, out: &mut Outbox) -> Result<(), Error>
        ensures { Did (removes server (ruling self.old)) result (ruling self.old) (ruling self.new) (sent_of out.old) (sent_of out.new) }
    {
        out.make_room(self.charges.len())?;
        self.roster.remove(heap, server)?;
        begin_all(self.charges.as_mut_slice(), self.roster.assignment(), out);
        Ok(())
    }
}
