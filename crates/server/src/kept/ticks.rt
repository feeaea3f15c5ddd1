// Ticks at a server: what is not answered is said again, and sessions without a packet for an hour are closed.
ghost use Rattle.std.specs.Prelude.{◌≡◌, ◌*◌, ◌≤◌, ◌++◌, map, length, take, MatchResult};
ghost use Rattle.machine.specs.Outboxes.{sent_of, room_of};
ghost use Rattle.server_bucket.specs.Rules.{passed};
ghost use Rattle.server_bucket.specs.Kept.{holding};
ghost use Rattle.server.specs.Kept.{keeping, sessions_of, Elapses};
ghost use Rattle.server.specs.Rules.{due_from, emptied_all};

use super::Server;
use fault::{Error, Fault};
use machine::outbox::Outbox;
use server_bucket::kept::Bucket;
use sessions::key::Key;
use std::alloc::{AllocError, Global};

impl Server {
    // So many ticks pass. Room for all that is said is made first, so that want of memory changes nothing.
    pub fn ticks(&mut self, heap: Global, count: u32, out: &mut Outbox) -> Result<(), Error>
        ensures { Elapses count result (keeping self.old) (keeping self.new) (sessions_of self.old) (sessions_of self.new) (sent_of out.old) (sent_of out.new) }
    {
        let clock = self.clock.advanced(count).ok_or(Fault::NoSuch)?;
        let names = self.sessions.idle_keys(heap, clock.now())?;
        let before = out.sent().len();
        if collect(self.held.as_slice(), count, names.len(), out).is_err() {
            out.truncate(before);
            return Err(Error::Memory);
        }
        self.clock = clock;
        pass(&mut self.held, count);
        self.sessions.close_idle(names.as_slice(), clock.now());
        self.empty_all(names.as_slice(), out);
        Ok(())
    }

    // The places of these sessions, which are closed, may have become empty. Room was made for two of each.
    fn empty_all(&mut self, names: &[Key], out: &mut Outbox)
        requires { 2 * length names.now ≤ room_of out.old }
        ensures sent { sent_of out.new ≡ sent_of out.old ++ (emptied_all names.now (sessions_of self.old) (keeping self.old)).0 }
        ensures kept { keeping self.new ≡ (emptied_all names.now (sessions_of self.old) (keeping self.old)).1 }
        ensures sessions { sessions_of self.new ≡ sessions_of self.old }
    {
        for name in names {
            self.empty(name, out);
        }
    }
}

// `collect` and `pass` are as the controller's over another type; a trait is no plainer: what a bucket keeps is private, and would be a ghost member of it.

// What is due, and room for two messages for each session that is closed. Where there is no memory, what was there stays in front.
fn collect(held: &[Bucket], ticks: u32, closed: usize, out: &mut Outbox) -> Result<(), AllocError>
    requires { (length held.now ≤ 65536) × (closed ≤ 65536) }
    ensures { MatchResult result (λ _. (sent_of out.new ≡ sent_of out.old ++ due_from 0 ticks (map holding held.now)) × (2 * closed ≤ room_of out.new)) (λ _. take (length (sent_of out.old)) (sent_of out.new) ≡ sent_of out.old) }
{
    for (number, bucket) in (0..=u16::MAX).zip(held.iter()) {
        bucket.due(number, ticks, out)?;
    }
    out.make_room(2 * closed)
}

fn pass(held: &mut [Bucket], ticks: u32)
    ensures kept { map holding held.new ≡ map (passed ticks) (map holding held.old) }
    ensures long { length held.new ≡ length held.old }
{
    for bucket in held.iter_mut() {
        bucket.passed(ticks);
    }
}
