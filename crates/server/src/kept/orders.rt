// What a server is ordered to do.
ghost use Rattle.std.specs.Prelude.{◌≡◌, ◌+◌, ◌≤◌, ◌++◌, map, find, is_some};
ghost use Rattle.machine.specs.Outboxes.{sent_of, room_of};
ghost use Rattle.sessions.specs.Entries.{seen_in};
ghost use Rattle.sessions.specs.Model.{entries_of};
ghost use Rattle.server.specs.Kept.{keeping, sessions_of, Obeys};
ghost use Rattle.server.specs.Rules.{closes, emptied};

use super::Server;
use super::told::is_empty;
use chain::place::Place;
use fault::Error;
use flow::key::FlowKey;
use machine::outbox::Outbox;
use server_bucket::say::tell;
use sessions::key::Key;
use sessions::store::Sessions;

impl Server {
    // A session is closed, in whichever place of this server it is open; the place may be forgotten by that. Nothing changes where there is no memory.
    pub fn close(&mut self, flow: FlowKey, out: &mut Outbox) -> Result<(), Error>
        ensures { Obeys (closes flow (keeping self.old) (sessions_of self.old)) result (keeping self.old) (keeping self.new) (sessions_of self.old) (sessions_of self.new) (sent_of out.old) (sent_of out.new) }
    {
        let bucket = flow.bucket(self.buckets);
        let standing = self.held[usize::from(bucket)].standing();
        let Some(key) = open_at(&self.sessions, bucket, flow, standing) else {
            return Ok(());
        };
        out.make_room(2)?;
        self.sessions.close(&key);
        self.empty(&key, out);
        Ok(())
    }

    // The place of a session that is closed may have become empty, and is forgotten if it may be. Room was made for two.
    pub(super) fn empty(&mut self, key: &Key, out: &mut Outbox)
        requires { 2 ≤ room_of out.old }
        ensures sent { sent_of out.new ≡ sent_of out.old ++ (emptied key.now.bucket key.now.place (sessions_of self.old) (keeping self.old)).0 }
        ensures kept { keeping self.new ≡ (emptied key.now.bucket key.now.place (sessions_of self.old) (keeping self.old)).1 }
        ensures sessions { sessions_of self.new ≡ sessions_of self.old }
        ensures room { room_of out.old ≤ room_of out.new + 2 }
    {
        let Some(held) = self.held.get_mut(usize::from(key.bucket)) else {
            return;
        };
        let gone = held.emptied(key.place, is_empty(&self.sessions, key.bucket, key.place));
        self.leave(gone);
        tell(key.bucket, key.place, gone, out);
    }
}

// The session in the first of these places, the newest first, where it is open.
fn open_at(sessions: &Sessions, bucket: u16, flow: FlowKey, standing: &[Place]) -> Option<Key>
    ensures { result ≡ find (λ k. is_some (seen_in k (entries_of sessions.now))) (map (λ p. record { bucket = bucket; place = p.link.place; flow = flow }) standing.now) }
{
    standing
        .iter()
        .map(|place| Key {
            bucket,
            place: place.link.place,
            flow,
        })
        .find(|key| sessions.is_open(key))
}
