// What a step sends. Room is made before anything changes, so that a step that has begun comes to its end.
ghost use Rattle.std.specs.Prelude.{◌≡◌, ◌+◌, ◌<◌, ◌≤◌, [], ◌∷◌, ◌++◌, take, OnOk};
ghost use Rattle.machine.specs.Outboxes.{sent_of, room_of};

use crate::sent::Sent;
use std::alloc::{AllocError, Global};

#[derive(Drop)]
pub struct Outbox {
    sent: Vec<Sent>,
}

impl Outbox {
    pub fn new(heap: Global) -> Outbox
        ensures { sent_of result ≡ [] }
    {
        Outbox {
            sent: Vec::new(heap),
        }
    }

    pub fn sent(&self) -> &[Sent]
        ensures { result.now ≡ sent_of self.now }
    {
        self.sent.as_slice()
    }

    // Room for so many more.
    pub fn make_room(&mut self, more: usize) -> Result<(), AllocError>
        ensures same { sent_of self.new ≡ sent_of self.old }
        ensures room { OnOk result (more ≤ room_of self.new) }
    {
        self.sent.reserve(more)
    }

    // One more, for which room was made.
    pub fn put(&mut self, sent: Sent)
        requires { 0 < room_of self.old }
        ensures items { sent_of self.new ≡ sent_of self.old ++ sent ∷ [] }
        ensures room { room_of self.old ≤ room_of self.new + 1 }
    {
        let _ = self.sent.push(sent);
    }

    // The first so many stay.
    pub fn truncate(&mut self, len: usize)
        ensures { sent_of self.new ≡ take len (sent_of self.old) }
    {
        self.sent.truncate(len);
    }
}
