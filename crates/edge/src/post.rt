// What a machine sends, as bytes: all of a message, or nothing of it.
ghost use Rattle.std.specs.Prelude.{◌≡◌, [], map, length, take};
ghost use Rattle.wire.specs.Seen.{said};
ghost use Rattle.edge.specs.Posts.{mail_of, mails_of, Puts, Adds};

use fault::Error;
use machine::name::Machine;
use std::alloc::Global;
use wire::message::Message;
use wire_write::write;

#[derive(Drop)]
pub struct Posted {
    pub to: Machine,
    pub bytes: Vec<u8>,
}

#[derive(Drop)]
pub struct Post {
    heap: Global,
    posted: Vec<Posted>,
}

impl Post {
    pub fn new(heap: Global) -> Post
        ensures { mails_of result ≡ [] }
    {
        Post {
            heap,
            posted: Vec::new(heap),
        }
    }

    pub fn heap(&self) -> Global {
        self.heap
    }

    pub fn posted(&self) -> &[Posted]
        ensures { map mail_of result.now ≡ mails_of self.now }
    {
        self.posted.as_slice()
    }

    pub fn len(&self) -> usize
        ensures { result ≡ length (mails_of self.now) }
    {
        self.posted.len()
    }

    // Bytes that are a message already.
    pub fn add(&mut self, to: Machine, bytes: Vec<u8>) -> Result<(), Error>
        ensures { Adds to bytes.items result (mails_of self.old) (mails_of self.new) }
    {
        self.posted.push(Posted { to, bytes })?;
        Ok(())
    }

    // A message, as bytes. A packet that is too long for its length field is refused.
    pub fn put(&mut self, to: Machine, message: Message<'_>) -> Result<(), Error>
        ensures { Puts to (said message.entry) result (mails_of self.old) (mails_of self.new) }
    {
        let mut bytes = Vec::new(self.heap);
        write(message, &mut bytes)?;
        self.add(to, bytes)
    }

    // The first so many stay.
    pub fn truncate(&mut self, len: usize)
        ensures { mails_of self.new ≡ take len (mails_of self.old) }
    {
        self.posted.truncate(len);
    }
}
