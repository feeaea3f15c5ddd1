// The messages on their way, oldest first.
ghost use Rattle.std.specs.Prelude.{◌≡◌, [], ◌∷◌, ◌++◌, drop, position, ◌==◌, IfNone, MatchResult};
ghost use Rattle.stage.specs.Posts.{on_way, sent_by, found, without, oldest};

use crate::message::{Body, Machine, Message};
use std::alloc::{AllocFailed, Global};

#[derive(Drop)]
pub struct Post {
    on_way: Vec<Message>,
    last: u32,
}

impl Post {
    pub fn new(heap: Global) -> Post
        ensures { on_way result ≡ [] }
    {
        Post {
            on_way: Vec::new(heap),
            last: 0,
        }
    }

    // Nothing is on its way, and numbers begin anew.
    pub fn clear(&mut self)
        ensures { on_way self.new ≡ [] }
    {
        self.on_way.clear();
        self.last = 0;
    }

    pub fn on_way(&self) -> &[Message]
        ensures { result.now ≡ on_way self.now }
    {
        self.on_way.as_slice()
    }

    // A new message, under a number of its own.
    pub fn send(
        &mut self,
        from: Machine,
        to: Machine,
        body: Body,
    ) -> Result<Message, AllocFailed<Message>>
        ensures { MatchResult result (λ m. (on_way self.new ≡ on_way self.old ++ m ∷ []) × sent_by from to body m) (λ _. on_way self.new ≡ on_way self.old) }
    {
        let number = self.last.saturating_add(1);
        let message = Message {
            number,
            from,
            to,
            body,
        };
        self.on_way.push(message)?;
        self.last = number;
        Ok(message)
    }

    fn position(&self, number: u32) -> Option<usize>
        ensures { result ≡ position (λ m. m.number == number) (on_way self.now) }
    {
        self.on_way
            .iter()
            .position(|message| message.number == number)
    }

    // The message with this number.
    pub fn find(&self, number: u32) -> Option<Message>
        ensures { result ≡ found number (on_way self.now) }
    {
        self.on_way
            .iter()
            .copied()
            .find(|message| message.number == number)
    }

    // The message with this number is on its way no more.
    pub fn take(&mut self, number: u32) -> Option<Message>
        ensures value { result ≡ found number (on_way self.old) }
        ensures after { on_way self.new ≡ without number (on_way self.old) }
        ensures unchanged { IfNone result (on_way self.new ≡ on_way self.old) }
    {
        let at = self.position(number)?;
        Some(self.on_way.remove(at))
    }

    pub fn take_oldest(&mut self) -> Option<Message>
        ensures value { result ≡ oldest (on_way self.old) }
        ensures after { on_way self.new ≡ drop 1 (on_way self.old) }
    {
        if self.on_way.is_empty() {
            return None;
        }
        Some(self.on_way.remove(0))
    }
}
