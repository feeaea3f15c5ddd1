// What is on its way, and what was seen of the last event.
use crate::event::{Event, Tally};
use crate::letter::Letter;
use fault::{Error, Fault};
use machine::name::Machine;
use machine::outbox::Outbox;
use machine::sent::{Note, Sent};
use std::alloc::Global;
use wire::message::Message;
use wire_write::write;

#[derive(Drop)]
pub(crate) struct Traffic {
    pub(crate) heap: Global,
    // Oldest first.
    pub(crate) letters: Vec<Letter>,
    // The number of the last letter.
    pub(crate) last: u32,
    pub(crate) tally: Tally,
    pub(crate) seen: Vec<Event>,
}

impl Traffic {
    pub(crate) fn new(heap: Global) -> Traffic {
        Traffic {
            heap,
            letters: Vec::new(heap),
            last: 0,
            tally: Tally::default(),
            seen: Vec::new(heap),
        }
    }

    pub(crate) fn position(&self, number: u32) -> Option<usize> {
        self.letters
            .iter()
            .position(|letter| letter.number == number)
    }

    // The oldest letter about this bucket.
    pub(crate) fn position_of(&self, bucket: u16) -> Option<usize> {
        self.letters
            .iter()
            .position(|letter| letter.is_about(bucket))
    }

    pub(crate) fn take(&mut self, at: usize) -> Result<Letter, Fault> {
        if at >= self.letters.len() {
            return Err(Fault::NoSuch);
        }
        Ok(self.letters.remove(at))
    }

    pub(crate) fn see(&mut self, event: Event) -> Result<(), Error> {
        self.seen.push(event)?;
        self.tally = self.tally.noted(event);
        Ok(())
    }

    // Bytes on their way, under a number of their own.
    pub(crate) fn send(
        &mut self,
        from: Machine,
        to: Machine,
        bytes: Vec<u8>,
        forwarded: u32,
    ) -> Result<(), Error> {
        let number = self.last.wrapping_add(1);
        let letter = Letter {
            number,
            from,
            to,
            bytes,
            forwarded,
        };
        let bucket = letter.bucket().unwrap_or(0);
        self.letters.push(letter)?;
        self.last = number;
        self.tally = self.tally.forwarded(forwarded);
        self.see(Event::Sent { number, bucket })
    }

    // What a machine's step sends.
    pub(crate) fn post(&mut self, from: Machine, out: &Outbox) -> Result<(), Error> {
        for sent in out.sent() {
            self.post_one(from, *sent)?;
        }
        Ok(())
    }

    pub(crate) fn post_one(&mut self, from: Machine, sent: Sent) -> Result<(), Error> {
        let message = match sent.note {
            Note::Say(control) => Message::Control(control),
            Note::Answer(control) => Message::Answer(control),
            Note::PutOff(bucket) => return self.see(Event::PutOff { bucket }),
        };
        let mut bytes = Vec::new(self.heap);
        write(message, &mut bytes)?;
        self.send(from, sent.to, bytes, 0)
    }
}
