// A letter comes to its machine, is lost, or is repeated.
use crate::event::Event;
use crate::letter::Letter;
use crate::world::Simulation;
use chain::place::Outcome;
use chain::way::Link;
use fault::{Error, Fault};
use flow::key::FlowKey;
use machine::name::Machine;
use machine::outbox::Outbox;
use machine::sent::{Note, Sent};
use std::mem;
use wire::message::{Control, Head, Message};
use wire_read::read;
use wire_write::forward::forward;

impl Simulation {
    // Where the letter with this number is. What was seen before is forgotten.
    fn begin(&mut self, number: u32) -> Result<usize, Fault> {
        self.traffic.seen.clear();
        self.traffic.position(number).ok_or(Fault::NoSuch)
    }

    // The letter with this number is handled by the machine that it is for.
    pub fn deliver(&mut self, number: u32) -> Result<(), Error> {
        let at = self.begin(number)?;
        self.deliver_at(at)
    }

    pub fn next(&mut self) -> Result<(), Error> {
        self.traffic.seen.clear();
        self.deliver_at(0)
    }

    pub fn latest(&mut self) -> Result<(), Error> {
        self.traffic.seen.clear();
        let last = self.traffic.letters.len().saturating_sub(1);
        self.deliver_at(last)
    }

    pub fn next_of(&mut self, bucket: u16) -> Result<(), Error> {
        self.traffic.seen.clear();
        let at = self.traffic.position_of(bucket).ok_or(Fault::NoSuch)?;
        self.deliver_at(at)
    }

    pub fn lose(&mut self, number: u32) -> Result<(), Error> {
        let at = self.begin(number)?;
        self.lose_at(at)
    }

    pub(crate) fn lose_at(&mut self, at: usize) -> Result<(), Error> {
        let letter = self.traffic.take(at)?;
        self.traffic.see(letter.lost())
    }

    // Of what is on its way only each so-many-th letter stays.
    pub fn thin(&mut self, keep: u32) -> Result<(), Error> {
        self.traffic.seen.clear();
        let lost_between = keep.checked_sub(1).ok_or(Fault::NoSuch)?;
        let mut letters = mem::replace(&mut self.traffic.letters, Vec::new(self.heap));
        let mut to_lose = 0;
        let mut seen = Ok(());
        // Where memory is short, the letters that cannot be seen to be lost stay.
        letters.retain(|letter| {
            if to_lose == 0 || seen.is_err() {
                to_lose = lost_between;
                return true;
            }
            to_lose -= 1;
            seen = self.traffic.see(letter.lost());
            seen.is_err()
        });
        self.traffic.letters = letters;
        seen
    }

    // The letter is on its way once more.
    pub fn repeat(&mut self, number: u32) -> Result<(), Error> {
        let at = self.begin(number)?;
        self.repeat_at(at)
    }

    pub(crate) fn repeat_at(&mut self, at: usize) -> Result<(), Error> {
        let letter = self.traffic.letters.get(at).ok_or(Fault::NoSuch)?;
        let bytes = Vec::from_slice(self.heap, letter.bytes.as_slice())?;
        let (from, to, forwarded) = (letter.from, letter.to, letter.forwarded);
        self.traffic.send(from, to, bytes, forwarded)
    }

    pub(crate) fn deliver_at(&mut self, at: usize) -> Result<(), Error> {
        let letter = self.traffic.take(at)?;
        if self.deaf == Some(letter.to) {
            return self.traffic.see(letter.lost());
        }
        self.traffic.see(Event::Handled {
            number: letter.number,
            bucket: letter.bucket().unwrap_or(0),
            at: letter.to,
        })?;
        match letter.to {
            Machine::Balancer(balancer) => self.balancer_hears(balancer, &letter),
            Machine::Server(server) => self.server_hears(server, letter),
            Machine::Controller => self.controller_hears(&letter),
            Machine::Client | Machine::Operator => Ok(()),
        }
    }

    fn refused(&mut self, bucket: u16, fault: Fault) -> Result<(), Error> {
        match fault {
            Fault::UnknownPlace => self.traffic.see(Event::Dropped { bucket }),
            _ => self.traffic.see(Event::Contradicted { bucket, fault }),
        }
    }

    fn balancer_hears(&mut self, balancer: u16, letter: &Letter) -> Result<(), Error> {
        let Ok(Message::Control(control)) = read(letter.bytes.as_slice(), self.buckets) else {
            return Ok(());
        };
        let Control::Door { bucket, newest } = control else {
            return self.refused(letter.bucket().unwrap_or(0), Fault::Malformed);
        };
        let Some(here) = self.balancers.get_mut(usize::from(balancer)) else {
            return Ok(());
        };
        match here.told(bucket, newest) {
            Ok(()) => self.traffic.post_one(
                Machine::Balancer(balancer),
                Sent {
                    to: letter.from,
                    note: Note::Answer(control),
                },
            ),
            Err(fault) => self.refused(bucket, fault),
        }
    }

    fn server_hears(&mut self, server: u8, letter: Letter) -> Result<(), Error> {
        let Some(at) = self.find_server(server) else {
            return Ok(());
        };
        match read(letter.bytes.as_slice(), self.buckets) {
            Ok(Message::Packet { head, flow, .. }) => self.packet_comes(at, letter, head, flow),
            Ok(Message::Control(control)) => self.server_told(at, &letter, control),
            Ok(Message::Answer(control)) => {
                if let Some(server) = self.servers.get_mut(at) {
                    server.heard(letter.from, control);
                }
                Ok(())
            }
            _ => Ok(()),
        }
    }

    fn server_told(&mut self, at: usize, letter: &Letter, control: Control) -> Result<(), Error> {
        let Some(server) = self.servers.get_mut(at) else {
            return Ok(());
        };
        let mut out = Outbox::new(self.heap);
        match server.told(letter.from, control, &mut out) {
            Ok(()) => self.traffic.post(letter.to, &out),
            Err(Error::Of(fault)) => self.refused(letter.bucket().unwrap_or(0), fault),
            Err(Error::Memory) => Err(Error::Memory),
        }
    }

    fn packet_comes(
        &mut self,
        at: usize,
        letter: Letter,
        head: Head,
        flow: FlowKey,
    ) -> Result<(), Error> {
        let Some(server) = self.servers.get_mut(at) else {
            return Ok(());
        };
        let number = server.number();
        let passed = server.packet(letter.from, head, flow)?;
        let here = Link {
            place: head.place,
            server: number,
        };
        self.outcome(letter, here, head, flow, passed.outcome)?;
        match passed.hint {
            Some(hint) => self.traffic.post_one(Machine::Server(number), hint),
            None => Ok(()),
        }
    }

    fn outcome(
        &mut self,
        letter: Letter,
        at: Link,
        head: Head,
        flow: FlowKey,
        outcome: Outcome,
    ) -> Result<(), Error> {
        let bucket = head.bucket;
        match outcome {
            Outcome::Delivered => self.traffic.see(Event::Given {
                at,
                bucket,
                flow,
                opened: false,
            }),
            Outcome::Opened => self.traffic.see(Event::Given {
                at,
                bucket,
                flow,
                opened: true,
            }),
            Outcome::Forwarded { to, way } => {
                let mut bytes = letter.bytes;
                forward(bytes.as_mut_slice(), to.place, way)?;
                self.traffic.send(
                    Machine::Server(at.server),
                    Machine::Server(to.server),
                    bytes,
                    letter.forwarded.saturating_add(1),
                )
            }
            Outcome::Refused(refusal) => self.traffic.see(Event::Refused {
                at,
                bucket,
                flow,
                refusal,
            }),
            Outcome::Dropped => self.traffic.see(Event::Dropped { bucket }),
        }
    }

    fn controller_hears(&mut self, letter: &Letter) -> Result<(), Error> {
        let mut out = Outbox::new(self.heap);
        let bucket = letter.bucket().unwrap_or(0);
        let answer = match read(letter.bytes.as_slice(), self.buckets) {
            Ok(Message::Control(control)) => self.controller.told(letter.from, control, &mut out),
            Ok(Message::Answer(control)) => {
                self.controller
                    .heard(self.heap, letter.from, control, &mut out)
            }
            _ => Err(Error::Of(Fault::Malformed)),
        };
        match answer {
            Ok(()) => self.traffic.post(Machine::Controller, &out),
            Err(Error::Of(fault)) => self.refused(bucket, fault),
            Err(Error::Memory) => Err(Error::Memory),
        }
    }
}
