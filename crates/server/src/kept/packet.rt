// Packets at a server.
ghost use Rattle.std.specs.Prelude.{◌≡◌, if◌then◌else◌, None};
ghost use Rattle.server.specs.Kept.{keeping, sessions_of, Done, Fitting, Passes};
ghost use Rattle.server.specs.Rules.{handles, entry_in, effect_of, hint_from, forwards};

use super::Server;
use crate::passed::Passed;
use chain::place::{Entry, Outcome, Place, Standing};
use chain::way::{Link, Packet};
use fault::{Error, Fault, Refusal};
use flow::key::FlowKey;
use machine::name::Machine;
use machine::sent::{Note, Sent};
use sessions::key::Key;
use wire::message::{Control, Head};

// As many sessions as a server has at once.
const MOST: usize = 65536;

impl Server {
    // A packet that comes from a machine: it is delivered, opens its session, goes on, or is refused. Nothing changes where there is no memory.
    pub fn packet(&mut self, from: Machine, head: Head, flow: FlowKey) -> Result<Passed, Error>
        ensures passes { Passes (handles from head flow (keeping self.old) (sessions_of self.old)) result (sessions_of self.old) (sessions_of self.new) }
        ensures same { keeping self.new ≡ keeping self.old }
    {
        let Some(held) = self.held.get(usize::from(head.bucket)) else {
            return Ok(Passed {
                outcome: Outcome::Refused(Refusal::For(Fault::NoSuch)),
                hint: None,
            });
        };
        let at = Link {
            place: head.place,
            server: self.number,
        };
        let place = held.find(head.place).unwrap_or(Place {
            link: at,
            standing: Standing::Never,
        });
        let key = Key {
            bucket: head.bucket,
            place: head.place,
            flow,
        };
        let packet = Packet {
            flow,
            opens: head.opens,
            at,
            way: head.way,
        };
        let outcome = place.handle(packet, self.entry(&key));
        self.note(key, outcome)?;
        Ok(Passed {
            outcome,
            hint: hint(head.bucket, from, place, outcome),
        })
    }

    fn entry(&self, key: &Key) -> Entry
        ensures { result ≡ entry_in key.now (sessions_of self.now) }
    {
        if self.sessions.is_open(key) {
            Entry::Open
        } else if self.sessions.len() < MOST {
            Entry::Vacant
        } else {
            Entry::Full
        }
    }

    // The session has a packet: it is open from now on.
    fn note(&mut self, key: Key, outcome: Outcome) -> Result<(), Error>
        requires { Fitting outcome key (sessions_of self.old) }
        ensures done { Done (effect_of key (keeping self.old).tick outcome) result (sessions_of self.old) (sessions_of self.new) }
        ensures same { keeping self.new ≡ keeping self.old }
    {
        match outcome {
            Outcome::Delivered | Outcome::Opened => self.sessions.open(key, self.clock.now()),
            Outcome::Forwarded { .. } | Outcome::Refused(_) | Outcome::Dropped => Ok(()),
        }
    }
}

// What the balancer is told that sent to a forgotten place.
fn hint(bucket: u16, from: Machine, place: Place, outcome: Outcome) -> Option<Sent>
    ensures { result ≡ (if forwards outcome then hint_from bucket from place.standing else None) }
{
    match (outcome, from, place.standing) {
        (Outcome::Forwarded { .. }, Machine::Balancer(balancer), Standing::Forgotten { after }) =>
            Some(Sent {
                to: Machine::Balancer(balancer),
                note: Note::Say(Control::Door {
                    bucket,
                    newest: after,
                }),
            }),
        _ => None,
    }
}
