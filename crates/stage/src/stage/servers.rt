// A message at a server: packets at its places, and what it is told of them.
use super::{Notice, Stage, Traffic};
use crate::event::Event;
use crate::message::{Body, Machine, Message};
use chain::place::{Outcome, Place, Standing};
use chain::way::{Link, Packet};
use fault::Fault;
use std::alloc::AllocError;

impl Notice {
    // To whoever has not answered.
    fn say(self, traffic: &mut Traffic) -> Result<(), AllocError> {
        let Notice { place, after, .. } = self;
        let from = Machine::Server(place.server);
        let body = Body::Forgotten { place, after };
        if !self.server_heard {
            traffic.send(from, Machine::Server(after.server), body)?;
        }
        if !self.controller_heard {
            traffic.send(from, Machine::Controller, body)?;
        }
        Ok(())
    }
}

impl Stage {
    fn place_of(&self, link: Link) -> Option<Place> {
        self.places.iter().find(|place| place.link == link).copied()
    }

    fn put(&mut self, now: Place) {
        for place in self.places.iter_mut() {
            if place.link == now.link {
                *place = now;
            }
        }
    }

    pub(super) fn at_server(&mut self, server: u8, message: Message) -> Result<(), AllocError> {
        match message.body {
            Body::Packet(packet) => self.packet_at(server, message.from, packet),
            Body::Stand { place, before } => match self.place_of(place) {
                Some(found) => self.answer(
                    message,
                    found.told_to_stand(Some(before)),
                    Body::Stood { place, before },
                ),
                None => self.traffic.see(Event::Dropped),
            },
            Body::Behind { place, after } => match self.place_of(place) {
                Some(found) => self.answer(
                    message,
                    found.told_behind(after),
                    Body::Told { place, after },
                ),
                None => self.traffic.see(Event::Dropped),
            },
            Body::Forgotten { place, after } => match self.place_of(after) {
                Some(found) => self.answer(
                    message,
                    found.told_forgotten(place.place),
                    Body::Noted { place, after },
                ),
                None => self.traffic.see(Event::Dropped),
            },
            Body::Noted { place, .. } => {
                self.noted(message.from, place);
                Ok(())
            }
            _ => self.traffic.see(Event::Ignored),
        }
    }

    // What a place becomes by a message, and its answer. To a message for a place that is not known here there is none.
    fn answer(
        &mut self,
        message: Message,
        told: Result<Place, Fault>,
        answer: Body,
    ) -> Result<(), AllocError> {
        match told {
            Ok(now) => {
                self.put(now);
                self.traffic.send(message.to, message.from, answer)
            }
            Err(Fault::UnknownPlace) => self.traffic.see(Event::Dropped),
            Err(fault) => self.traffic.see(Event::Contradicted(fault)),
        }
    }

    fn packet_at(&mut self, server: u8, from: Machine, packet: Packet) -> Result<(), AllocError> {
        let Some(place) = self.place_of(packet.at) else {
            return self.traffic.see(Event::Dropped);
        };
        let at = packet.at;
        let flow = packet.flow;
        let tick = self.clock.now();
        match place.handle(packet, self.sessions.entry(at, flow)) {
            Outcome::Delivered => {
                self.sessions.touch(at, flow, tick);
                self.traffic.see(Event::Delivered { at, flow })?;
            }
            Outcome::Opened => {
                self.sessions.open(at, flow, tick)?;
                self.traffic.see(Event::Opened { at, flow })?;
            }
            Outcome::Forwarded { to, way } => {
                let packet = Packet {
                    at: to,
                    way,
                    ..packet
                };
                self.traffic.send(
                    Machine::Server(server),
                    Machine::Server(to.server),
                    Body::Packet(packet),
                )?;
            }
            Outcome::Refused(refusal) => self.traffic.see(Event::Refused { at, flow, refusal })?,
            Outcome::Dropped => self.traffic.see(Event::Dropped)?,
        }
        self.hint(server, from, place)
    }

    // A forgotten place that gets a packet from a balancer tells it of the place after.
    fn hint(&mut self, server: u8, from: Machine, place: Place) -> Result<(), AllocError> {
        match (from, place.standing) {
            (Machine::Balancer(_), Standing::Forgotten { after }) => {
                self.traffic
                    .send(Machine::Server(server), from, Body::Door { link: after })
            }
            _ => Ok(()),
        }
    }

    // The oldest place forgets itself, if no session is open in it and it is not the newest.
    pub(super) fn forget(&mut self) -> Result<(), AllocError> {
        for place in self.places.as_slice() {
            let empty = self.sessions.none_at(place.link);
            if let Some(now) = place.forget(empty)
                && let Standing::Forgotten { after } = now.standing
            {
                return self.forgets(now, after);
            }
        }
        self.traffic.see(Event::NothingForgotten)
    }

    fn forgets(&mut self, now: Place, after: Link) -> Result<(), AllocError> {
        let place = now.link;
        let notice = Notice {
            place,
            after,
            server_heard: false,
            controller_heard: false,
        };
        self.notices.push(notice)?;
        self.put(now);
        self.traffic.see(Event::Forgotten { place })?;
        notice.say(&mut self.traffic)
    }

    // Somebody answered that it heard of a forgotten place.
    fn noted(&mut self, from: Machine, place: Link) {
        for notice in self.notices.iter_mut() {
            if notice.place == place {
                match from {
                    Machine::Controller => notice.controller_heard = true,
                    Machine::Server(_) => notice.server_heard = true,
                    Machine::Balancer(_) => {}
                }
            }
        }
    }

    // What the servers have no answer to.
    pub(super) fn servers_say(&mut self) -> Result<(), AllocError> {
        for notice in self.notices.as_slice() {
            notice.say(&mut self.traffic)?;
        }
        Ok(())
    }
}
