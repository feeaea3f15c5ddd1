// The controller: a handover in its three phases, and what it does with answers.
ghost use Rattle.stage.specs.Machines.{machines, FaultChangesNothing};

use super::Stage;
use crate::event::Event;
use crate::message::{Body, Machine, Message};
use chain::handover::Handover;
use chain::place::{Place, Standing};
use chain::way::Link;
use fault::{Error, Fault};
use std::alloc::AllocError;

impl Stage {
    // A handover begins: the new place is told to stand.
    pub(super) fn change(&mut self, server: u8) -> Result<(), Error>
        ensures { FaultChangesNothing result (machines self.old) (machines self.new) }
    {
        if server >= self.servers {
            return Err(Error::Of(Fault::NoSuch));
        }
        let link = self.chain.begin(server)?;
        self.places.push(Place {
            link,
            standing: Standing::Never,
        })?;
        self.tell_to_stand(link)?;
        Ok(())
    }

    fn tell_to_stand(&mut self, place: Link) -> Result<(), AllocError> {
        let before = self.chain.newest();
        self.traffic.send(
            Machine::Controller,
            Machine::Server(place.server),
            Body::Stand { place, before },
        )
    }

    fn tell_newest(&mut self, after: Link) -> Result<(), AllocError> {
        let newest = self.chain.newest();
        self.traffic.send(
            Machine::Controller,
            Machine::Server(newest.server),
            Body::Behind {
                place: newest,
                after,
            },
        )
    }

    // A newer message to a balancer takes the place of one that it has not answered.
    fn tell_balancers(&mut self) -> Result<(), AllocError> {
        let newest = self.chain.newest();
        self.traffic.see(Event::HandedOver { newest })?;
        for balancer in self.balancers.iter_mut() {
            balancer.telling = Some(newest);
        }
        self.say_to_balancers()
    }

    fn say_to_balancers(&mut self) -> Result<(), AllocError> {
        for (number, balancer) in (0..=255u8).zip(self.balancers.as_slice()) {
            if let Some(link) = balancer.telling {
                self.traffic.send(
                    Machine::Controller,
                    Machine::Balancer(number),
                    Body::Door { link },
                )?;
            }
        }
        Ok(())
    }

    pub(super) fn at_controller(&mut self, message: Message) -> Result<(), AllocError> {
        match message.body {
            Body::Stood { place, .. } => match self.chain.stood(place.place) {
                Some(after) => self.tell_newest(after),
                None => self.traffic.see(Event::Ignored),
            },
            Body::Told { place, after } => {
                if self.chain.told(place.place, after) {
                    self.tell_balancers()
                } else {
                    self.traffic.see(Event::Ignored)
                }
            }
            Body::Heard { link } => self.balancer_heard(message.from, link),
            Body::Forgotten { place, after } => {
                if self.chain.forgotten(place.place) {
                    self.traffic.send(
                        Machine::Controller,
                        message.from,
                        Body::Noted { place, after },
                    )
                } else {
                    self.traffic.see(Event::Ignored)
                }
            }
            _ => self.traffic.see(Event::Ignored),
        }
    }

    fn balancer_heard(&mut self, from: Machine, link: Link) -> Result<(), AllocError> {
        if let Machine::Balancer(number) = from
            && let Some(balancer) = self.balancers.get_mut(usize::from(number))
            && balancer.telling == Some(link)
        {
            balancer.telling = None;
            return Ok(());
        }
        self.traffic.see(Event::Ignored)
    }

    // What the controller has no answer to.
    pub(super) fn controller_says(&mut self) -> Result<(), AllocError> {
        match self.chain.handover() {
            Handover::Idle => {}
            Handover::AwaitStood(link) => self.tell_to_stand(link)?,
            Handover::AwaitTold(link) => self.tell_newest(link)?,
        }
        self.say_to_balancers()
    }
}
