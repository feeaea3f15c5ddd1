// A message at a balancer: it keeps the highest place that it has heard of, and answers whoever told it.
use super::Stage;
use crate::event::Event;
use crate::message::{Body, Machine, Message};
use std::alloc::AllocError;

impl Stage {
    pub(super) fn at_balancer(&mut self, balancer: u8, message: Message) -> Result<(), AllocError> {
        let Body::Door { link } = message.body else {
            return self.traffic.see(Event::Ignored);
        };
        let Some(here) = self.balancers.get_mut(usize::from(balancer)) else {
            return self.traffic.see(Event::Ignored);
        };
        match here.known.heard(link) {
            Ok(highest) => {
                here.known = highest;
                self.traffic.send(
                    Machine::Balancer(balancer),
                    message.from,
                    Body::Heard { link },
                )
            }
            Err(fault) => self.traffic.see(Event::Contradicted(fault)),
        }
    }
}
