// What the operator orders.
use crate::event::Event;
use crate::world::Simulation;
use fault::Error;
use flow::key::FlowKey;
use machine::name::Machine;
use machine::outbox::Outbox;

impl Simulation {
    // A server is listed. One that never was gets a machine first.
    pub fn add(&mut self, server: u8) -> Result<(), Error> {
        self.traffic.seen.clear();
        self.add_server(server)?;
        let mut out = Outbox::new(self.heap);
        self.controller.add(self.heap, server, &mut out)?;
        self.traffic.post(Machine::Controller, &out)
    }

    pub fn remove(&mut self, server: u8) -> Result<(), Error> {
        self.traffic.seen.clear();
        let mut out = Outbox::new(self.heap);
        self.controller.remove(self.heap, server, &mut out)?;
        self.traffic.post(Machine::Controller, &out)
    }

    // Every server is ordered to close the session.
    pub fn close(&mut self, flow: FlowKey) -> Result<(), Error> {
        self.traffic.seen.clear();
        for server in self.servers.iter_mut() {
            let number = server.number();
            let before = server.sessions().len();
            let mut out = Outbox::new(self.heap);
            server.close(flow, &mut out)?;
            if server.sessions().len() < before {
                self.traffic.see(Event::Closed {
                    server: number,
                    flow,
                })?;
            }
            self.traffic.post(Machine::Server(number), &out)?;
        }
        Ok(())
    }

    // So many ticks pass at every machine; a balancer has no clock.
    pub fn ticks(&mut self, count: u32) -> Result<(), Error> {
        self.traffic.seen.clear();
        let mut out = Outbox::new(self.heap);
        self.controller.ticks(count, &mut out)?;
        self.traffic.post(Machine::Controller, &out)?;
        for server in self.servers.iter_mut() {
            let mut out = Outbox::new(self.heap);
            server.ticks(self.heap, count, &mut out)?;
            self.traffic.post(Machine::Server(server.number()), &out)?;
        }
        Ok(())
    }
}
