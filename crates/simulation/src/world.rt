// All machines, and what is on its way.
use crate::event::{Event, Tally};
use crate::letter::Letter;
use crate::traffic::Traffic;
use balancer::Balancer;
use controller::kept::Controller;
use fault::{Error, Fault};
use flow::buckets::Buckets;
use flow::key::FlowKey;
use machine::name::Machine;
use packets::packet;
use roster::roster::Roster;
use server::kept::Server;
use std::alloc::Global;

#[derive(Drop)]
pub struct Simulation {
    pub(crate) heap: Global,
    pub(crate) buckets: Buckets,
    // The assignment at the start: a server that comes later stands in none of these places.
    pub(crate) first: Vec<u16>,
    pub(crate) balancers: Vec<Balancer>,
    // Every server that ever was listed keeps what it remembers.
    pub(crate) servers: Vec<Server>,
    pub(crate) controller: Controller,
    // What comes to this machine is lost.
    pub(crate) deaf: Option<Machine>,
    pub(crate) traffic: Traffic,
}

impl Simulation {
    // All machines compute the same first assignment.
    pub fn new(
        heap: Global,
        servers: u8,
        balancers: u16,
        buckets: u32,
    ) -> Result<Simulation, Error> {
        let buckets = Buckets::new(buckets)?;
        let list: Vec<u8> = (0..servers).collect(heap)?;
        let roster = Roster::new(heap, buckets.count() as usize, list.as_slice())?;
        let first = Vec::from_slice(heap, roster.assignment())?;
        let controller = Controller::new(heap, buckets, list.as_slice(), balancers)?;
        let mut all = Simulation {
            heap,
            buckets,
            first,
            balancers: Vec::new(heap),
            servers: Vec::new(heap),
            controller,
            deaf: None,
            traffic: Traffic::new(heap),
        };
        for _ in 0..balancers {
            all.add_balancer()?;
        }
        for number in list.as_slice() {
            all.add_server(*number)?;
        }
        Ok(all)
    }

    fn add_balancer(&mut self) -> Result<(), Error> {
        let balancer = Balancer::new(self.heap, self.buckets, self.first.as_slice())?;
        self.balancers.push(balancer)?;
        Ok(())
    }

    // A machine for a server that was never listed before.
    pub(crate) fn add_server(&mut self, number: u8) -> Result<(), Error> {
        if self.find_server(number).is_some() {
            return Ok(());
        }
        let server = Server::new(self.heap, number, self.buckets, self.first.as_slice())?;
        self.servers.push(server)?;
        Ok(())
    }

    pub(crate) fn find_server(&self, number: u8) -> Option<usize> {
        self.servers
            .iter()
            .position(|server| server.number() == number)
    }

    pub fn buckets(&self) -> Buckets {
        self.buckets
    }

    pub fn balancers(&self) -> &[Balancer] {
        self.balancers.as_slice()
    }

    pub fn servers(&self) -> &[Server] {
        self.servers.as_slice()
    }

    pub fn controller(&self) -> &Controller {
        &self.controller
    }

    // Oldest first.
    pub fn letters(&self) -> &[Letter] {
        self.traffic.letters.as_slice()
    }

    pub fn letter(&self, number: u32) -> Option<&Letter> {
        self.letters().iter().find(|letter| letter.number == number)
    }

    pub fn seen(&self) -> &[Event] {
        self.traffic.seen.as_slice()
    }

    // What comes to this machine is lost from now on, until another is named or none.
    pub fn set_deaf(&mut self, to: Option<Machine>) {
        self.deaf = to;
    }

    pub fn tally(&self) -> Tally {
        self.traffic.tally
    }

    // A packet comes from outside, by a balancer.
    pub fn packet(&mut self, balancer: u16, flow: FlowKey, opens: bool) -> Result<(), Error> {
        self.traffic.seen.clear();
        let sender = self
            .balancers
            .get(usize::from(balancer))
            .ok_or(Fault::NoSuch)?;
        let inside = packet(self.heap, flow, opens)?;
        let mut bytes = Vec::new(self.heap);
        let server = sender.dispatch(inside.as_slice(), &mut bytes)?;
        self.traffic.send(
            Machine::Balancer(balancer),
            Machine::Server(server),
            bytes,
            0,
        )
    }
}
