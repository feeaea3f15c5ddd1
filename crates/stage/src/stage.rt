// The machines of one bucket, and how a command changes them.
ghost use Rattle.stage.specs.Machines.{machines, FaultChangesNothing};

use crate::event::Event;
use crate::message::{Body, Machine, Message};
use crate::post::Post;
use crate::session::Sessions;
use chain::kept::Chain;
use chain::place::{Place, Standing};
use chain::way::{Link, Packet, Way};
use fault::{Error, Fault};
use flow::key::FlowKey;
use script::command::Command;
use sessions::clock::Clock;
use std::alloc::{AllocError, Global};

mod balancers;
mod controller;
mod servers;

// More than a bucket's packets ever need, unless hands change all the time.
const MOST_HANDLED: usize = 10_000;

// A forgotten place says so to the place after it and to the controller, until each has answered.
#[derive(Clone, Copy, PartialEq, Eq, Debug)]
pub struct Notice {
    place: Link,
    after: Link,
    server_heard: bool,
    controller_heard: bool,
}

// The place that a balancer knows, and the one of which the controller still tells it.
#[derive(Clone, Copy, PartialEq, Eq, Debug)]
pub struct Balancer {
    pub known: Link,
    telling: Option<Link>,
}

// What is on its way, and what was seen of the last command.
#[derive(Drop)]
struct Traffic {
    post: Post,
    seen: Vec<Event>,
}

impl Traffic {
    fn see(&mut self, event: Event) -> Result<(), AllocError> {
        self.seen.push(event)?;
        Ok(())
    }

    fn send(&mut self, from: Machine, to: Machine, body: Body) -> Result<(), AllocError> {
        let message = self.post.send(from, to, body)?;
        self.see(Event::Sent(message))
    }
}

#[derive(Drop)]
pub struct Stage {
    servers: u8,
    // Each place of the bucket as its server knows it, by rising numbers.
    places: Vec<Place>,
    sessions: Sessions,
    notices: Vec<Notice>,
    balancers: Vec<Balancer>,
    chain: Chain,
    traffic: Traffic,
    // One for all machines.
    clock: Clock,
}

impl Stage {
    pub fn new(heap: Global, servers: u8, balancers: u8, room: u32) -> Result<Stage, Error> {
        let mut stage = Stage {
            servers,
            places: Vec::new(heap),
            sessions: Sessions::new(heap, room),
            notices: Vec::new(heap),
            balancers: Vec::new(heap),
            chain: Chain::new(0),
            traffic: Traffic {
                post: Post::new(heap),
                seen: Vec::new(heap),
            },
            clock: Clock::new(),
        };
        stage.reset(servers, balancers, room)?;
        Ok(stage)
    }

    // All begins anew: place 1 stands at server 0, and every balancer knows it.
    fn reset(&mut self, servers: u8, balancers: u8, room: u32) -> Result<(), Error>
        ensures { FaultChangesNothing result (machines self.old) (machines self.new) }
    {
        if servers == 0 {
            return Err(Error::Of(Fault::NoServer));
        }
        self.servers = servers;
        self.chain = Chain::new(0);
        self.places.clear();
        self.sessions.reset(room);
        self.notices.clear();
        self.traffic.post.clear();
        self.clock = Clock::new();
        let first = self.chain.newest();
        self.places.push(Place {
            link: first,
            standing: Standing::Stands {
                before: None,
                after: None,
            },
        })?;
        self.add_balancers(balancers, first)?;
        Ok(())
    }

    fn add_balancers(&mut self, balancers: u8, first: Link) -> Result<(), AllocError> {
        self.balancers.clear();
        for _ in 0..balancers {
            self.balancers.push(Balancer {
                known: first,
                telling: None,
            })?;
        }
        Ok(())
    }

    pub fn seen(&self) -> &[Event] {
        self.traffic.seen.as_slice()
    }

    pub fn chain(&self) -> &Chain {
        &self.chain
    }

    pub fn places(&self) -> &[Place] {
        self.places.as_slice()
    }

    pub fn sessions(&self) -> &Sessions {
        &self.sessions
    }

    pub fn balancers(&self) -> &[Balancer] {
        self.balancers.as_slice()
    }

    pub fn post(&self) -> &Post {
        &self.traffic.post
    }

    // One command. A fault has changed nothing.
    pub fn play(&mut self, command: Command) -> Result<(), Error>
        ensures { FaultChangesNothing result (machines self.old) (machines self.new) }
    {
        self.traffic.seen.clear();
        match command {
            Command::Packet {
                balancer,
                flow,
                opens,
            } => self.packet_comes(balancer, flow, opens)?,
            Command::Change { server } => self.change(server)?,
            Command::Close { flow } => self.close(flow)?,
            Command::Forget => self.forget()?,
            Command::Say => self.say_again()?,
            Command::Deliver { number } => self.deliver(number)?,
            Command::Lose { number } => self.lose(number)?,
            Command::Repeat { number } => self.repeat(number)?,
            Command::Next => self.next()?,
            Command::All => self.all()?,
            Command::Ticks { count } => self.pass(count)?,
            Command::Reset {
                servers,
                balancers,
                room,
            } => self.reset(servers, balancers, room)?,
            Command::Nothing
            | Command::Title
            | Command::Show
            | Command::Bytes { .. }
            | Command::Buckets { .. }
            | Command::Servers
            | Command::Add { .. }
            | Command::Remove { .. } => {}
        }
        Ok(())
    }

    // A packet comes by a balancer, which sends it to the place that it knows, up.
    fn packet_comes(&mut self, balancer: u8, flow: FlowKey, opens: bool) -> Result<(), Error>
        ensures { FaultChangesNothing result (machines self.old) (machines self.new) }
    {
        let sender = self
            .balancers
            .get(usize::from(balancer))
            .copied()
            .ok_or(Fault::NoSuch)?;
        let at = sender.known;
        let packet = Packet {
            flow,
            opens,
            at,
            way: Way::Up,
        };
        self.traffic.send(
            Machine::Balancer(balancer),
            Machine::Server(at.server),
            Body::Packet(packet),
        )?;
        Ok(())
    }

    fn close(&mut self, flow: FlowKey) -> Result<(), AllocError> {
        match self.sessions.close(flow) {
            Some(at) => self.traffic.see(Event::Closed { at, flow }),
            None => self.traffic.see(Event::NotOpen),
        }
    }

    fn deliver(&mut self, number: u32) -> Result<(), Error>
        ensures { FaultChangesNothing result (machines self.old) (machines self.new) }
    {
        let message = self.traffic.post.take(number).ok_or(Fault::NoSuch)?;
        self.handle(message)?;
        Ok(())
    }

    fn next(&mut self) -> Result<(), Error>
        ensures { FaultChangesNothing result (machines self.old) (machines self.new) }
    {
        let message = self.traffic.post.take_oldest().ok_or(Fault::NoSuch)?;
        self.handle(message)?;
        Ok(())
    }

    fn lose(&mut self, number: u32) -> Result<(), Error>
        ensures { FaultChangesNothing result (machines self.old) (machines self.new) }
    {
        let message = self.traffic.post.take(number).ok_or(Fault::NoSuch)?;
        self.traffic.see(Event::Lost(message))?;
        Ok(())
    }

    fn repeat(&mut self, number: u32) -> Result<(), Error>
        ensures { FaultChangesNothing result (machines self.old) (machines self.new) }
    {
        let message = self.traffic.post.find(number).ok_or(Fault::NoSuch)?;
        self.traffic.send(message.from, message.to, message.body)?;
        Ok(())
    }

    // Oldest first, until nothing is on its way.
    fn all(&mut self) -> Result<(), AllocError> {
        for _ in 0..MOST_HANDLED {
            let Some(message) = self.traffic.post.take_oldest() else {
                return Ok(());
            };
            self.handle(message)?;
        }
        Ok(())
    }

    // Ticks pass, and every session without a packet for an hour is closed.
    fn pass(&mut self, count: u32) -> Result<(), Error>
        ensures { FaultChangesNothing result (machines self.old) (machines self.new) }
    {
        let clock = self.clock.advanced(count).ok_or(Fault::NoSuch)?;
        self.clock = clock;
        self.close_idle(clock.now())?;
        Ok(())
    }

    fn close_idle(&mut self, tick: u64) -> Result<(), AllocError> {
        for _ in 0..self.sessions.as_slice().len() {
            let Some(session) = self.sessions.first_idle(tick) else {
                return Ok(());
            };
            self.sessions.close(session.flow);
            self.traffic.see(Event::Idle {
                at: session.at,
                flow: session.flow,
            })?;
        }
        Ok(())
    }

    fn handle(&mut self, message: Message) -> Result<(), AllocError> {
        self.traffic.see(Event::Handled(message))?;
        match message.to {
            Machine::Controller => self.at_controller(message),
            Machine::Server(server) => self.at_server(server, message),
            Machine::Balancer(balancer) => self.at_balancer(balancer, message),
        }
    }

    // What nobody has answered yet is said again.
    fn say_again(&mut self) -> Result<(), AllocError> {
        self.controller_says()?;
        self.servers_say()
    }
}
