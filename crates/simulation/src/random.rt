// Events of all kinds at random, from a seed, so that a run can be played again.
use crate::world::Simulation;
use fault::Error;
use flow::key::{FlowKey, Protocol};

// A small generator of numbers (xorshift of 32 bits), whose state is never 0.
#[derive(Clone, Copy)]
pub struct Dice {
    state: u32,
}

// As many flows take part.
const FLOWS: u32 = 64;

// Servers with lower numbers come and go.
const SERVERS: u32 = 8;

impl Dice {
    pub fn new(seed: u32) -> Dice {
        Dice { state: seed | 1 }
    }

    // A number below the bound; 0 where there is none.
    pub fn below(&mut self, bound: u32) -> u32 {
        let mut x = self.state;
        x ^= x << 13;
        x ^= x >> 17;
        x ^= x << 5;
        self.state = x;
        if bound == 0 { 0 } else { (x >> 3) % bound }
    }
}

fn flow_of(number: u32) -> FlowKey {
    FlowKey {
        src: 0x0a00_0000 | number,
        dst: 0x0a01_0101,
        sport: 4242,
        dport: 80,
        protocol: Protocol::Tcp,
    }
}

// A refused order changes nothing, and the run goes on.
fn unless_memory(answer: Result<(), Error>) -> Result<(), Error> {
    match answer {
        Err(Error::Memory) => Err(Error::Memory),
        _ => Ok(()),
    }
}

impl Simulation {
    // So many events. What is seen of each but the last is forgotten; the tally stays.
    pub fn random(&mut self, seed: u32, events: u32) -> Result<(), Error> {
        let mut dice = Dice::new(seed);
        for _ in 0..events {
            self.random_event(&mut dice)?;
        }
        Ok(())
    }

    fn random_event(&mut self, dice: &mut Dice) -> Result<(), Error> {
        match dice.below(1000) {
            0..=149 => self.random_packet(dice),
            150..=899 => self.random_letter(dice, |all, at| all.deliver_at(at)),
            900..=939 => self.random_letter(dice, |all, at| all.lose_at(at)),
            940..=969 => self.random_letter(dice, |all, at| all.repeat_at(at)),
            970..=984 => unless_memory(self.ticks(dice.below(20))),
            985..=994 => unless_memory(self.close(flow_of(dice.below(FLOWS)))),
            995..=996 => unless_memory(self.add((dice.below(SERVERS) & 0xff) as u8)),
            _ => unless_memory(self.remove((dice.below(SERVERS) & 0xff) as u8)),
        }
    }

    fn random_packet(&mut self, dice: &mut Dice) -> Result<(), Error> {
        let balancers = self.balancers.len().min(65535) as u32;
        let balancer = (dice.below(balancers) & 0xffff) as u16;
        let flow = flow_of(dice.below(FLOWS));
        let opens = dice.below(3) == 0;
        unless_memory(self.packet(balancer, flow, opens))
    }

    // A step with any of the letters.
    fn random_letter<S: FnOnce(&mut Simulation, usize) -> Result<(), Error>>(
        &mut self,
        dice: &mut Dice,
        step: S,
    ) -> Result<(), Error>
        requires { S.IsAlwaysCallable step }
    {
        self.traffic.seen.clear();
        let count = self.traffic.letters.len().min(1_000_000) as u32;
        unless_memory(step(self, dice.below(count) as usize))
    }
}
