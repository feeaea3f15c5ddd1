// How what the controller keeps of one bucket changes. Room for what is sent is made before: a clause says so and no type,
// since each message uses some of it up.
ghost use Rattle.std.specs.Prelude.{◌≡◌, ◌+◌, ◌<◌, ◌≤◌, ◌++◌, length, position, vec_len, ◌==◌};
ghost use Rattle.machine.specs.Outboxes.{sent_of, room_of};
ghost use Rattle.controller_bucket.specs.Rules.{charge_first, newest, oldest, put_off, begun, stood, told, without_balancer, heard, forgotten};
ghost use Rattle.controller_bucket.specs.Kept.{charge, Goes, Answers};

use super::Bucket;
use chain::handover::Handover;
use chain::kept::Chain;
use chain::way::Link;
use machine::name::Machine;
use machine::outbox::Outbox;
use machine::sent::{Note, Sent};
use std::alloc::Global;

impl Bucket {
    // At the start place 1 stands at one server, and every balancer knows it.
    pub fn new(heap: Global, server: u8) -> Bucket
        ensures { charge result ≡ charge_first server }
    {
        Bucket {
            chain: Chain::new(server),
            age: 0,
            untold: Vec::new(heap),
            untold_age: 0,
            reported: false,
        }
    }

    // The places kept, newest first.
    pub fn links(&self) -> &[Link]
        ensures { result.now ≡ (charge self.now).control.kept }
    {
        self.chain.links()
    }

    pub fn newest(&self) -> Link
        ensures { result ≡ newest (charge self.now) }
    {
        self.chain.newest()
    }

    pub fn oldest(&self) -> Link
        ensures { result ≡ oldest (charge self.now) }
    {
        let links = self.chain.links();
        links[links.len() - 1]
    }

    pub fn handover(&self) -> Handover
        ensures { result ≡ (charge self.now).control.handover }
    {
        self.chain.handover()
    }

    // The balancers that have not answered.
    pub fn untold(&self) -> &[u16]
        ensures { result.now ≡ (charge self.now).untold }
    {
        self.untold.as_slice()
    }

    // Ticks since the handover's message was last said.
    pub fn age(&self) -> u8
        ensures { result ≡ (charge self.now).age }
    {
        self.age
    }

    // Ticks since the balancers were last told.
    pub fn untold_age(&self) -> u8
        ensures { result ≡ (charge self.now).untold_age }
    {
        self.untold_age
    }

    // Has the operator heard that the next handover is put off?
    pub fn is_put_off(&self) -> bool
        ensures { result ≡ (charge self.now).reported }
    {
        self.reported
    }

    // Where no handover is in progress and the newest place is not at the assigned server, one begins there, or is put off.
    // At most one message is sent.
    pub fn begun(&mut self, bucket: u16, server: u8, out: &mut Outbox)
        requires { 0 < room_of out.old }
        ensures goes { Goes (begun bucket server (charge self.old)) (charge self.new) (sent_of out.old) (sent_of out.new) }
        ensures room { room_of out.old ≤ room_of out.new + 1 }
    {
        let Handover::Idle = self.chain.handover() else {
            return;
        };
        if self.chain.newest().server == server {
            self.reported = false;
            return;
        }
        match self.chain.begin(server) {
            Ok(_) => {
                self.age = 0;
                self.reported = false;
                self.say_awaited(bucket, out);
            }
            Err(_) => self.put_off(bucket, out),
        }
    }

    // The operator hears once that a handover is put off.
    fn put_off(&mut self, bucket: u16, out: &mut Outbox)
        requires { 0 < room_of out.old }
        ensures goes { Goes (put_off bucket (charge self.old)) (charge self.new) (sent_of out.old) (sent_of out.new) }
        ensures room { room_of out.old ≤ room_of out.new + 1 }
    {
        if !self.reported {
            self.reported = true;
            out.put(Sent {
                to: Machine::Operator,
                note: Note::PutOff(bucket),
            });
        }
    }

    // A place answered that it stands: the newest is told of it, if that was waited for.
    pub fn stood(&mut self, bucket: u16, place: u32, out: &mut Outbox)
        requires { 0 < room_of out.old }
        ensures goes { Goes (stood bucket place (charge self.old)) (charge self.new) (sent_of out.old) (sent_of out.new) }
    {
        if self.chain.stood(place).is_some() {
            self.age = 0;
            self.say_awaited(bucket, out);
        }
    }

    // A place answered that it was told of the one after it: if that was waited for, the handover is done, every balancer
    // is told, and the next handover may begin.
    pub fn told(
        &mut self,
        bucket: u16,
        server: u8,
        balancers: Vec<u16>,
        place: u32,
        after: Link,
        out: &mut Outbox,
    )
        requires { vec_len balancers + 1 ≤ room_of out.old }
        ensures { Goes (told bucket server balancers.items place after (charge self.old)) (charge self.new) (sent_of out.old) (sent_of out.new) }
    {
        if !self.chain.told(place, after) {
            return;
        }
        self.age = 0;
        self.untold = balancers;
        self.untold_age = 0;
        self.say_doors(bucket, out);
        self.begun(bucket, server, out);
    }

    // A balancer answered that it heard of a place; an answer about an older place is late, and changes nothing.
    pub fn heard(&mut self, balancer: u16, link: Link)
        ensures { charge self.new ≡ heard balancer link (charge self.old) }
    {
        if link == self.chain.newest() {
            strike(&mut self.untold, balancer);
        }
    }

    // A place is forgotten: all up to it leave the chain, which may make room for a handover.
    // False where no newer place is kept: that is not answered, and nothing changes.
    pub fn forgotten(&mut self, bucket: u16, assigned: u8, place: u32, out: &mut Outbox) -> bool
        requires { 0 < room_of out.old }
        ensures { Answers (forgotten bucket assigned place (charge self.old)) result (charge self.old) (charge self.new) (sent_of out.old) (sent_of out.new) }
    {
        if !self.chain.forgotten(place) {
            return false;
        }
        self.begun(bucket, assigned, out);
        true
    }
}

// Where the balancer stands among those that have not answered.
fn position_of(untold: &[u16], balancer: u16) -> Option<usize>
    ensures { result ≡ position (λ d. balancer == d) untold.now }
{
    untold.iter().position(|other| balancer == *other)
}

// The balancer has answered.
fn strike(untold: &mut Vec<u16>, balancer: u16)
    ensures { untold.new.items ≡ without_balancer balancer untold.old.items }
{
    if let Some(i) = position_of(untold.as_slice(), balancer) {
        untold.remove(i);
    }
}
