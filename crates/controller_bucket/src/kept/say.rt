// What is said about one bucket, and said again.
ghost use Rattle.std.specs.Prelude.{◌≡◌, ◌+◌, ◌<◌, ◌≤◌, ◌++◌, length, MatchResult};
ghost use Rattle.machine.specs.Outboxes.{sent_of, room_of};
ghost use Rattle.controller_bucket.specs.Rules.{awaited, doors, due, passed};
ghost use Rattle.controller_bucket.specs.Kept.{charge, listed};

use super::Bucket;
use chain::handover::Handover;
use machine::again::{aged, is_due};
use machine::name::Machine;
use machine::outbox::Outbox;
use machine::sent::{Note, Sent};
use std::alloc::AllocError;
use wire::message::Control;

impl Bucket {
    // The message that the handover waits to hear the answer of.
    fn awaited(&self, bucket: u16) -> Option<Sent>
        ensures { listed result ≡ awaited bucket (charge self.now) }
    {
        let newest = self.chain.newest();
        match self.chain.handover() {
            Handover::Idle => None,
            Handover::AwaitStood(link) => Some(Sent {
                to: Machine::Server(link.server),
                note: Note::Say(Control::Stand {
                    bucket,
                    place: link.place,
                    before: Some(newest),
                }),
            }),
            Handover::AwaitTold(link) => Some(Sent {
                to: Machine::Server(newest.server),
                note: Note::Say(Control::Behind {
                    bucket,
                    place: newest.place,
                    after: link,
                }),
            }),
        }
    }

    // It is said.
    pub(crate) fn say_awaited(&self, bucket: u16, out: &mut Outbox)
        requires { 0 < room_of out.old }
        ensures sent { sent_of out.new ≡ sent_of out.old ++ awaited bucket (charge self.now) }
        ensures room { room_of out.old ≤ room_of out.new + 1 }
    {
        if let Some(sent) = self.awaited(bucket) {
            out.put(sent);
        }
    }

    // Each balancer that has not answered is told of the newest place.
    pub(crate) fn say_doors(&self, bucket: u16, out: &mut Outbox)
        requires { length (charge self.now).untold ≤ room_of out.old }
        ensures sent { sent_of out.new ≡ sent_of out.old ++ doors bucket (charge self.now) }
        ensures room { room_of out.old ≤ room_of out.new + length (charge self.now).untold }
    {
        let newest = self.chain.newest();
        for &balancer in &self.untold {
            out.put(Sent {
                to: Machine::Balancer(balancer),
                note: Note::Say(Control::Door { bucket, newest }),
            });
        }
    }

    // What has not been answered for sixteen ticks is said again. Where there is no memory, nothing is said.
    pub fn due(&self, bucket: u16, ticks: u32, out: &mut Outbox) -> Result<(), AllocError>
        ensures { MatchResult result (λ _. sent_of out.new ≡ sent_of out.old ++ due bucket ticks (charge self.now)) (λ _. sent_of out.new ≡ sent_of out.old) }
    {
        out.make_room(self.untold.len() + 1)?;
        if is_due(self.age, ticks) {
            self.say_awaited(bucket, out);
        }
        if is_due(self.untold_age, ticks) {
            self.say_doors(bucket, out);
        }
        Ok(())
    }

    // So many ticks pass.
    pub fn passed(&mut self, ticks: u32)
        ensures { charge self.new ≡ passed ticks (charge self.old) }
    {
        self.age = aged(self.age, ticks);
        self.untold_age = aged(self.untold_age, ticks);
    }
}
