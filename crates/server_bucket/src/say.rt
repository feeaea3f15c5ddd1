// What is said of forgotten places.
ghost use Rattle.std.specs.Prelude.{◌≡◌, ◌+◌, ◌*◌, ◌≤◌, [], ◌∷◌, ◌++◌, length, if◌then◌else◌};
ghost use Rattle.machine.specs.Again.{is_due};
ghost use Rattle.machine.specs.Outboxes.{sent_of, room_of};
ghost use Rattle.server_bucket.specs.Rules.{says, tells, due_in, farewell_of};

use crate::farewell::Farewell;
use chain::way::Link;
use machine::again::is_due;
use machine::name::Machine;
use machine::outbox::Outbox;
use machine::sent::{Note, Sent};
use wire::message::Control;

impl Farewell {
    // Nobody has answered yet.
    pub fn new(place: u32, after: Link) -> Farewell
        ensures { result ≡ farewell_of place after }
    {
        Farewell {
            place,
            after,
            awaits_after: true,
            awaits_controller: true,
            age: 0,
        }
    }

    // To whoever has not answered yet; room was made for two.
    pub fn say(self, bucket: u16, out: &mut Outbox)
        requires { 2 ≤ room_of out.old }
        ensures items { sent_of out.new ≡ sent_of out.old ++ says bucket self }
        ensures room { room_of out.old ≤ room_of out.new + 2 }
    {
        let note = Note::Say(Control::Forgotten {
            bucket,
            place: self.place,
            after: self.after,
        });
        let after = Sent {
            to: Machine::Server(self.after.server),
            note,
        };
        let controller = Sent {
            to: Machine::Controller,
            note,
        };
        put_if(self.awaits_after, after, out);
        put_if(self.awaits_controller, controller, out);
    }
}

fn put_if(awaited: bool, sent: Sent, out: &mut Outbox)
    requires { 1 ≤ room_of out.old }
    ensures items { sent_of out.new ≡ sent_of out.old ++ (if awaited then sent ∷ [] else []) }
    ensures room { room_of out.old ≤ room_of out.new + 1 }
{
    if awaited {
        out.put(sent);
    }
}

// When a place is forgotten, with the place after it; room was made for what is told.
pub fn tell(bucket: u16, place: u32, gone: Option<Link>, out: &mut Outbox)
    requires { length (tells bucket place gone) ≤ room_of out.old }
    ensures items { sent_of out.new ≡ sent_of out.old ++ tells bucket place gone }
    ensures room { room_of out.old ≤ room_of out.new + 2 }
{
    if let Some(after) = gone {
        Farewell::new(place, after).say(bucket, out);
    }
}

// What is to be said again after so many ticks; room was made for two of each.
#[tactic(auto, unfolding(crate::specs::Rules::due_in))]
pub fn say_due(farewells: &[Farewell], bucket: u16, ticks: u32, out: &mut Outbox)
    requires { 2 * length farewells.now ≤ room_of out.old }
    ensures { sent_of out.new ≡ sent_of out.old ++ due_in bucket ticks farewells.now }
{
    for farewell in farewells {
        if is_due(farewell.age, ticks) {
            farewell.say(bucket, out);
        }
    }
}
