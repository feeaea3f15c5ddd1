// What the controller is told: a place is forgotten.
ghost use Rattle.std.specs.Prelude.{◌≡◌, length};
ghost use Rattle.machine.specs.Outboxes.{sent_of};
ghost use Rattle.machine.specs.Steps.{Did};
ghost use Rattle.controller.specs.Rules.{parted_at, told};
ghost use Rattle.controller.specs.Kept.{ruling};

use super::Controller;
use crate::kept::start::server_at;
use chain::way::Link;
use fault::{Error, Fault};
use machine::name::Machine;
use machine::outbox::Outbox;
use machine::sent::{Note, Sent};
use wire::message::Control;

// The servers of the places up to this one left a chain at the tick.
fn part(parted: &mut [u64], links: &[Link], place: u32, tick: u64)
    requires { length parted.old ≡ 256 }
    ensures { parted.new ≡ parted_at tick place links.now parted.old }
{
    for link in links {
        if link.place <= place {
            parted[usize::from(link.server)] = tick;
        }
    }
}

impl Controller {
    // Told by a machine. A bucket that is not there and what is no message to a controller are refused.
    // All places up to the one told of leave the chain, and that is answered; but not where no newer one is kept.
    // A refusal and want of memory change nothing.
    pub fn told(&mut self, from: Machine, control: Control, out: &mut Outbox) -> Result<(), Error>
        ensures { Did (told from control (ruling self.old)) result (ruling self.old) (ruling self.new) (sent_of out.old) (sent_of out.new) }
    {
        let bucket = control.bucket();
        let charge = self
            .charges
            .get_mut(usize::from(bucket))
            .ok_or(Fault::NoSuch)?;
        let Control::Forgotten { place, .. } = control else {
            return Err(Error::Of(Fault::Malformed));
        };
        if place >= charge.newest().place {
            return Ok(());
        }
        out.make_room(2)?;
        part(
            self.parted.as_mut_slice(),
            charge.links(),
            place,
            self.clock.now(),
        );
        out.put(Sent {
            to: from,
            note: Note::Answer(control),
        });
        let assigned = server_at(self.roster.assignment(), bucket);
        charge.forgotten(bucket, assigned, place, out);
        Ok(())
    }
}
