// What a server is told by other machines, and what they answer.
ghost use Rattle.std.specs.Prelude.{◌≡◌};
ghost use Rattle.sessions.specs.Model.{entries_of};
ghost use Rattle.machine.specs.Outboxes.{sent_of};
ghost use Rattle.machine.specs.Steps.{Did};
ghost use Rattle.server.specs.Kept.{keeping, sessions_of, left, Alters};
ghost use Rattle.server.specs.Rules.{told, room_for, heard, is_empty};

use super::Server;
use chain::way::Link;
use fault::{Error, Fault};
use machine::name::Machine;
use machine::outbox::Outbox;
use machine::sent::{Note, Sent};
use server_bucket::say::tell;
use sessions::store::Sessions;
use wire::message::Control;

impl Server {
    // Told by a machine: it answers, and tells of a place that is forgotten by that. A fault and want of memory change nothing.
    pub fn told(&mut self, from: Machine, control: Control, out: &mut Outbox) -> Result<(), Error>
        ensures did { Did (told from control (keeping self.old) (sessions_of self.old)) result (keeping self.old) (keeping self.new) (sent_of out.old) (sent_of out.new) }
        ensures sessions { sessions_of self.new ≡ sessions_of self.old }
    {
        // Room is made first, since a step that has begun comes to its end.
        out.make_room(self.room_for(control)?)?;
        let (place, gone) = self.change(control)?;
        self.leave(gone);
        out.put(Sent {
            to: from,
            note: Note::Answer(control),
        });
        tell(control.bucket(), place, gone, out);
        Ok(())
    }

    // How many messages it may send. What is refused without a look at a bucket is refused here, where it takes no memory.
    fn room_for(&self, control: Control) -> Result<usize, Fault>
        ensures { result ≡ room_for control (keeping self.now) }
    {
        if usize::from(control.bucket()) >= self.held.len() {
            return Err(Fault::NoSuch);
        }
        match control {
            Control::Stand { .. } => Ok(1),
            // The answer, and the news of a forgotten place to two machines.
            Control::Behind { .. } => Ok(3),
            Control::Door { .. } => Err(Fault::Malformed),
            Control::Forgotten { after, .. } if after.server == self.number => Ok(3),
            Control::Forgotten { .. } => Err(Fault::UnknownPlace),
        }
    }

    // What a message changes: the place that may be forgotten by it, and if it is, the place after it.
    fn change(&mut self, control: Control) -> Result<(u32, Option<Link>), Fault>
        ensures alters { Alters control (sessions_of self.old) result (keeping self.old) (keeping self.new) }
        ensures sessions { sessions_of self.new ≡ sessions_of self.old }
    {
        let bucket = control.bucket();
        let Some(held) = self.held.get_mut(usize::from(bucket)) else {
            return Err(Fault::NoSuch);
        };
        match control {
            Control::Stand { place, before, .. } => {
                let link = Link {
                    place,
                    server: self.number,
                };
                held.stand(link, before)?;
                Ok((place, None))
            }
            Control::Behind { place, after, .. } => {
                let empty = is_empty(&self.sessions, bucket, place);
                let gone = held.behind(place, after, empty)?;
                Ok((place, gone))
            }
            Control::Door { .. } => Err(Fault::Malformed),
            // The place after one that is forgotten is told; it must be this server's.
            Control::Forgotten { after, .. } if after.server != self.number => {
                Err(Fault::UnknownPlace)
            }
            Control::Forgotten { place, after, .. } => {
                let empty = is_empty(&self.sessions, bucket, after.place);
                let gone = held.freed(after.place, place, empty)?;
                Ok((after.place, gone))
            }
        }
    }

    // A place may have been forgotten: then this is when.
    pub(super) fn leave(&mut self, gone: Option<Link>)
        ensures kept { keeping self.new ≡ left gone (keeping self.old) }
        ensures sessions { sessions_of self.new ≡ sessions_of self.old }
        ensures buckets { self.new.held ≡ self.old.held }
    {
        if gone.is_some() {
            self.stood = self.clock.now();
        }
    }

    // Answered by a machine. What fits nothing is ignored.
    pub fn heard(&mut self, from: Machine, control: Control)
        ensures kept { keeping self.new ≡ heard from control (keeping self.old) }
        ensures sessions { sessions_of self.new ≡ sessions_of self.old }
    {
        let Control::Forgotten {
            bucket,
            place,
            after,
        } = control
        else {
            return;
        };
        if let Some(held) = self.held.get_mut(usize::from(bucket)) {
            held.answered(place, after, from);
        }
    }
}

// No session is open in the place.
pub(super) fn is_empty(sessions: &Sessions, bucket: u16, place: u32) -> bool
    ensures { result ≡ is_empty bucket place (entries_of sessions.now) }
{
    sessions.count_at(bucket, place) == 0
}
