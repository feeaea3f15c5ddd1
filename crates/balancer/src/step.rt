// What a balancer does with bytes, whoever hands them over.
ghost use Rattle.std.specs.Prelude.{◌≡◌, is_ok, if◌then◌else◌};
ghost use Rattle.edge.specs.Posts.{mails_of, Sends, Does};
ghost use Rattle.balancer.specs.Rules.{links_of, knows_all};
ghost use Rattle.balancer.specs.Bytes.{sends_on, is_told, is_said, hears_bytes, news_in};

use crate::Balancer;
use chain::way::Link;
use edge::post::Post;
use edge::refuse::{refuse, refuse_for};
use edge::sort::{Role, Sorted, sort};
use fault::{Error, Fault};
use machine::name::Machine;
use wire::message::{Control, Message};

impl Balancer {
    // A packet from outside goes to the server of the place that is known of its bucket, or back.
    fn send_on(&self, packet: &[u8], out: &mut Post) -> Result<(), Error>
        ensures { Sends (sends_on self.now.buckets.count (links_of self.now) packet.now) result (mails_of out.old) (mails_of out.new) }
    {
        let mut bytes = Vec::new(out.heap());
        match self.dispatch(packet, &mut bytes) {
            Ok(server) => out.add(Machine::Server(server), bytes),
            Err(error) => refuse_for(Machine::Client, error, packet, out),
        }
    }

    // News are answered, or refused. The answer is posted first: where memory is short, nothing has changed.
    fn learn(
        &mut self,
        from: Machine,
        bucket: u16,
        newest: Link,
        bytes: &[u8],
        out: &mut Post,
    ) -> Result<(), Error>
        ensures does { Does (is_told from bucket newest bytes.now (links_of self.old)) result (links_of self.old) (links_of self.new) (mails_of out.old) (mails_of out.new) }
        ensures buckets { self.new.buckets ≡ self.old.buckets }
    {
        let start = out.len();
        out.put(from, Message::Answer(Control::Door { bucket, newest }))?;
        if let Err(fault) = self.told(bucket, newest) {
            out.truncate(start);
            return refuse(from, fault, bytes, out);
        }
        Ok(())
    }

    // Of the messages about places only news of a newest place are for a balancer.
    fn told_by(
        &mut self,
        from: Machine,
        control: Control,
        bytes: &[u8],
        out: &mut Post,
    ) -> Result<(), Error>
        ensures does { Does (is_said from control bytes.now (links_of self.old)) result (links_of self.old) (links_of self.new) (mails_of out.old) (mails_of out.new) }
        ensures buckets { self.new.buckets ≡ self.old.buckets }
    {
        match control {
            Control::Door { bucket, newest } => self.learn(from, bucket, newest, bytes, out),
            _ => refuse(from, Fault::Malformed, bytes, out),
        }
    }

    // Whatever bytes come: what is sent, and what is known then. Nothing but news of newest places changes what it knows.
    pub fn hear(&mut self, from: Machine, bytes: &[u8], out: &mut Post) -> Result<(), Error>
        ensures does { Does (hears_bytes self.old.buckets.count from bytes.now (links_of self.old)) result (links_of self.old) (links_of self.new) (mails_of out.old) (mails_of out.new) }
        ensures news { links_of self.new ≡ (if is_ok result then knows_all (links_of self.old) (news_in self.old.buckets.count from bytes.now) else links_of self.old) }
        ensures buckets { self.new.buckets ≡ self.old.buckets }
    {
        match sort(Role::Balancer, from, bytes, self.buckets) {
            Sorted::Outside => self.send_on(bytes, out),
            Sorted::Told(control) => self.told_by(from, control, bytes, out),
            Sorted::Packet { .. } => refuse(from, Fault::Malformed, bytes, out),
            Sorted::Heard(_) | Sorted::Order(_) => Ok(()),
            Sorted::Refuse(unread) => refuse(from, unread.fault, bytes, out),
        }
    }
}
