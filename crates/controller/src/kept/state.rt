// What can be seen of the controller.
ghost use Rattle.std.specs.Prelude.{◌≡◌, ◌+◌, ◌||◌, nat_le};
ghost use Rattle.std.specs.List.{list_any};
ghost use Rattle.controller_bucket.specs.Kept.{charge};
ghost use Rattle.controller.specs.Rules.{is_among, goes_to, day, is_parted};
ghost use Rattle.controller.specs.Kept.{ruling, seen_bucket, bucket_at};

use super::Controller;
use chain::handover::Handover;
use chain::way::Link;
use controller_bucket::kept::Bucket;

// A day, in ticks of a 256th of a second.
const DAY: u64 = 22_118_400;

fn is_among(links: &[Link], server: u8) -> bool
    ensures { result ≡ is_among server links.now }
{
    links.iter().any(|link| link.server == server)
}

fn goes_to(handover: Handover, server: u8) -> bool
    ensures { result ≡ goes_to server handover }
{
    match handover {
        Handover::Idle => false,
        Handover::AwaitStood(link) | Handover::AwaitTold(link) => link.server == server,
    }
}

// Is the server in a bucket's chain, or will it be?
fn is_in(bucket: &Bucket, server: u8) -> bool
    ensures { result ≡ (is_among server (charge bucket.now).control.kept || goes_to server (charge bucket.now).control.handover) }
{
    is_among(bucket.links(), server) || goes_to(bucket.handover(), server)
}

fn is_in_chain(charges: &[Bucket], server: u8) -> bool
    ensures { result ≡ list_any (λ b. is_among server (charge b).control.kept || goes_to server (charge b).control.handover) charges.now }
{
    charges.iter().any(|bucket| is_in(bucket, server))
}

// Has a day passed since then?
fn is_day_past(then: u64, now: u64) -> bool
    ensures { result ≡ nat_le (then + day) now }
{
    then.checked_add(DAY).is_some_and(|end| end <= now)
}

impl Controller {
    // Those listed, rising.
    pub fn servers(&self) -> &[u8]
        ensures { result.now ≡ (ruling self.now).servers }
    {
        self.roster.servers()
    }

    // The server of each bucket.
    pub fn assignment(&self) -> &[u16]
        ensures { result.now ≡ (ruling self.now).assignment }
    {
        self.roster.assignment()
    }

    // What it keeps of a bucket: its chain, the handover in progress, who has not answered.
    pub fn bucket(&self, bucket: u16) -> Option<&Bucket>
        ensures { seen_bucket result ≡ bucket_at bucket (ruling self.now) }
    {
        self.charges.get(usize::from(bucket))
    }

    // A server that is not listed, and that no chain has had for a day, may be switched off.
    pub fn is_parted(&self, server: u8) -> bool
        ensures { result ≡ is_parted server (ruling self.now) }
    {
        !self.roster.servers().contains(&server)
            && !is_in_chain(self.charges.as_slice(), server)
            && is_day_past(self.parted[usize::from(server)], self.clock.now())
    }
}
