// Ticks pass: what is not answered is said again.
ghost use Rattle.std.specs.Prelude.{◌≡◌, ◌≤◌, ◌++◌, map, length, take, MatchResult};
ghost use Rattle.machine.specs.Outboxes.{sent_of};
ghost use Rattle.controller_bucket.specs.Rules.{passed};
ghost use Rattle.controller_bucket.specs.Kept.{charge};
ghost use Rattle.controller.specs.Rules.{due_from, ticked};
ghost use Rattle.controller.specs.Kept.{ruling, Ticking};

use super::Controller;
use controller_bucket::kept::Bucket;
use fault::{Error, Fault};
use machine::outbox::Outbox;
use std::alloc::AllocError;

// Servers walk their buckets alike; a trait for both, with the state that each keeps as a ghost member, is longer than these loops.

// What is due of all buckets is said again. Where there is no memory, a part of it.
fn say_due(charges: &[Bucket], ticks: u32, out: &mut Outbox) -> Result<(), AllocError>
    requires { length charges.now ≤ 65536 }
    ensures { MatchResult result (λ _. sent_of out.new ≡ sent_of out.old ++ due_from 0 ticks (map charge charges.now)) (λ _. take (length (sent_of out.old)) (sent_of out.new) ≡ sent_of out.old) }
{
    for (bucket, charge) in (0..=u16::MAX).zip(charges.iter()) {
        charge.due(bucket, ticks, out)?;
    }
    Ok(())
}

fn pass(charges: &mut [Bucket], ticks: u32)
    ensures { map charge charges.new ≡ map (passed ticks) (map charge charges.old) }
{
    for charge in charges.iter_mut() {
        charge.passed(ticks);
    }
}

impl Controller {
    // So many ticks pass: what is due is said again. Refused where the clock's 64 bits do not hold the sum.
    pub fn ticks(&mut self, count: u32, out: &mut Outbox) -> Result<(), Error>
        ensures { Ticking (ticked count (ruling self.old)) count result (ruling self.old) (ruling self.new) (sent_of out.old) (sent_of out.new) }
    {
        let clock = self.clock.advanced(count).ok_or(Fault::NoSuch)?;
        let before = out.sent().len();
        if say_due(self.charges.as_slice(), count, out).is_err() {
            out.truncate(before);
            return Err(Error::Memory);
        }
        pass(self.charges.as_mut_slice(), count);
        self.clock = clock;
        Ok(())
    }
}
