// The open sessions of a server, by place.
ghost use Rattle.std.specs.Prelude.{◌≡◌, ◌++◌, IfOk, OnOk};
ghost use Rattle.sessions.specs.Model.{entries_of};
ghost use Rattle.server.specs.Kept.{keeping, sessions_of};
ghost use Rattle.server.specs.Status.{busy_at, busy_in, busy_from};

use super::Server;
use crate::busy::Busy;
use chain::place::Place;
use sessions::store::Sessions;
use std::alloc::{AllocError, Global};

impl Server {
    // How many sessions are open in each place where any is: the buckets in rising order, in one bucket the newest place first.
    pub fn status(&self, heap: Global) -> Result<Vec<Busy>, AllocError>
        ensures { IfOk result (λ v. v.items ≡ busy_from 0 (sessions_of self.now) (keeping self.now).holdings) }
    {
        let mut busy = Vec::new(heap);
        for (number, bucket) in (0..=u16::MAX).zip(self.held.iter()) {
            note_bucket(&self.sessions, number, bucket.standing(), &mut busy)?;
        }
        Ok(busy)
    }
}

fn note_bucket(
    sessions: &Sessions,
    bucket: u16,
    standing: &[Place],
    busy: &mut Vec<Busy>,
) -> Result<(), AllocError>
    ensures { OnOk result (busy.new.items ≡ busy.old.items ++ busy_in bucket (entries_of sessions.now) standing.now) }
{
    for place in standing {
        note(sessions, bucket, place.link.place, busy)?;
    }
    Ok(())
}

fn note(
    sessions: &Sessions,
    bucket: u16,
    place: u32,
    busy: &mut Vec<Busy>,
) -> Result<(), AllocError>
    ensures { OnOk result (busy.new.items ≡ busy.old.items ++ busy_at bucket place (entries_of sessions.now)) }
{
    let open = sessions.count_at(bucket, place);
    if open > 0 {
        busy.push(Busy {
            bucket,
            place,
            sessions: open,
        })?;
    }
    Ok(())
}
