// What the operator is shown: handovers that are put off, and servers that may be switched off.
ghost use Rattle.std.specs.Prelude.{◌≡◌, ◌≤◌, map, length, IfOk};
ghost use Rattle.controller_bucket.specs.Kept.{charge};
ghost use Rattle.controller.specs.Kept.{ruling};
ghost use Rattle.controller.specs.Status.{waiting_from, waiting, may_go, leaving};

use super::Controller;
use crate::status::Waiting;
use controller_bucket::kept::Bucket;
use std::alloc::{AllocError, Global};

fn put_off(heap: Global, charges: &[Bucket]) -> Result<Vec<Waiting>, AllocError>
    requires { length charges.now ≤ 65536 }
    ensures { IfOk result (λ v. v.items ≡ waiting_from 0 (map charge charges.now)) }
{
    let mut waiting = Vec::new(heap);
    for (bucket, charge) in (0..=u16::MAX).zip(charges.iter()) {
        if charge.is_put_off() {
            waiting.push(Waiting {
                bucket,
                oldest: charge.oldest(),
            })?;
        }
    }
    Ok(waiting)
}

impl Controller {
    // The handovers that are put off.
    pub fn waiting(&self, heap: Global) -> Result<Vec<Waiting>, AllocError>
        ensures { IfOk result (λ v. v.items ≡ waiting (ruling self.now)) }
    {
        put_off(heap, self.charges.as_slice())
    }

    // A server that left a chain, and that may be switched off?
    fn may_go(&self, server: u8) -> bool
        ensures { result ≡ may_go server (ruling self.now) }
    {
        self.parted[usize::from(server)] > 0 && self.is_parted(server)
    }

    // The servers that left a chain, and that may be switched off. By `filter` and `collect` it was tried: the proof did not close.
    pub fn leaving(&self, heap: Global) -> Result<Vec<u8>, AllocError>
        ensures { IfOk result (λ v. v.items ≡ leaving (ruling self.now)) }
    {
        let mut servers = Vec::new(heap);
        for server in u8::MIN..=u8::MAX {
            if self.may_go(server) {
                servers.push(server)?;
            }
        }
        Ok(servers)
    }
}
