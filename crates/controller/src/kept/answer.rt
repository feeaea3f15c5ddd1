// What the controller hears as an answer. What fits nothing is ignored.
ghost use Rattle.std.specs.Prelude.{◌≡◌, IfOk, Ok, vec_len};
ghost use Rattle.machine.specs.Outboxes.{sent_of};
ghost use Rattle.machine.specs.Steps.{Did};
ghost use Rattle.controller.specs.Rules.{up_from, heard};
ghost use Rattle.controller.specs.Kept.{ruling};

use super::Controller;
use crate::kept::start::server_at;
use fault::Error;
use machine::name::Machine;
use machine::outbox::Outbox;
use std::alloc::{AllocError, Global};
use wire::message::Control;

// The numbers of so many balancers.
fn all_balancers(heap: Global, count: u16) -> Result<Vec<u16>, AllocError>
    ensures { IfOk result (λ v. (v.items ≡ up_from 0 count) × (vec_len v ≡ count)) }
{
    // Not `collect`: of a bare range the proof of what it holds did not close.
    let mut balancers = Vec::new(heap);
    for balancer in 0..count {
        balancers.push(balancer)?;
    }
    Ok(balancers)
}

impl Controller {
    // Answered by a machine. Want of memory changes nothing.
    pub fn heard(
        &mut self,
        heap: Global,
        from: Machine,
        control: Control,
        out: &mut Outbox,
    ) -> Result<(), Error>
        ensures { Did (Ok (heard from control (ruling self.old))) result (ruling self.old) (ruling self.new) (sent_of out.old) (sent_of out.new) }
    {
        let bucket = control.bucket();
        let Some(charge) = self.charges.get_mut(usize::from(bucket)) else {
            return Ok(());
        };
        match control {
            Control::Stand { place, .. } => {
                out.make_room(1)?;
                charge.stood(bucket, place, out);
            }
            Control::Behind { place, after, .. } => {
                let balancers = all_balancers(heap, self.balancers)?;
                out.make_room(balancers.len() + 1)?;
                let assigned = server_at(self.roster.assignment(), bucket);
                charge.told(bucket, assigned, balancers, place, after, out);
            }
            Control::Door { newest, .. } => {
                if let Machine::Balancer(balancer) = from {
                    charge.heard(balancer, newest);
                }
            }
            Control::Forgotten { .. } => {}
        }
        Ok(())
    }
}
