// The even assignment that changes the fewest buckets.
ghost use Rattle.std.specs.Prelude.{◌≡◌, ◌<◌, ◌≤◌, true, map, length, slice_index, OnOk};
ghost use Rattle.assignment.specs.Even.{Even, Fewest, Numbered};
ghost use Rattle.assignment.specs.Rule.{rises, dealt, rebalanced, answered};
ghost use Rattle.assignment.specs.Numbers.{kept_by, left_by};

use crate::buckets::is_buckets;
use crate::counts::{NONE, SERVERS, counts, server_of};
use crate::quota::{is_rising, quotas};
use fault::Fault;

// Each bucket whose server has quota left stays; the others have none. Quotas are by the number of the server, and counted down.
fn keep(assignment: &mut [u16], quota: &mut [usize; SERVERS])
    ensures after { assignment.new ≡ kept_by assignment.old quota.old }
    ensures left { quota.new ≡ left_by assignment.old quota.old }
{
    for entry in assignment.iter_mut() {
        match server_of(*entry) {
            Some(server) if quota[usize::from(server)] > 0 => quota[usize::from(server)] -= 1,
            _ => *entry = NONE,
        }
    }
}

// The buckets that have none, in rising order: each server takes the next ones until its quota is nothing. Nested loops left by a label are a rule of the project.
fn deal(assignment: &mut [u16], servers: &[u8], quota: &mut [usize; SERVERS])
    requires { rises servers.now ≡ true }
    ensures { assignment.new ≡ dealt servers.now assignment.old (map (λ s. slice_index quota.old s) servers.now) }
{
    let mut takers = servers;
    'buckets: for entry in assignment.iter_mut() {
        if *entry != NONE {
            continue;
        }
        while let [server, later @ ..] = takers {
            if quota[usize::from(*server)] > 0 {
                quota[usize::from(*server)] -= 1; // down to nothing
                *entry = u16::from(*server);
                continue 'buckets;
            }
            takers = later;
        }
        break;
    }
}

// The rule: quotas, then what stays, then what is dealt.
fn balance(assignment: &mut [u16], servers: &[u8])
    requires { (rises servers.now ≡ true) × ((0 < length servers.now) × (length assignment.old ≤ 65536)) }
    ensures { assignment.new ≡ rebalanced servers.now assignment.old }
{
    let mut quota = quotas(&counts(assignment), servers, assignment.len());
    keep(assignment, &mut quota);
    deal(assignment, servers, &mut quota);
}

// The servers of all buckets after servers were added or removed: even, with the fewest buckets changed. A refusal changes nothing.
pub fn rebalance(assignment: &mut [u16], servers: &[u8]) -> Result<(), Fault>
    ensures value { (result, assignment.new) ≡ answered servers.now assignment.old }
    ensures even { OnOk result (Even servers.now assignment.new) }
    ensures fewest { OnOk result (Fewest servers.now assignment.old assignment.new) }
    ensures numbered { OnOk result (Numbered (length assignment.old) assignment.new) }
{
    if !is_buckets(assignment.len()) {
        return Err(Fault::NoSuch);
    }
    if servers.is_empty() {
        return Err(Fault::NoServer);
    }
    if !is_rising(servers) {
        return Err(Fault::NoSuch);
    }
    balance(assignment, servers);
    Ok(())
}
