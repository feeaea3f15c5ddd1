// How many buckets each server shall have.
ghost use Rattle.std.specs.Prelude.{◌≡◌, ℕ, ◌<◌, ◌≤◌, map, length, slice_index};
ghost use Rattle.assignment.specs.Even.{place};
ghost use Rattle.assignment.specs.Rule.{rises, ahead, rank, quota_of};

use crate::counts::SERVERS;

// Does each number of the list stand above the one before?
pub fn is_rising(servers: &[u8]) -> bool
    ensures { result ≡ rises servers.now }
{
    servers.is_sorted_by(|before, server| before < server)
}

// Does the other server come before this one? It has more buckets, or as many and a lower number.
fn is_ahead(counts: &[usize; SERVERS], other: u8, server: u8) -> bool
    ensures { result ≡ ahead (λ s. slice_index counts.now s) other server }
{
    let theirs = counts[usize::from(other)];
    let own = counts[usize::from(server)];
    theirs > own || theirs == own && other < server
}

// How many of the servers come before this one. A loop, since `filter` and `count` take twice its time.
fn ahead_of(counts: &[usize; SERVERS], servers: &[u8], server: u8) -> usize
    ensures { result ≡ rank (λ s. slice_index counts.now s) servers.now server }
{
    let mut before = 0;
    for other in servers {
        if is_ahead(counts, *other, server) {
            before += 1;
        }
    }
    before
}

// The quota of each server, by its number: an even part, and one more for those with most buckets as far as the rest goes.
// A server that is not listed has none.
pub(crate) fn quotas(counts: &[usize; SERVERS], servers: &[u8], buckets: usize) -> [usize; SERVERS]
    requires { (0 < length servers.now) × (buckets ≤ 65536) }
    ensures listed { map (λ s. slice_index result s) servers.now ≡ map (quota_of (λ s. slice_index counts.now s) servers.now buckets) servers.now }
    ensures others { (s : ℕ) → length servers.now ≤ place servers.now s → slice_index result s ≡ 0 }
{
    let part = buckets / servers.len();
    let rest = buckets % servers.len();
    let mut quota = [0; SERVERS];
    for server in servers {
        let more = usize::from(ahead_of(counts, servers, *server) < rest);
        quota[usize::from(*server)] = part + more;
    }
    quota
}
