// The type alone: its ghost field imports each `ghost use` of the file, so the methods stand beside it.
ghost use Rattle.std.specs.Prelude.{◌≡◌, vec_len};
ghost use Rattle.assignment.specs.Even.{Numbered};
ghost use Rattle.roster.specs.Rosters.{assignment_of};

use controller_bucket::kept::Bucket;
use flow::buckets::Buckets;
use roster::roster::Roster;
use sessions::clock::Clock;

pub mod answer;
pub mod message;
pub mod order;
pub mod report;
pub mod seen;
pub mod start;
pub mod state;
pub mod tick;

#[derive(Drop)]
pub struct Controller {
    buckets: Buckets,
    roster: Roster,
    // What it keeps of each bucket.
    charges: Vec<Bucket>,
    // Balancers have the numbers below this.
    balancers: u16,
    clock: Clock,
    // For each server the tick at which it last left a chain. On the heap: an array here would go along wherever the controller moves.
    parted: Vec<u64>,
    ghost one_each: { vec_len charges ≡ buckets.count },
    ghost each_server: { vec_len parted ≡ 256 },
    ghost numbered: { Numbered buckets.count (assignment_of roster) },
}
