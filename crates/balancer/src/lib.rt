// A balancer: it sends each packet to the highest place that it heard of, and keeps nothing of packets or sessions.
#![tactic(auto)]

pub mod dispatch;
pub mod hear;
pub mod known;
pub mod start;
pub mod step;

ghost use Rattle.std.specs.Prelude.{◌≡◌, vec_len};

use chain::way::Link;
use flow::buckets::Buckets;

// For each bucket the link of the highest place that it heard of.
#[derive(Drop)]
pub struct Balancer {
    buckets: Buckets,
    links: Vec<Link>,
    ghost one_each: { vec_len links ≡ buckets.count },
}

// The newest place of a bucket, as it is told.
#[derive(Clone, Copy, PartialEq, Eq, Debug)]
pub struct News {
    pub bucket: u16,
    pub newest: Link,
}
