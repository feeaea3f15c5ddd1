// The type alone: its ghost field imports each `ghost use` of the file, so the methods stand beside it.
ghost use Rattle.std.specs.Prelude.{◌≡◌, vec_len};

use flow::buckets::Buckets;
use server_bucket::kept::Bucket;
use sessions::clock::Clock;
use sessions::store::Sessions;

pub mod free;
pub mod orders;
pub mod packet;
pub mod seen;
pub mod standing;
pub mod start;
pub mod status;
pub mod ticks;
pub mod told;

#[derive(Drop)]
pub struct Server {
    number: u8,
    buckets: Buckets,
    // What it keeps of each bucket.
    held: Vec<Bucket>,
    sessions: Sessions,
    clock: Clock,
    // The tick at which a place of this server was last forgotten: since then it stands in one place less.
    stood: u64,
    ghost one_each: { vec_len held ≡ buckets.count },
}
