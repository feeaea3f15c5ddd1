// How many buckets there may be.
ghost use Rattle.std.specs.Prelude.{◌≡◌};
ghost use Rattle.assignment.specs.Rule.{is_buckets};

use flow::buckets::Buckets;

// The bucket's number fits 16 bits.
pub(crate) const MOST: usize = 65536;

// May there be so many buckets as an assignment has entries?
pub fn is_buckets(buckets: usize) -> bool
    ensures { result ≡ is_buckets buckets }
{
    u32::try_from(buckets).is_ok_and(|count| Buckets::new(count).is_ok())
}
