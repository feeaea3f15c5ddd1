// The buckets that sessions are spread over.
ghost use Rattle.std.specs.Prelude.{◌≡◌, ◌<◌, true, false, MatchResult};
ghost use Rattle.fault.specs.declared.Fault.TheVariants.{NoSuch};
ghost use Rattle.flow.specs.Buckets.{is_bucket_count, bucket_of, SameFields, Doubling};

use crate::key::FlowKey;
use crate::reverse::reverse_bits;
use crate::sum::ones_sum;
use fault::Fault;

// How many buckets there are: a power of two from 16 to 65,536.
#[derive(Clone, Copy, PartialEq, Eq, Debug)]
pub struct Buckets {
    count: u32,
    ghost ok: { is_bucket_count count ≡ true },
}

const FEWEST: u32 = 16;

const MOST: u32 = 65536;

impl Buckets {
    // That many buckets, or a refusal where it is not such a number.
    pub fn new(count: u32) -> Result<Buckets, Fault>
        ensures { MatchResult result (λ b. b.count ≡ count) (λ f. (f ≡ NoSuch) × (is_bucket_count count ≡ false)) }
    {
        if count < FEWEST || count > MOST || !count.is_power_of_two() {
            return Err(Fault::NoSuch);
        }
        Ok(Buckets { count })
    }

    pub fn count(self) -> u32
        ensures { result ≡ self.count }
    {
        self.count
    }
}

impl FlowKey {
    // The bucket of a session: what its client sends from decides it, so that a client's bucket does not depend on the service.
    pub fn bucket(self, buckets: Buckets) -> u16
        ensures value { result ≡ bucket_of self buckets.count }
        ensures below { result < buckets.count }
    {
        let sum = ones_sum(
            (self.src >> 16) as u16,
            (self.src & 0xffff) as u16,
            self.sport,
            u16::from(u8::from(self.protocol)),
        );
        (u32::from(reverse_bits(sum)) % buckets.count) as u16
    }
}

// The bucket depends on source address, source port and protocol alone; with twice as many buckets each is split in two.
pub fn bucket_laws()
    ensures fields { SameFields }
    ensures doubled { Doubling }
{}
