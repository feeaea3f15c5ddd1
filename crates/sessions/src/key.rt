// A session at a place of a bucket.
ghost use Rattle.std.specs.Prelude.{◌≡◌, ◌<◌};
ghost use Rattle.sessions.specs.Keys.{slot_of, weigh};

use flow::key::FlowKey;

#[derive(Clone, Copy, PartialEq, Eq, Debug)]
pub struct Key {
    pub bucket: u16,
    pub place: u32,
    pub flow: FlowKey,
}

impl Key {
    // The bucket as an index.
    pub fn bucket_index(&self) -> usize
        ensures value { result ≡ self.now.bucket }
        ensures bound { result < 65536 }
    {
        usize::from(self.bucket)
    }

    // Its slot by a hash of all of it: the fields weighed by odd numbers of 64 bits, and the sum's highest 16 bits.
    pub fn slot(&self) -> usize
        ensures { result ≡ slot_of self.now }
    {
        let ports = u64::from(self.flow.sport) * 65536 + u64::from(self.flow.dport);
        let rest = u64::from(self.bucket) * 256 + u64::from(u8::from(self.flow.protocol));
        let sum = weighed(u64::from(self.flow.src), 0x9e37_79b9_7f4a_7c15, 0);
        let sum = weighed(u64::from(self.flow.dst), 0xc2b2_ae3d_27d4_eb4f, sum);
        let sum = weighed(ports, 0xd6e8_feb8_6659_fd93, sum);
        let sum = weighed(u64::from(self.place), 0xa076_1d64_78bd_642f, sum);
        let sum = weighed(rest, 0xe703_7ed1_a0b4_28db, sum);
        (sum >> 48) as usize
    }
}

fn weighed(part: u64, weight: u64, sum: u64) -> u64
    ensures { result ≡ weigh part weight sum }
{
    part.wrapping_mul(weight).wrapping_add(sum)
}
