// The one's-complement sum of 16-bit words.
ghost use Rattle.std.specs.Prelude.{◌≡◌, ◌+◌};
ghost use Rattle.flow.specs.Mix.{folded, ones_sum, OnesSum};

// The carry out of 16 bits, added again.
fn fold(sum: u32) -> u32
    ensures { result ≡ folded sum }
{
    (sum & 0xffff) + (sum >> 16)
}

// The sum of four words, not complemented. The first fold can leave a carry of its own.
pub fn ones_sum(a: u16, b: u16, c: u16, d: u16) -> u16
    ensures value { result ≡ ones_sum (a + b + c + d) }
    ensures law { OnesSum (a + b + c + d) result }
{
    let sum = u32::from(a) + u32::from(b) + u32::from(c) + u32::from(d);
    fold(fold(sum)) as u16
}
