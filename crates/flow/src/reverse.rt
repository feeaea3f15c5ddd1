// The bits of a number end for end.
ghost use Rattle.std.specs.Prelude.{◌≡◌, ℕ, ◌-◌, ◌<◌};
ghost use Rattle.flow.specs.Mix.{reversed, bit};

// Neighbours change places: bits, then pairs, then fours, then the two bytes.
pub fn reverse_bits(x: u16) -> u16
    ensures value { result ≡ reversed x }
    ensures bits { (i : ℕ) → i < 16 → bit result i ≡ bit x (15 - i) }
{
    let x = ((x & 0x5555) << 1) | ((x >> 1) & 0x5555);
    let x = ((x & 0x3333) << 2) | ((x >> 2) & 0x3333);
    let x = ((x & 0x0f0f) << 4) | ((x >> 4) & 0x0f0f);
    (x << 8) | (x >> 8)
}
