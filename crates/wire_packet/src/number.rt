// Numbers in front of a slice, high byte first.
ghost use Rattle.std.specs.Prelude.{◌≡◌, ℕ, refl};
ghost use Rattle.wire.specs.Format.{Width, one, two, four, size, value, number_in};
ghost use Rattle.wire_packet.specs.Views.{shown};

use fault::Fault;

// A number that is a field of messages: N bytes.
pub trait Number<const N: usize>: Copy {
    // The width of its field.
    ghost width: { Width };

    // The number that a value is.
    ghost number: { Self → ℕ };

    fn from_bytes(bytes: [u8; N]) -> Self
        ensures { number result ≡ value width bytes.entry };

    ghost sized: { size width ≡ N };

    // The number in front, and the bytes behind it.
    final fn split(bytes: &[u8]) -> Result<(Self, &[u8]), Fault>
        ensures { shown number result ≡ number_in width bytes.now }
    {
        let Some((front, rest)) = bytes.split_first_chunk::<N>() else {
            return Err(Fault::Malformed);
        };
        Ok((Self::from_bytes(*front), rest))
    }
}

impl Number<1> for u8 {
    ghost width = { one };

    ghost number = { λ n. n };

    ghost sized = { refl };

    fn from_bytes(bytes: [u8; 1]) -> u8
        ensures { result ≡ value one bytes }
    {
        u8::from_be_bytes(bytes)
    }
}

impl Number<2> for u16 {
    ghost width = { two };

    ghost number = { λ n. n };

    ghost sized = { refl };

    fn from_bytes(bytes: [u8; 2]) -> u16
        ensures { result ≡ value two bytes }
    {
        u16::from_be_bytes(bytes)
    }
}

impl Number<4> for u32 {
    ghost width = { four };

    ghost number = { λ n. n };

    ghost sized = { refl };

    fn from_bytes(bytes: [u8; 4]) -> u32
        ensures { result ≡ value four bytes }
    {
        u32::from_be_bytes(bytes)
    }
}
