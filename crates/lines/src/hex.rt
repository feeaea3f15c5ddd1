// Bytes read from hex, two digits each.
ghost use Rattle.std.specs.Prelude.{◌≡◌, ◌<◌, [], ok_or, IfOk};
ghost use Rattle.fault.specs.declared.Fault.TheVariants.{Malformed};
ghost use Rattle.lines.specs.Lines.{hex_digit, byte_in, bytes_from, Reads};

use fault::{Error, Fault};
use std::alloc::Global;

// Read here and not by the library `hex`, since an edit that reads another digit has to be refused.
fn digit(c: u8) -> Result<u8, Fault>
    ensures value { result ≡ ok_or (hex_digit c) Malformed }
    ensures below { IfOk result (λ d. d < 16) }
{
    match c {
        b'0'..=b'9' => Ok(c - b'0'),
        b'a'..=b'f' => Ok(c - b'a' + 10),
        b'A'..=b'F' => Ok(c - b'A' + 10),
        _ => Err(Fault::Malformed),
    }
}

fn byte(digits: &[u8]) -> Result<u8, Fault>
    ensures { result ≡ byte_in digits.now }
{
    let [high, low] = digits else {
        return Err(Fault::Malformed);
    };
    Ok(digit(*high)? * 16 + digit(*low)?)
}

pub fn read_hex(heap: Global, digits: &[u8]) -> Result<Vec<u8>, Error>
    ensures { Reads (bytes_from [] digits.now) result }
{
    let mut bytes = Vec::new(heap);
    for pair in digits.chunks(2) {
        bytes.push(byte(pair)?)?;
    }
    Ok(bytes)
}
