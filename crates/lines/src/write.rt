// A line written: the machine that gets the bytes, and the bytes.
ghost use Rattle.std.specs.Prelude.{◌≡◌, ◌<◌, ◌++◌, IfOk, OnOk, vec_len, vec_capacity};
ghost use Rattle.lines.specs.Lines.{hex_of, hex_text, line_text, packet_text};

use machine::name::Machine;
use std::alloc::{AllocError, Global};

// The digit of a number below 16.
fn hex_digit(d: u8) -> u8
    requires { d < 16 }
    ensures { result ≡ hex_of d }
{
    if d < 10 { b'0' + d } else { b'a' + d - 10 }
}

// Both digits at once, and not by `write!`: most of the time of a line goes here.
fn push_hex(bytes: &[u8], out: &mut Vec<u8>) -> Result<(), AllocError>
    ensures items { OnOk result (out.new.items ≡ out.old.items ++ hex_text bytes.now) }
    ensures room { OnOk result (vec_len out.new < vec_capacity out.new) }
{
    // One more for the line's end: without room for it, whoever prints the text would ask for twice the memory.
    out.reserve(bytes.len() * 2 + 1)?;
    for byte in bytes {
        out.extend_from_slice(&[hex_digit(*byte / 16), hex_digit(*byte % 16)])?;
    }
    Ok(())
}

pub fn line_text(heap: Global, machine: Machine, bytes: &[u8]) -> Result<Vec<u8>, AllocError>
    ensures text { IfOk result (λ v. v.items ≡ line_text machine bytes.now) }
    ensures room { IfOk result (λ v. vec_len v < vec_capacity v) }
{
    let mut text = format!(in heap; "{machine} ")?.into_bytes();
    push_hex(bytes, &mut text)?;
    Ok(text)
}

// A packet that is given to its session.
pub fn packet_text(heap: Global, packet: &[u8]) -> Result<Vec<u8>, AllocError>
    ensures text { IfOk result (λ v. v.items ≡ packet_text packet.now) }
    ensures room { IfOk result (λ v. vec_len v < vec_capacity v) }
{
    let mut text = Vec::from_slice(heap, b"table ")?;
    push_hex(packet, &mut text)?;
    Ok(text)
}
