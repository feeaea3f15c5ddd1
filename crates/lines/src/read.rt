// A line read: the machine that it names and the bytes, or the first fault.
ghost use Rattle.std.specs.Prelude.{◌≡◌};
ghost use Rattle.lines.specs.Lines.{bytes_in, line_in, Reads, ReadsLine};

use crate::hex::read_hex;
use crate::kept::Line;
use crate::name::read_machine;
use fault::{Error, Fault};
use std::alloc::Global;
use words::{after_space, split_word};

fn read_bytes(heap: Global, rest: &[u8]) -> Result<Vec<u8>, Error>
    ensures { Reads (bytes_in rest.now) result }
{
    let digits = after_space(rest).ok_or(Fault::Malformed)?;
    read_hex(heap, digits)
}

pub fn read_line(heap: Global, line: &[u8]) -> Result<Line, Error>
    ensures { ReadsLine (line_in line.now) result }
{
    let (word, rest) = split_word(line);
    let (machine, rest) = read_machine(word, rest)?;
    let bytes = read_bytes(heap, rest)?;
    Ok(Line { machine, bytes })
}
