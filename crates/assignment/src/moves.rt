// Which buckets change hands between two assignments.
ghost use Rattle.assignment.specs.Moves.{handed, Found};
ghost use Rattle.std.specs.Prelude.{◌≡◌, cond, nat_lt, None, IfOk, filter_map};
ghost use Rattle.std.specs.List.{enumerate_from, zip};

use crate::buckets::MOST;
use crate::counts::server_of;
use fault::{Error, Fault};
use std::alloc::{AllocError, Global};

// A bucket that goes from its old server, if it had one, to another.
#[derive(Clone, Copy, PartialEq, Eq, Debug)]
pub struct Move {
    pub bucket: u16,
    pub from: Option<u8>,
    pub to: u8,
}

// What becomes of one bucket: nothing where it stays, or has no server afterwards.
fn hand_over(bucket: usize, old: u16, new: u16) -> Option<Move>
    ensures { result ≡ cond (nat_lt bucket 65536) (handed bucket old new) None }
{
    if old == new {
        return None;
    }
    Some(Move {
        bucket: u16::try_from(bucket).ok()?,
        from: server_of(old),
        to: server_of(new)?,
    })
}

// What becomes of each bucket, by its number.
fn handovers(heap: Global, old: &[u16], new: &[u16]) -> Result<Vec<Move>, AllocError>
    ensures { IfOk result (λ v. v.items ≡ filter_map (λ b. cond (nat_lt b.0 65536) (handed b.0 b.1.0 b.1.1) None) (enumerate_from 0 (zip old.now new.now))) }
{
    old.iter()
        .zip(new)
        .enumerate()
        .filter_map(|(bucket, (old, new))| hand_over(bucket, *old, *new))
        .collect(heap)
}

// The buckets that change hands, in rising order. Refused: assignments of different lengths, or of more than 65,536 buckets.
pub fn moves(heap: Global, old: &[u16], new: &[u16]) -> Result<Vec<Move>, Error>
    ensures { Found old.now new.now result }
{
    if old.len() != new.len() || old.len() > MOST {
        return Err(Error::Of(Fault::NoSuch));
    }
    Ok(handovers(heap, old, new)?)
}
