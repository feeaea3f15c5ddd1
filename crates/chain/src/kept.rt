// What the controller keeps of one bucket's chain. The type alone: its ghost field imports each `ghost use` of the file,
// so the methods stand in `ops`.
ghost use Rattle.std.specs.Prelude.{◌≡◌, ◌≤◌, true, length, take};
ghost use Rattle.chain.specs.Controllers.{newest_of};
ghost use Rattle.chain.specs.Falls.{falls, awaits};

use crate::handover::Handover;
use crate::way::Link;

pub mod ops;

// At most eight places, the newest first, and the handover that is in progress. An array of eight with their count, which the
// project asks for by name (docs/DECISIONS.md, forms of the code); what a server keeps has the library's `ArrayVec` there.
#[derive(Drop)]
pub struct Chain {
    links: [Link; 8],
    len: usize,
    handover: Handover,
    ghost some: { 1 ≤ len },
    ghost most: { len ≤ 8 },
    ghost eight: { length links ≡ 8 },
    ghost falling: { falls (take len links) ≡ true },
    ghost awaited: { awaits len (newest_of links).place handover ≡ true },
}
