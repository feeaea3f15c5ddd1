// What is printed when buckets change hands.
ghost use Rattle.std.specs.Prelude.{◌≡◌, [], IfOk};
ghost use Rattle.shown.specs.Changes.{changed, holdings, Keeps};

use assignment::moves::Move;
use std::alloc::{AllocError, Global};

// A server that has more buckets than it had, or fewer.
#[derive(Clone, Copy, PartialEq, Eq, Debug)]
struct Holding {
    server: u8,
    had: usize,
    has: usize,
}

impl Holding {
    fn changed(server: usize, had: usize, has: usize) -> Option<Holding>
        ensures { result ≡ changed server had has }
    {
        let server = u8::try_from(server).ok()?;
        (had != has).then_some(Holding { server, had, has })
    }
}

// Those of all servers, by their number.
fn holdings(heap: Global, had: &[usize], has: &[usize]) -> Result<Vec<Holding>, AllocError>
    ensures { IfOk result (λ v. v.items ≡ holdings had.now has.now) }
{
    had.iter()
        .zip(has)
        .enumerate()
        .filter_map(|(server, (had, has))| Holding::changed(server, *had, *has))
        .collect(heap)
}

#[derive(Drop)]
pub struct Change {
    holdings: Vec<Holding>,
    moves: Vec<Move>,
}

impl Change {
    pub fn none(heap: Global) -> Change
        ensures { Keeps [] [] result }
    {
        Change {
            holdings: Vec::new(heap),
            moves: Vec::new(heap),
        }
    }

    // How many buckets each server had and has, and those that change hands.
    pub fn new(
        heap: Global,
        had: [usize; 256],
        has: [usize; 256],
        moves: Vec<Move>,
    ) -> Result<Change, AllocError>
        ensures { IfOk result (Keeps (holdings had has) moves.items) }
    {
        Ok(Change {
            holdings: holdings(heap, &had, &has)?,
            moves,
        })
    }

    // The outputs of both programs test what this prints.
    pub fn print(&self, rt: &HostRuntime) -> anyhow::Result<()> {
        for Holding { server, had, has } in self.holdings.as_slice() {
            println!(rt; "  house {server}: {had} -> {has}")?;
        }
        for gainer in self.holdings.iter().filter(|held| held.has > held.had) {
            self.print_to(rt, gainer.server)?;
        }
        println!(rt; "  {} buckets change hands", self.moves.len())?;
        Ok(())
    }

    // What a server gets: from nobody, and from those that have fewer than before.
    fn print_to(&self, rt: &HostRuntime, to: u8) -> anyhow::Result<()> {
        self.print_pair(rt, None, to)?;
        for loser in self.holdings.iter().filter(|held| held.has < held.had) {
            self.print_pair(rt, Some(loser.server), to)?;
        }
        Ok(())
    }

    // One line, if any bucket goes this way; neighbours as `3-9`.
    fn print_pair(&self, rt: &HostRuntime, from: Option<u8>, to: u8) -> anyhow::Result<()> {
        let mut run: Option<(u16, u16)> = None;
        for handover in self.moves.as_slice() {
            if handover.to != to || handover.from != from {
                continue;
            }
            let bucket = handover.bucket;
            run = match run {
                None => {
                    print_way(rt, from, to)?;
                    Some((bucket, bucket))
                }
                Some((first, last)) if bucket.wrapping_sub(last) == 1 => Some((first, bucket)),
                Some((first, last)) => {
                    print_run(rt, first, last)?;
                    Some((bucket, bucket))
                }
            };
        }
        if let Some((first, last)) = run {
            print_run(rt, first, last)?;
            println!(rt; "")?;
        }
        Ok(())
    }
}

fn print_way(rt: &HostRuntime, from: Option<u8>, to: u8) -> anyhow::Result<()> {
    match from {
        Some(from) => print!(rt; "  house {from} -> house {to}:")?,
        None => print!(rt; "  nobody -> house {to}:")?,
    }
    Ok(())
}

fn print_run(rt: &HostRuntime, first: u16, last: u16) -> anyhow::Result<()> {
    if first == last {
        print!(rt; " {first}")?;
    } else {
        print!(rt; " {first}-{last}")?;
    }
    Ok(())
}

#[cfg(test)]
mod tests {
    use super::*;
    use std::test::Fail;

    #[test]
    fn those_that_differ(rt: HostRuntime) -> Result<(), Fail> {
        let mut has = [0; 256];
        has[3] = 16;
        let change = Change::new(rt.alloc(), [0; 256], has, Vec::new(rt.alloc()))?;
        assert_eq!(rt; change.holdings.len(), 1);
        assert_eq!(rt;
            change.holdings[0],
            Holding {
                server: 3,
                had: 0,
                has: 16
            }
        );
        Ok(())
    }
}
