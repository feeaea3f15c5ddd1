// The servers that have all buckets, as the script lists them.
use assignment::counts::counts;
use assignment::moves::{Move, moves};
use fault::{Error, Fault};
use roster::roster::{Roster, is_buckets, unassigned};
use script::command::Command;
use script::read::read_servers;
use shown::change::Change;
use std::alloc::Global;

const BUCKETS: usize = 4096;

#[derive(Drop)]
pub struct Servers {
    buckets: usize,
    // None as long as no server is listed.
    roster: Option<Roster>,
}

impl Servers {
    pub fn new() -> Servers {
        Servers {
            buckets: BUCKETS,
            roster: None,
        }
    }

    // A refusal changes nothing: a new roster takes the place of the old one last.
    pub fn play(&mut self, heap: Global, command: Command, line: &str) -> Result<Change, Error> {
        match command {
            Command::Buckets { buckets } => self.set_buckets(heap, buckets as usize),
            Command::Servers => {
                let servers = read_servers(heap, line)?;
                self.begin(heap, self.buckets, servers.as_slice())
            }
            Command::Add { server } => self.change(heap, |roster| roster.add(heap, server)),
            Command::Remove { server } => self.change(heap, |roster| roster.remove(heap, server)),
            _ => Ok(Change::none(heap)),
        }
    }

    fn set_buckets(&mut self, heap: Global, buckets: usize) -> Result<Change, Error> {
        if !is_buckets(buckets) {
            return Err(Error::Of(Fault::NoSuch));
        }
        let Some(roster) = &self.roster else {
            self.buckets = buckets;
            return Ok(Change::none(heap));
        };
        let servers = Vec::from_slice(heap, roster.servers())?;
        self.begin(heap, buckets, servers.as_slice())
    }

    // All buckets from nothing.
    fn begin(&mut self, heap: Global, buckets: usize, servers: &[u8]) -> Result<Change, Error> {
        let roster = Roster::new(heap, buckets, servers)?;
        let nothing = unassigned(heap, buckets)?;
        let moves = moves(heap, nothing.as_slice(), roster.assignment())?;
        let change = Change::new(heap, [0; 256], counts(roster.assignment()), moves)?;
        self.buckets = buckets;
        self.roster = Some(roster);
        Ok(change)
    }

    // A server comes or goes.
    fn change<S: FnOnce(&mut Roster) -> Result<Vec<Move>, Error>>(
        &mut self,
        heap: Global,
        step: S,
    ) -> Result<Change, Error>
        requires { S.IsAlwaysCallable step }
    {
        let roster = self.roster.as_mut().ok_or(Fault::NoServer)?;
        let had = counts(roster.assignment());
        let moves = step(roster)?;
        Ok(Change::new(heap, had, counts(roster.assignment()), moves)?)
    }
}
