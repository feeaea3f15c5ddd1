// The open sessions, each at its place.
ghost use Rattle.std.specs.Prelude.{◌≡◌, [], ◌∷◌, ◌++◌, position, MatchResult};
ghost use Rattle.flow.specs.Key.{same_flow};
ghost use Rattle.chain.specs.Ways.{same_link};
ghost use Rattle.stage.specs.Opened.{opened, is_of, open_at, count_at, entry_at, empty_at, first_idle};

use chain::place::Entry;
use chain::way::Link;
use flow::key::FlowKey;
use sessions::store::idle::is_idle;
use std::alloc::{AllocFailed, Global};

#[derive(Clone, Copy, PartialEq, Eq, Debug)]
pub struct Session {
    pub at: Link,
    pub flow: FlowKey,
    // The tick of its last packet.
    pub seen: u64,
}

impl Session {
    fn is_at(self, at: Link) -> bool
        ensures { result ≡ same_link self.at at }
    {
        self.at == at
    }

    fn is_for(self, flow: FlowKey) -> bool
        ensures { result ≡ same_flow self.flow flow }
    {
        self.flow == flow
    }

    fn is(self, at: Link, flow: FlowKey) -> bool
        ensures { result ≡ is_of at flow self }
    {
        self.is_at(at) && self.is_for(flow)
    }
}

#[derive(Drop)]
pub struct Sessions {
    open: Vec<Session>,
    // How many each server may have.
    room: u32,
}

impl Sessions {
    pub fn new(heap: Global, room: u32) -> Sessions
        ensures { opened result ≡ [] }
    {
        Sessions {
            open: Vec::new(heap),
            room,
        }
    }

    pub fn reset(&mut self, room: u32)
        ensures { opened self.new ≡ [] }
    {
        self.open.clear();
        self.room = room;
    }

    pub fn as_slice(&self) -> &[Session]
        ensures { result.now ≡ opened self.now }
    {
        self.open.as_slice()
    }

    // What the server of this place says of a session there.
    pub fn entry(&self, at: Link, flow: FlowKey) -> Entry
        ensures { result ≡ entry_at self.now.room at flow (opened self.now) }
    {
        if self.is_open(at, flow) {
            Entry::Open
        } else if self.count(at.server) < self.room as usize {
            Entry::Vacant
        } else {
            Entry::Full
        }
    }

    fn is_open(&self, at: Link, flow: FlowKey) -> bool
        ensures { result ≡ open_at at flow (opened self.now) }
    {
        self.open.iter().any(|session| session.is(at, flow))
    }

    // How many are open at a server, in all its places.
    fn count(&self, server: u8) -> usize
        ensures { result ≡ count_at server (opened self.now) }
    {
        self.open
            .iter()
            .map(|session| usize::from(session.at.server == server))
            .sum()
    }

    pub fn none_at(&self, at: Link) -> bool
        ensures { result ≡ empty_at at (opened self.now) }
    {
        self.open.iter().all(|session| !session.is_at(at))
    }

    pub fn open(&mut self, at: Link, flow: FlowKey, tick: u64) -> Result<(), AllocFailed<Session>>
        ensures { MatchResult result (λ _. opened self.new ≡ opened self.old ++ record { at = at; flow = flow; seen = tick } ∷ []) (λ _. opened self.new ≡ opened self.old) }
    {
        self.open.push(Session {
            at,
            flow,
            seen: tick,
        })
    }

    // A packet came to the session at this tick.
    pub fn touch(&mut self, at: Link, flow: FlowKey, tick: u64) {
        for session in self.open.iter_mut() {
            if session.is(at, flow) {
                session.seen = tick;
            }
        }
    }

    // The first that had no packet for an hour at this tick.
    pub fn first_idle(&self, tick: u64) -> Option<Session>
        ensures { result ≡ first_idle tick (opened self.now) }
    {
        self.open
            .iter()
            .copied()
            .find(|session| is_idle(session.seen, tick))
    }

    fn position(&self, flow: FlowKey) -> Option<usize>
        ensures { result ≡ position (λ s. same_flow s.flow flow) (opened self.now) }
    {
        self.open.iter().position(|session| session.is_for(flow))
    }

    // Where it was open, if it was.
    pub fn close(&mut self, flow: FlowKey) -> Option<Link> {
        let at = self.position(flow)?;
        Some(self.open.remove(at).at)
    }
}
